// The tally: each entry that was appended to the order adds 1 at its parallelism.
#![tactic(auto)]

ghost use Rattle.std.specs.Prelude.{◌≡◌, map, ◌+◌, ◌^◌, ◌<◌, length, get_or, set};
ghost use Rattle.rules.specs.Guide.{tallied};
ghost use Rattle.entries.specs.Entries.{row, fits, entry_of};
ghost use Rattle.tally.specs.Counting.{Countable};

// Adds 1 at one parallelism.
fn count_one(tally: &mut [u32], w: u32)
    requires { (w < length tally.old) × (get_or tally.old w 0 + 1 < 2 ^ 32) }
    ensures { tally.new ≡ set tally.old w (get_or tally.old w 0 + 1) }
{
    tally[w as usize] += 1;
}

// Counts the a entries of the order from index n on.
pub fn tally_new(order: &[u32], tally: &mut [u32], n: usize, a: u32)
    requires fits { fits order.now (n + a) }
    requires countable { Countable order.now tally.old n a }
    ensures { tally.new ≡ tallied tally.old (map entry_of (row order.now n a)) }
{
    for q in 0..a {
        count_one(tally, entries::parallelism_at(order, n + q as usize));
    }
}
