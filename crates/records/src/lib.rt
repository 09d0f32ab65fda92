// Record rows, SIZE numbers each: added, accepted, written, order index, and parallelism and lane in one. When entries were appended to the
// order, the rows of their registrations are filled, all but written, which is stored apart. Flat numbers, since hosts read the rows in
// this layout by the C interface.
#![tactic(auto)]

ghost use Rattle.std.specs.Prelude.{◌≡◌, ◌+◌, ◌^◌, ◌<◌};
ghost use Rattle.entries.specs.Entries.{row, fits};
ghost use Rattle.records.specs.Filling.{has_row, written_at, with_written, fill_one, filled, Fillable};

use entries::Entry;

// The numbers of a row.
pub const SIZE: usize = 5;

// Fills all but written in the row of an entry that stands at index n of the order.
fn fill_one(rows: &mut [u32], n: u32, e: Entry)
    requires { has_row rows.old e.added }
    ensures { rows.new ≡ fill_one rows.old n e }
{
    let i = SIZE * e.added as usize;
    rows[i] = e.added;
    rows[i + 1] = e.accepted;
    rows[i + 3] = n;
    rows[i + 4] = entries::packed(e.parallelism, e.lane);
}

// Fills the rows of the a entries of the order from index n on.
pub fn fill_rows(order: &[u32], rows: &mut [u32], n: u32, a: u32)
    requires fits { fits order.now (n + a) × (n + a < 2 ^ 32) }
    requires fillable { Fillable order.now n a rows.old }
    ensures { rows.new ≡ filled rows.old n (row order.now n a) }
{
    for q in 0..a {
        let e = entries::load(order, (n + q) as usize);
        fill_one(rows, n + q, e);
    }
}

// What registration r's row has as written.
pub fn written_of(rows: &[u32], r: u32) -> u32
    requires { has_row rows.now r }
    ensures { result ≡ written_at rows.now r }
{
    rows[SIZE * r as usize + 2]
}

// Stores written in registration r's row; all else stays.
pub fn note_written(rows: &mut [u32], r: u32, written: u32)
    requires { has_row rows.old r }
    ensures { rows.new ≡ with_written rows.old r written }
{
    let i = SIZE * r as usize + 2;
    rows[i] = written;
}
