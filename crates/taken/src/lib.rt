// Which places are taken: a flag for each place in the waiting storage, 1 if it is set, written or promised, else 0. This crate alone
// knows where a flag lies, by `flag`, `set_flag` and `clear`: of the quarters of v numbers, the fourth holds them.
#![tactic(auto)]

ghost use Rattle.std.specs.Prelude.{◌≡◌, ◌≤◌, ◌<◌, length};
ghost use Rattle.rules.specs.Checks.{any, waiting_needed};
ghost use Rattle.lists.specs.Part.{Below};
ghost use Rattle.zeros.specs.Zeros.{Cleared};
ghost use Rattle.taken.specs.Flag.{flags_at, flag_at, with_flag};
ghost use Rattle.taken.specs.Flags.{taken_at, Plain, Flagged, Raises, Lowering, Lowers, Repeats, Unclaiming, Unclaims, Claims};

// Takes all flags back.
pub fn clear(waiting: &mut [u64], v: usize)
    requires { waiting_needed v ≤ length waiting.old }
    ensures { Cleared (flags_at v) (waiting_needed v) waiting.old waiting.new }
{
    waiting[3 * v..4 * v].fill(0);
}

// The flag of place x of v.
fn flag(waiting: &[u64], v: usize, x: usize) -> u64
    requires { (x < v) × (waiting_needed v ≤ length waiting.now) }
    ensures { result ≡ flag_at waiting.now v x }
{
    waiting[3 * v + x]
}

// Stores the flag of place x of v.
fn set_flag(waiting: &mut [u64], v: usize, x: usize, to: u64)
    requires { (x < v) × (waiting_needed v ≤ length waiting.old) }
    ensures { waiting.new ≡ with_flag waiting.old v x to }
{
    waiting[3 * v + x] = to;
}

// Raises the flag of each place by 2, up to the first place that is raised already: the index of that one, or the count of them all.
// ascending_marks::raise_marks is alike over 16-bit marks. One walk for both would be no plainer: a trait for the cells, with the test
// and the two steps, and a part cut out of this storage, in the place of two loops of seven lines; so for the walks that lower.
fn raise_flags(outs: &[u64], waiting: &mut [u64], v: usize) -> usize
    requires { Flagged waiting.old v outs.now }
    ensures { Raises waiting.old v outs.now result waiting.new }
{
    for (i, x) in outs.iter().enumerate() {
        let up = flag(waiting, v, *x as usize);
        if 1 < up {
            return i;
        }
        set_flag(waiting, v, *x as usize, up + 2);
    }
    outs.len()
}

// Lowers the flags of the first n places again.
fn lower_flags(outs: &[u64], waiting: &mut [u64], v: usize, n: usize)
    requires { Lowering waiting.old v outs.now n }
    ensures { Lowers waiting.old v outs.now n waiting.new }
{
    for x in outs[..n].iter().rev() {
        let up = flag(waiting, v, *x as usize);
        set_flag(waiting, v, *x as usize, up - 2);
    }
}

// Whether a place stands twice among outs. Of two or more the flags are raised on the way and lowered again, so that storage is as it was.
pub fn repeats(outs: &[u64], waiting: &mut [u64], v: usize) -> bool
    requires { Flagged waiting.old v outs.now }
    ensures { Repeats waiting.old outs.now result waiting.new }
{
    if outs.len() < 2 {
        return false;
    }
    let n = raise_flags(outs, waiting, v);
    lower_flags(outs, waiting, v, n);
    n < outs.len()
}

// Whether place x is flagged as taken.
pub fn is_taken(waiting: &[u64], v: usize, x: usize) -> bool
    requires { (x < v) × (waiting_needed v ≤ length waiting.now) }
    ensures { result ≡ taken_at waiting.now v x }
{
    flag(waiting, v, x) == 1
}

// Whether one of outs is flagged as taken.
pub fn any_taken(outs: &[u64], waiting: &[u64], v: usize) -> bool
    requires { (Below v outs.now) × (waiting_needed v ≤ length waiting.now) }
    ensures { result ≡ any (taken_at waiting.now v) outs.now }
{
    outs.iter().any(|x| is_taken(waiting, v, *x as usize))
}

// Flags place x as taken.
pub fn claim_one(waiting: &mut [u64], v: usize, x: usize)
    requires { (x < v) × (waiting_needed v ≤ length waiting.old) }
    ensures { waiting.new ≡ with_flag waiting.old v x 1 }
{
    set_flag(waiting, v, x, 1);
}

// Takes the flags of the first n places back.
fn unclaim(outs: &[u64], waiting: &mut [u64], v: usize, n: usize)
    requires { Unclaiming waiting.old v outs.now n }
    ensures { Unclaims waiting.old v outs.now n waiting.new }
{
    for x in outs[..n].iter().rev() {
        set_flag(waiting, v, *x as usize, 0);
    }
}

// Flags each of outs as taken, and says so; where one is v or more, is taken already or stands twice, storage is as it was. One walk does
// both tests: most lists are short, and another loop would cost more than they do.
pub fn claim_new(outs: &[u64], waiting: &mut [u64], v: usize) -> bool
    requires { Plain waiting.old v }
    ensures { Claims waiting.old v outs.now result waiting.new }
{
    for (i, x) in outs.iter().enumerate() {
        let place = *x as usize;
        if place >= v || flag(waiting, v, place) != 0 {
            unclaim(outs, waiting, v, i);
            return false;
        }
        set_flag(waiting, v, place, 1);
    }
    true
}
