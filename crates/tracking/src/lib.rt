// Marks and locations of places, and the watermark, the count of leading tracked places. A location is stored as one number, so that the
// greatest location is the greatest number; this crate alone makes that number and takes it apart.
#![tactic(auto)]

ghost use Rattle.std.specs.Prelude.{◌≡◌, ◌<◌, ◌≤◌, length, set};
ghost use Rattle.rules.specs.Limits.{mark_set};
ghost use Rattle.rules.specs.Model.{run_from};
ghost use Rattle.lists.specs.Part.{part, Listed};
ghost use Rattle.tracking.specs.Tracking.{packed, located, unpacked, peak, Stamped, tracked_in};

use window::Location;

// A location as one number.
pub fn packed(at: Location) -> u64
    ensures { result ≡ packed at.span at.pos }
{
    (at.span as u64) * rules::LOCATION_RADIX + (at.pos as u64)
}

// The location that a number stands for.
pub fn unpacked(loc: u64) -> Location
    ensures { located result ≡ unpacked loc }
{
    Location {
        span: (loc / rules::LOCATION_RADIX) as u32,
        pos: (loc % rules::LOCATION_RADIX) as u32,
    }
}

// The greatest location of the n places listed in the pool from `at` on, 0 where there are none.
pub fn top_loc(locations: &[u64], pool: &[u32], at: usize, n: usize) -> u64
    requires { Listed pool.now at n (length locations.now) }
    ensures { result ≡ peak locations.now (part pool.now at n) }
{
    let mut m: u64 = 0;
    for x in &pool[at..at + n] {
        m = m.max(locations[*x as usize]);
    }
    m
}

// Marks the n places listed in the pool from `at` on as written, each with the location; no other place is touched.
// Marks and locations stay two slices: the C interface lends them apart.
pub fn stamp(marks: &mut [u16], locations: &mut [u64], pool: &[u32], at: usize, n: usize, loc: u64)
    requires { (Listed pool.now at n (length marks.old)) × (Listed pool.now at n (length locations.old)) }
    ensures { Stamped marks.old locations.old (part pool.now at n) loc marks.new locations.new }
{
    for x in &pool[at..at + n] {
        let x = *x as usize;
        marks[x] = rules::MARK_WRITTEN;
        locations[x] = loc;
    }
}

// Marks place x as set; its location stays what it was, which is 0 for a place that nothing wrote.
pub fn set_mark(marks: &mut [u16], x: usize)
    requires { x < length marks.old }
    ensures { marks.new ≡ set marks.old x mark_set }
{
    marks[x] = rules::MARK_SET;
}

// The watermark of the first v places, looked for from `from` on: the places before `from` are known to be tracked.
pub fn advance(marks: &[u16], v: usize, from: usize) -> usize
    requires { (v ≤ length marks.now) × (from ≤ run_from (tracked_in marks.now) v 0) }
    ensures { result ≡ run_from (tracked_in marks.now) v 0 }
{
    let ahead = &marks[from..v];
    from + ahead.iter().position(|m| *m == 0).unwrap_or(ahead.len())
}
