// Opening a session under the ascending profile on storage that the caller provides: refusals 1 and 2, and the fresh state. No waiting
// storage is asked for.
#![tactic(auto)]

ghost use Rattle.std.specs.Prelude.{◌≡◌, length};
ghost use Rattle.rules.specs.Answer.{number};
ghost use Rattle.rules.specs.Checks.{verdict};
ghost use Rattle.rules.specs.Ascending.{check_open};
ghost use Rattle.opening.specs.Opened.{sizes, Kept};
ghost use Rattle.ascending_session.specs.Slices.{contents, SameSlices};
ghost use Rattle.ascending_session.specs.After.{session_after};
ghost use Rattle.ascending_opening.specs.Opened.{Lengths, Begins, Opens, first_session};
ghost use Rattle.ascending_opening.specs.Slices.{Lengths as LengthsOver, BeginsOver, BeginsWithAny, OpensOver};

use ascending_session::{Ascending, Storage};
use opening::SliceLengths;
use rules::Refusal;

// The checks of opening; over lengths alone they are `opening::check_lengths`. The six lengths are named here and in opening: its storage is
// another struct, and the borrow checker takes no struct of lent slices within another.
pub fn check_open(storage: &Storage, p: u64, v: u64) -> Result<(), Refusal>
    ensures { number result ≡ verdict (check_open p v (sizes (contents storage.now))) }
{
    let lengths = SliceLengths {
        spans: storage.spans.len(),
        order: storage.order.len(),
        tally: storage.tally.len(),
        rows: storage.rows.len(),
        marks: storage.marks.len(),
        locations: storage.locations.len(),
    };
    opening::check_lengths(lengths, p, v)
}

// A session of parallelism p and v places just opened, which takes w list numbers in all.
pub fn fresh(p: u32, v: u32, w: u64) -> Ascending
    ensures { result ≡ first_session p v w }
{
    Ascending {
        guide: guide::fresh(p, v),
        lowest: 0,
        added: 0,
        used: 0,
        room: w as usize,
        flushes: 0,
        closed: false,
        registrations: 0,
        places: 0,
    }
}

// Opens a session of parallelism p and v places, which takes w list numbers in all, on the slices that opening writes: they suffice for a
// caller who has no more of the storage at hand. Of every storage that has them and passes the checks, it promises what opening promises.
pub fn begin_over(
    tally: &mut [u32],
    rows: &mut [u32],
    marks: &mut [u16],
    locations: &mut [u64],
    p: u64,
    v: u64,
    w: u64,
) -> Ascending
    requires { LengthsOver p v (length tally.old) (length rows.old) (length marks.old) (length locations.old) }
    ensures { BeginsOver p v w result tally rows marks locations }
{
    opening::clear(tally, rows, marks, locations, p as usize, v as usize);
    fresh(p as u32, v as u32, w)
}

// Opens a session of parallelism p and v places, which takes w list numbers in all, on storage that passes the checks. What it promises of
// spans and order that pass them holds of every other that would, as they are neither read nor written.
pub fn begin(storage: &mut Storage, p: u64, v: u64, w: u64) -> Ascending
    requires { Lengths p v (contents storage.old) }
    ensures begins { Begins p v w result (contents storage.old) (contents storage.new) }
    ensures with_any { BeginsWithAny p v w result (contents storage.old) (contents storage.new) }
    ensures kept { Kept (contents storage.old) (contents storage.new) }
    ensures same { SameSlices storage.old storage.new }
{
    begin_over(
        storage.tally,
        storage.rows,
        storage.marks,
        storage.locations,
        p,
        v,
        w,
    )
}

// Opens a session of parallelism p and v places, which takes w list numbers in all, on slices that a caller lends one by one, or refuses:
// then they are as they were. Spans and order are only read.
pub fn open_over(
    spans: &[u32],
    order: &[u32],
    tally: &mut [u32],
    rows: &mut [u32],
    marks: &mut [u16],
    locations: &mut [u64],
    p: u64,
    v: u64,
    w: u64,
) -> Result<Ascending, Refusal>
    ensures { OpensOver p v w (number result) (session_after (first_session 0 0 0) result) spans.now order.now tally rows marks locations }
{
    let lengths = SliceLengths {
        spans: spans.len(),
        order: order.len(),
        tally: tally.len(),
        rows: rows.len(),
        marks: marks.len(),
        locations: locations.len(),
    };
    opening::check_lengths(lengths, p, v)?;
    Ok(begin_over(tally, rows, marks, locations, p, v, w))
}

// Opens a session of parallelism p and v places, which takes w list numbers in all, on the storage, or refuses: then storage is as it was.
pub fn open(storage: &mut Storage, p: u64, v: u64, w: u64) -> Result<Ascending, Refusal>
    ensures opens { Opens p v w (number result) (session_after (first_session 0 0 0) result) (contents storage.old) (contents storage.new) }
    ensures kept { Kept (contents storage.old) (contents storage.new) }
    ensures same { SameSlices storage.old storage.new }
{
    check_open(storage, p, v)?;
    Ok(begin(storage, p, v, w))
}
