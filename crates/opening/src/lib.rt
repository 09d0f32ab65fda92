// Opening a session on storage that the caller provides: refusals 1 and 2, and the fresh state. What both profiles look at and clear is here
// once: ascending_opening uses it too.
#![tactic(auto)]

ghost use Rattle.std.specs.Prelude.{◌≡◌, length};
ghost use Rattle.rules.specs.Answer.{number};
ghost use Rattle.rules.specs.Checks.{verdict, check_open};
ghost use Rattle.rules.specs.Ascending.{check_open as check_lean};
ghost use Rattle.session.specs.Slices.{contents, SameSlices};
ghost use Rattle.session.specs.After.{session_after};
ghost use Rattle.opening.specs.Opened.{sizes_of, sizes, PlaceLengths, Lengths, ClearsOver, Kept, Begins, Opens, first_session};
ghost use Rattle.opening.specs.Slices.{Lengths as LengthsOver, BeginsOver, BeginsWithAny, OpensOver};

use rules::Refusal;
use session::{Session, Storage};

// The lengths of the slices that a session of either profile has.
#[derive(Clone, Copy)]
pub struct SliceLengths {
    pub spans: usize,
    pub order: usize,
    pub tally: usize,
    pub rows: usize,
    pub marks: usize,
    pub locations: usize,
}

// The checks of opening but for the waiting storage: those of the guide alone, then the lengths of what else there is for each place.
pub fn check_lengths(l: SliceLengths, p: u64, v: u64) -> Result<(), Refusal>
    ensures { number result ≡ verdict (check_lean p v (sizes_of l.spans l.order l.tally l.rows l.marks l.locations 0)) }
{
    alone_checks::check_open(
        l.spans / entries::SIZE,
        l.order / entries::SIZE,
        l.tally,
        p,
        v,
    )?;
    if l.rows / records::SIZE < v as usize || l.marks < v as usize || l.locations < v as usize {
        return Err(Refusal::TooShort);
    }
    Ok(())
}

// The checks of opening, over lengths alone: a caller may have no more of the storage than these.
pub fn check_sizes(l: SliceLengths, waiting: usize, p: u64, v: u64) -> Result<(), Refusal>
    ensures { number result ≡ verdict (check_open p v (sizes_of l.spans l.order l.tally l.rows l.marks l.locations waiting)) }
{
    check_lengths(l, p, v)?;
    if waiting < waiting::SIZE * v as usize {
        return Err(Refusal::TooShort);
    }
    Ok(())
}

// The checks of opening.
pub fn check_open(storage: &Storage, p: u64, v: u64) -> Result<(), Refusal>
    ensures { number result ≡ verdict (check_open p v (sizes (contents storage.now))) }
{
    let lengths = SliceLengths {
        spans: storage.spans.len(),
        order: storage.order.len(),
        tally: storage.tally.len(),
        rows: storage.rows.len(),
        marks: storage.marks.len(),
        locations: storage.locations.len(),
    };
    check_sizes(lengths, storage.waiting.len(), p, v)
}

// Clears rows, places with their locations, and tally.
pub fn clear(
    tally: &mut [u32],
    rows: &mut [u32],
    marks: &mut [u16],
    locations: &mut [u64],
    p: usize,
    v: usize,
)
    requires { PlaceLengths p v (length tally.old) (length rows.old) (length marks.old) (length locations.old) }
    ensures { ClearsOver p v tally rows marks locations }
{
    tally[..p + 1].fill(0);
    rows[..records::SIZE * v].fill(0);
    marks[..v].fill(0);
    locations[..v].fill(0);
}

// A session of parallelism p and v places just opened.
pub fn fresh(p: u32, v: u32) -> Session
    ensures { result ≡ first_session p v }
{
    Session {
        guide: guide::fresh(p, v),
        watermark: 0,
        added: 0,
        used: 0,
        delayed: 0,
        flushes: 0,
        closed: false,
        registrations: 0,
        places: 0,
    }
}

// Opens a session of parallelism p and v places on the slices that opening writes: they suffice for a caller who has no more of the storage
// at hand. Of every storage that has them and passes the checks, it promises what opening promises.
pub fn begin_over(
    tally: &mut [u32],
    rows: &mut [u32],
    marks: &mut [u16],
    locations: &mut [u64],
    waiting: &mut [u64],
    p: u64,
    v: u64,
) -> Session
    requires { LengthsOver p v (length tally.old) (length rows.old) (length marks.old) (length locations.old) (length waiting.old) }
    ensures { BeginsOver p v result tally rows marks locations waiting }
{
    clear(tally, rows, marks, locations, p as usize, v as usize);
    waiting::clear(waiting, v as usize);
    fresh(p as u32, v as u32)
}

// Opens a session of parallelism p and v places on storage that passes the checks. What it promises of spans, order and pool that pass them
// holds of every other that would, as they are neither read nor written.
pub fn begin(storage: &mut Storage, p: u64, v: u64) -> Session
    requires { Lengths p v (contents storage.old) }
    ensures begins { Begins p v result (contents storage.old) (contents storage.new) }
    ensures with_any { BeginsWithAny p v result (contents storage.old) (contents storage.new) }
    ensures kept { Kept (contents storage.old) (contents storage.new) }
    ensures same { SameSlices storage.old storage.new }
{
    begin_over(
        storage.tally,
        storage.rows,
        storage.marks,
        storage.locations,
        storage.waiting,
        p,
        v,
    )
}

// Opens a session of parallelism p and v places on slices that a caller lends one by one, or refuses: then they are as they were. Spans and
// order are only read, and the pool is not looked at.
pub fn open_over(
    spans: &[u32],
    order: &[u32],
    tally: &mut [u32],
    rows: &mut [u32],
    marks: &mut [u16],
    locations: &mut [u64],
    waiting: &mut [u64],
    p: u64,
    v: u64,
) -> Result<Session, Refusal>
    ensures { OpensOver p v (number result) (session_after (first_session 0 0) result) spans.now order.now tally rows marks locations waiting }
{
    let lengths = SliceLengths {
        spans: spans.len(),
        order: order.len(),
        tally: tally.len(),
        rows: rows.len(),
        marks: marks.len(),
        locations: locations.len(),
    };
    check_sizes(lengths, waiting.len(), p, v)?;
    Ok(begin_over(tally, rows, marks, locations, waiting, p, v))
}

// Opens a session of parallelism p and v places on the storage, or refuses: then storage is as it was.
pub fn open(storage: &mut Storage, p: u64, v: u64) -> Result<Session, Refusal>
    ensures opens { Opens p v (number result) (session_after (first_session 0 0) result) (contents storage.old) (contents storage.new) }
    ensures kept { Kept (contents storage.old) (contents storage.new) }
    ensures same { SameSlices storage.old storage.new }
{
    check_open(storage, p, v)?;
    Ok(begin(storage, p, v))
}
