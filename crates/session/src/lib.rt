// The session by value, and the placing of registrations over its storage.
#![tactic(auto)]

ghost use Rattle.std.specs.Prelude.{◌≡◌, ◌<◌};
ghost use Rattle.lists.specs.Part.{part};
ghost use Rattle.records.specs.Filling.{rows_fit};
ghost use Rattle.session.specs.Noting.{noted};
ghost use Rattle.session.specs.Outputs.{Settling, Settled};
ghost use Rattle.session.specs.Storage.{given_read, across_read, given_over, across_over};
ghost use Rattle.session.specs.Slices.{contents, SameLists, SameSlices};
ghost use Rattle.session.specs.PlaceNext.{MayPlace, PlacesOne, MayPlaceNext, PlacesNext};
ghost use Rattle.session.specs.Settle.{MaySettle, Settles};
ghost use Rattle.session.specs.PlaceOne.{MayFind, Finds};
ghost use Rattle.session.specs.Poll.{Polls};

use buffer::Guide;
use entries::Entry;
use window::Location;

#[derive(Clone, Copy)]
pub struct Session {
    pub guide: Guide,
    // how many leading places are tracked
    pub watermark: usize,
    // registrations accepted, and the numbers of the pool that their lists take
    pub added: u32,
    pub used: usize,
    // registrations accepted and not yet placed
    pub delayed: u32,
    // plain flushes done
    pub flushes: u32,
    pub closed: bool,
    // fixed by final
    pub registrations: u32,
    pub places: u32,
}

// A session's storage: entries of the spans and of the order, the tally's counts, rows, marks and locations of places, the waiting storage,
// and the pool of input and output lists. Slices of plain numbers: the C interface.
#[derive(Drop)]
pub struct Storage<'a> {
    pub spans: &'a mut [u32],
    pub order: &'a mut [u32],
    pub tally: &'a mut [u32],
    pub rows: &'a mut [u32],
    pub marks: &'a mut [u16],
    pub locations: &'a mut [u64],
    pub waiting: &'a mut [u64],
    pub pool: &'a mut [u32],
}

// How many entries the window holds: a poll, which reads no storage.
pub fn held(s: Session) -> u32
    ensures polls { Polls s result }
    ensures kept { result ≡ s.guide.held }
{
    s.guide.held
}

// What placing a registration reads of it: the greatest location of its inputs, if it has any, the n outputs, which lie in the pool from
// `at` on, and its lane.
#[derive(Clone, Copy)]
pub struct After {
    pub after: Option<Location>,
    pub at: usize,
    pub n: usize,
    pub lane: u16,
}

// Where the lists of registration r lie, the greatest location of its inputs, and its lane.
fn find_after(storage: &Storage, v: u32, added: u32, used: usize, r: u32) -> After
    requires { MayFind (contents storage.now).locations (contents storage.now).waiting (contents storage.now).pool v added used r }
    ensures { Finds (contents storage.now).locations (contents storage.now).waiting (contents storage.now).pool v added used r result }
{
    let size = v as usize;
    let i = r as usize;
    let start = pool::list_start(storage.waiting, size, i);
    let n = pool::list_inputs(storage.waiting, size, i);
    let end = pool::list_end(storage.waiting, size, i, added as usize, used);
    let at = start + n;
    let top = tracking::top_loc(storage.locations, storage.pool, start, n);
    let after = if n == 0 {
        None
    } else {
        Some(tracking::unpacked(top))
    };
    After {
        after,
        at,
        n: end - at,
        lane: pool::lane_of(storage.waiting, size, i),
    }
}

// Gives the outputs, n places listed in the pool from `at` on, their location, and moves the watermark.
fn settle_outputs(
    marks: &mut [u16],
    locations: &mut [u64],
    pool: &[u32],
    at: usize,
    n: usize,
    loc: u64,
    v: u32,
    watermark: usize,
) -> usize
    requires { Settling marks.old locations.old pool.now at n v watermark }
    ensures { Settled marks.old locations.old (part pool.now at n) loc v marks.new locations.new result }
{
    tracking::stamp(marks, locations, pool, at, n, loc);
    tracking::advance(marks, v as usize, watermark)
}

// A session after a turn of the cascade, and the link of the stack's new top. A link is a number, a registration's and 1 or 0 for none, as
// the waiting storage holds it: the C interface.
#[derive(Clone, Copy)]
pub struct CascadeTurn {
    pub session: Session,
    pub top: u64,
}

// The guide and the watermark after a placing.
#[derive(Clone, Copy)]
pub struct Moved {
    pub guide: Guide,
    pub watermark: usize,
}

// Places registration r, the own add of c registrations having ended: it takes its place in the guide after its inputs, rows are filled
// for what the guide released, and its outputs take its location.
fn place_one(s: Session, storage: &mut Storage, r: u32, c: u32) -> Moved
    requires { MayPlace c s.guide s.watermark s.added s.used (contents storage.old) r }
    ensures placed { PlacesOne c r s.guide s.watermark s.added s.used (contents storage.old) result.guide result.watermark (contents storage.new) }
    ensures lists { SameLists (contents storage.old) (contents storage.new) }
    ensures same { SameSlices storage.old storage.new }
{
    let v = s.guide.v;
    let n = s.guide.written;
    let a = find_after(storage, v, s.added, s.used, r);
    let e = Entry {
        value: r,
        added: r,
        accepted: c,
        parallelism: 0,
        lane: a.lane,
    };
    let d = guide::push(
        s.guide,
        storage.spans,
        storage.order,
        storage.tally,
        a.after,
        e,
    );
    let guide = d.guide;
    records::fill_rows(&mut *storage.order, storage.rows, n, guide.written - n);
    let loc = tracking::packed(d.at);
    let watermark = settle_outputs(
        storage.marks,
        storage.locations,
        &mut *storage.pool,
        a.at,
        a.n,
        loc,
        v,
        s.watermark,
    );
    Moved { guide, watermark }
}

// Takes the top of the stack off, places it, and pushes what its outputs set free.
pub fn place_next(s: Session, storage: &mut Storage, top: u64, c: u32) -> CascadeTurn
    requires { MayPlaceNext c s (contents storage.old) top }
    ensures placed { PlacesNext c s (contents storage.old) top result.session (contents storage.new) result.top }
    ensures pool { (contents storage.new).pool ≡ (contents storage.old).pool }
    ensures same { SameSlices storage.old storage.new }
{
    let v = s.guide.v as usize;
    let r = top - 1;
    let under = registrar::next(&mut *storage.waiting, v, r as usize);
    let m = place_one(s, storage, r as u32, c);
    let over = registrar::advance_placed(storage.waiting, v, s.watermark, m.watermark, under);
    let session = Session {
        guide: m.guide,
        watermark: m.watermark,
        delayed: s.delayed - 1,
        ..s
    };
    CascadeTurn { session, top: over }
}

// The cascade: the registrations of the stack whose top link is `top` are placed, with all that they set off. The own add of c
// registrations has ended.
pub fn settle(s: Session, storage: &mut Storage, top: u64, c: u32) -> Session
    requires { MaySettle c s (contents storage.old) top }
    ensures settled { Settles c s (contents storage.old) top result (contents storage.new) }
    ensures pool { (contents storage.new).pool ≡ (contents storage.old).pool }
    ensures same { SameSlices storage.old storage.new }
{
    let mut z = s;
    let mut t = top;
    while t != 0 {
        let d = place_next(z, storage, t, c);
        z = d.session;
        t = d.top;
    }
    z
}

// The placing once more, over the slices one by one: of the pool it only reads, so a caller who holds it by `&` can place. What
// `find_after` does.
fn find_after_over(
    locations: &[u64],
    waiting: &[u64],
    pool: &[u32],
    v: u32,
    added: u32,
    used: usize,
    r: u32,
) -> After
    requires { MayFind locations.now waiting.now pool.now v added used r }
    ensures { Finds locations.now waiting.now pool.now v added used r result }
{
    let size = v as usize;
    let i = r as usize;
    let start = pool::list_start(waiting, size, i);
    let n = pool::list_inputs(waiting, size, i);
    let end = pool::list_end(waiting, size, i, added as usize, used);
    let at = start + n;
    let top = tracking::top_loc(locations, pool, start, n);
    let after = if n == 0 {
        None
    } else {
        Some(tracking::unpacked(top))
    };
    After {
        after,
        at,
        n: end - at,
        lane: pool::lane_of(waiting, size, i),
    }
}

// What `place_one` does.
fn place_one_over(
    s: Session,
    spans: &mut [u32],
    order: &mut [u32],
    tally: &mut [u32],
    rows: &mut [u32],
    marks: &mut [u16],
    locations: &mut [u64],
    waiting: &[u64],
    pool: &[u32],
    r: u32,
    ended: u32,
) -> Moved
    requires { MayPlace ended s.guide s.watermark s.added s.used (given_over spans order tally rows marks locations waiting.now pool.now) r }
    ensures { across_over spans order tally rows marks locations waiting.now pool.now (λ σ τ. PlacesOne ended r s.guide s.watermark s.added s.used σ result.guide result.watermark τ) }
{
    let v = s.guide.v;
    let n = s.guide.written;
    let a = find_after_over(locations, waiting, pool, v, s.added, s.used, r);
    let e = Entry {
        value: r,
        added: r,
        accepted: ended,
        parallelism: 0,
        lane: a.lane,
    };
    let d = guide::push(s.guide, spans, order, tally, a.after, e);
    let guide = d.guide;
    records::fill_rows(order, rows, n, guide.written - n);
    let loc = tracking::packed(d.at);
    let watermark = settle_outputs(marks, locations, pool, a.at, a.n, loc, v, s.watermark);
    Moved { guide, watermark }
}

// What `place_next` does, for a caller who holds the pool by `&`.
pub fn place_next_over(
    s: Session,
    spans: &mut [u32],
    order: &mut [u32],
    tally: &mut [u32],
    rows: &mut [u32],
    marks: &mut [u16],
    locations: &mut [u64],
    waiting: &mut [u64],
    pool: &[u32],
    top: u64,
    c: u32,
) -> CascadeTurn
    requires { MayPlaceNext c s (given_read spans order tally rows marks locations waiting pool.now) top }
    ensures { across_read spans order tally rows marks locations waiting pool.now (λ σ τ. PlacesNext c s σ top result.session τ result.top) }
{
    let v = s.guide.v as usize;
    let r = top - 1;
    let under = registrar::next(waiting, v, r as usize);
    let m = place_one_over(
        s, spans, order, tally, rows, marks, locations, waiting, pool, r as u32, c,
    );
    let over = registrar::advance_placed(waiting, v, s.watermark, m.watermark, under);
    let delayed = s.delayed - 1;
    let session = Session {
        guide: m.guide,
        watermark: m.watermark,
        delayed,
        ..s
    };
    CascadeTurn { session, top: over }
}

// What `settle` does, for a caller who holds the pool by `&`.
pub fn settle_over(
    s: Session,
    spans: &mut [u32],
    order: &mut [u32],
    tally: &mut [u32],
    rows: &mut [u32],
    marks: &mut [u16],
    locations: &mut [u64],
    waiting: &mut [u64],
    pool: &[u32],
    top: u64,
    c: u32,
) -> Session
    requires { MaySettle c s (given_read spans order tally rows marks locations waiting pool.now) top }
    ensures { across_read spans order tally rows marks locations waiting pool.now (λ σ τ. Settles c s σ top result τ) }
{
    let mut z = s;
    let mut t = top;
    while t != 0 {
        let turn = place_next_over(
            z, spans, order, tally, rows, marks, locations, waiting, pool, t, c,
        );
        z = turn.session;
        t = turn.top;
    }
    z
}

// Where the count of registrations went from `from` to `to`, the row of the latest has the order's length stored as its written.
pub fn note_latest(rows: &mut [u32], from: u32, to: u32, written: u32)
    requires { from < to → rows_fit rows.old to }
    ensures { rows.new ≡ noted from to written rows.old }
{
    if from < to {
        records::note_written(rows, to - 1, written);
    }
}
