// A set or an add admitted: its own marks or lists stored where it passes its checks. What it set free or added is then placed, with all
// that this sets off.
#![tactic(auto)]

ghost use Rattle.std.specs.Prelude.{◌≡◌, ◌+◌, ◌≤◌, ◌<◌, length};
ghost use Rattle.rules.specs.Checks.{waiting_needed};
ghost use Rattle.session.specs.Storage.{given_read, across_read};
ghost use Rattle.session.specs.Slices.{contents, SameSlices};
ghost use Rattle.session.specs.Settle.{MaySettle};
ghost use Rattle.admitting.specs.Linking.{LinksNew};
ghost use Rattle.admitting.specs.Told.{passed, told};
ghost use Rattle.admitting.specs.Admitted.{counted, Places, AsksSet, AdmitsSet, AsksAdd, AdmitsAdd};

use checking::State;
use lists::Registration;
use rules::Refusal;
use session::{Session, Storage};

// The session's counts after the own marks or lists of a call are stored, with the top link of the stack of what is to be placed.
#[derive(Clone, Copy)]
pub struct Admitted {
    pub watermark: usize,
    pub added: u32,
    pub used: usize,
    pub delayed: u32,
    pub top: u64,
}

// The set of place x.
pub fn admit_set(
    s: Session,
    marks: &mut [u16],
    waiting: &mut [u64],
    x: u64,
) -> Result<Admitted, Refusal>
    requires { AsksSet s marks.old waiting.old }
    ensures { AdmitsSet x s (told s result) marks.old waiting.old marks.new waiting.new }
{
    let v = s.guide.v as usize;
    checking::check_set(waiting, s.closed, v, x)?;
    let m = marking::mark_set(marks, waiting, v, s.watermark, x as usize);
    Ok(Admitted {
        watermark: m.watermark,
        added: s.added,
        used: s.used,
        delayed: s.delayed,
        top: m.top,
    })
}

// Registration r with so many inputs, m being the greatest, is put on the stack to be placed at once, or waits under m where that is not
// below the watermark; the stack's top link, 0 where it waits.
fn link_new(waiting: &mut [u64], inputs: usize, m: u64, v: usize, watermark: usize, r: usize) -> u64
    requires { (m < v) × (r < v) × (waiting_needed v ≤ length waiting.old) }
    ensures { LinksNew waiting.old v watermark inputs m r result waiting.new }
{
    if inputs != 0 {
        if watermark as u64 <= m {
            registrar::delay(waiting, v, m as usize, r);
            return 0;
        }
    }
    registrar::stack(waiting, v, r, 0)
}

// The add of registration r.
pub fn admit_add(
    s: Session,
    waiting: &mut [u64],
    pool: &mut [u32],
    r: Registration,
) -> Result<Admitted, Refusal>
    requires { AsksAdd s waiting.old pool.old }
    ensures { AdmitsAdd r.entry.lane r.entry.inputs.now r.entry.outputs.now s (told s result) waiting.old pool.old waiting.new pool.new }
{
    let v = s.guide.v as usize;
    let i = s.added as usize;
    let m = lists::greatest(r.inputs);
    let at = State {
        closed: s.closed,
        v,
        added: i,
        used: s.used,
        room: pool.len(),
    };
    claiming::claim_add(waiting, r, m, at)?;
    entering::store_lists(waiting, pool, r, v, i, s.used);
    let top = link_new(waiting, r.inputs.len(), m, v, s.watermark, i);
    Ok(Admitted {
        watermark: s.watermark,
        added: s.added + 1,
        used: s.used + (r.inputs.len() + r.outputs.len()),
        delayed: s.delayed + 1,
        top,
    })
}

// Places what was admitted, with all that it sets off; the row of an added registration notes the order's length.
pub fn place_admitted(s: Session, storage: &mut Storage, a: Admitted) -> Session
    requires { MaySettle s.added (counted s (passed a)) (contents storage.old) a.top }
    ensures placed { Places s (passed a) result (contents storage.old) (contents storage.new) }
    ensures pool { (contents storage.new).pool ≡ (contents storage.old).pool }
    ensures same { SameSlices storage.old storage.new }
{
    let z = Session {
        watermark: a.watermark,
        added: a.added,
        used: a.used,
        delayed: a.delayed,
        ..s
    };
    let t = session::settle(z, storage, a.top, s.added);
    session::note_latest(storage.rows, s.added, a.added, t.guide.written);
    t
}

// What `place_admitted` does, over the slices one by one: of the pool placing only reads, so a caller who holds it by `&` can place.
pub fn place_admitted_over(
    s: Session,
    spans: &mut [u32],
    order: &mut [u32],
    tally: &mut [u32],
    rows: &mut [u32],
    marks: &mut [u16],
    locations: &mut [u64],
    waiting: &mut [u64],
    pool: &[u32],
    a: Admitted,
) -> Session
    requires { MaySettle s.added (counted s (passed a)) (given_read spans order tally rows marks locations waiting pool.now) a.top }
    ensures { across_read spans order tally rows marks locations waiting pool.now (λ σ τ. Places s (passed a) result σ τ) }
{
    let z = Session {
        watermark: a.watermark,
        added: a.added,
        used: a.used,
        delayed: a.delayed,
        ..s
    };
    let t = session::settle_over(
        z, spans, order, tally, rows, marks, locations, waiting, pool, a.top, s.added,
    );
    session::note_latest(rows, s.added, a.added, t.guide.written);
    t
}
