// The calls of a session over the storage that its caller provides: set, add, flush and final. Each is checked first, from session and
// storage, and changes nothing where it is refused. Flush and final touch spans, order, tally and rows only and take the whole storage: a
// caller makes every call on one storage, and each promises that all of it stands for the model.
#![tactic(auto)]

ghost use Rattle.rules.specs.Answer.{number};
ghost use Rattle.rules.specs.Calls.{set as set_call, add as add_call, flush as flush_call, final as final_call};
ghost use Rattle.session.specs.Slices.{contents, SameSlices};
ghost use Rattle.session.specs.After.{session_after};
ghost use Rattle.admitting.specs.Promise.{Asks, Called};
ghost use Rattle.sorter.specs.FinalWork.{Concludes};
ghost use Rattle.sorter.specs.Finishing.{session_finished, figures_finished};

use lists::Registration;
use rules::Refusal;
use session::{Session, Storage};
use summary::Summary;

// Sets place x.
pub fn set(s: Session, storage: &mut Storage, x: u64) -> Result<Session, Refusal>
    requires { Asks s (contents storage.old) }
    ensures called { Called (set_call x) (number result) s (session_after s result) (contents storage.old) (contents storage.new) }
    ensures same { SameSlices storage.old storage.new }
{
    let a = admitting::admit_set(s, storage.marks, storage.waiting, x)?;
    Ok(admitting::place_admitted(s, storage, a))
}

// Adds a registration.
pub fn add(s: Session, storage: &mut Storage, r: Registration) -> Result<Session, Refusal>
    requires { Asks s (contents storage.old) }
    ensures called { Called (add_call r.entry.lane r.entry.inputs.now r.entry.outputs.now) (number result) s (session_after s result)
        (contents storage.old) (contents storage.new) }
    ensures same { SameSlices storage.old storage.new }
{
    let a = admitting::admit_add(s, storage.waiting, storage.pool, r)?;
    Ok(admitting::place_admitted(s, storage, a))
}

// Flushes: all spans are released, and a plain flush more is done.
pub fn flush(s: Session, storage: &mut Storage) -> Result<Session, Refusal>
    requires { Asks s (contents storage.old) }
    ensures called { Called flush_call (number result) s (session_after s result) (contents storage.old) (contents storage.new) }
    ensures same { SameSlices storage.old storage.new }
{
    checking::check_flush(s.closed, s.flushes)?;
    let guide = flushing::release_all(
        s.guide,
        &mut *storage.spans,
        storage.order,
        storage.tally,
        storage.rows,
        s.added,
    );
    Ok(Session {
        guide,
        flushes: s.flushes + 1,
        ..s
    })
}

// Flushes and closes, which fixes registrations and places: final for those who do not ask for its summary, which takes a walk over all
// P + 1 counts.
pub fn close(s: Session, storage: &mut Storage) -> Result<Session, Refusal>
    requires { Asks s (contents storage.old) }
    ensures called { Called final_call (number result) s (session_after s result) (contents storage.old) (contents storage.new) }
    ensures same { SameSlices storage.old storage.new }
{
    checking::check_final(s.closed, s.delayed)?;
    let guide = flushing::release_all(
        s.guide,
        &mut *storage.spans,
        storage.order,
        storage.tally,
        storage.rows,
        s.added,
    );
    Ok(Session {
        guide,
        closed: true,
        registrations: s.added,
        places: s.watermark as u32,
        ..s
    })
}

// What an accepted final gives: the session after it, and the summary of the tally.
#[derive(Clone, Copy)]
pub struct Finished {
    pub session: Session,
    pub summary: Summary,
}

// Flushes, closes and sums up.
pub fn finish(s: Session, storage: &mut Storage) -> Result<Finished, Refusal>
    requires { Asks s (contents storage.old) }
    ensures concludes { Concludes (number result) s (session_finished s result) (contents storage.old) (contents storage.new) (figures_finished result) }
    ensures same { SameSlices storage.old storage.new }
{
    let session = close(s, storage)?;
    Ok(Finished {
        session,
        summary: summary::finalize(&mut *storage.tally, session.guide.p),
    })
}
