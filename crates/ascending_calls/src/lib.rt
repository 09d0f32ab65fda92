// The calls of a session under the ascending profile: set, add, flush and final, over the storage that its caller provides. Each is checked
// first, from session and storage, and changes nothing where it is refused. No list is kept and nothing waits, so the storage has no pool
// and no waiting storage.
#![tactic(auto)]

ghost use Rattle.rules.specs.Answer.{number};
ghost use Rattle.rules.specs.Calls.{set as set_call, add as add_call, flush as flush_call, final as final_call};
ghost use Rattle.ascending_session.specs.Slices.{contents, SameSlices};
ghost use Rattle.ascending_session.specs.After.{session_after};
ghost use Rattle.ascending_session.specs.Promise.{Asks, Called};
ghost use Rattle.ascending_calls.specs.Closing.{Concludes};
ghost use Rattle.ascending_calls.specs.Finishing.{session_finished, figures_finished};

use ascending_session::{Ascending, Storage};
use checking::State;
use lists::Registration;
use rules::Refusal;
use summary::Summary;

// Sets place x, which is the lowest one where that is accepted.
pub fn set(s: Ascending, storage: &mut Storage, x: u64) -> Result<Ascending, Refusal>
    requires { Asks s (contents storage.old) }
    ensures called { Called (set_call x) (number result) s (session_after s result) (contents storage.old) (contents storage.new) }
    ensures same { SameSlices storage.old storage.new }
{
    ascending_checks::check_set(s.closed, s.guide.v as usize, s.lowest, x)?;
    tracking::set_mark(storage.marks, s.lowest);
    Ok(Ascending {
        lowest: s.lowest + 1,
        ..s
    })
}

// Adds a registration.
pub fn add(s: Ascending, storage: &mut Storage, r: Registration) -> Result<Ascending, Refusal>
    requires { Asks s (contents storage.old) }
    ensures called { Called (add_call r.entry.lane r.entry.inputs.now r.entry.outputs.now) (number result) s (session_after s result)
        (contents storage.old) (contents storage.new) }
    ensures same { SameSlices storage.old storage.new }
{
    let at = State {
        closed: s.closed,
        v: s.guide.v as usize,
        added: s.added as usize,
        used: s.used,
        room: s.room,
    };
    ascending_checks::check_add(storage.marks, r, s.lowest, at)?;
    let guide = ascending_adding::place_new(s, storage, r);
    Ok(Ascending {
        guide,
        lowest: s.lowest + r.outputs.len(),
        added: s.added + 1,
        used: s.used + (r.inputs.len() + r.outputs.len()),
        ..s
    })
}

// Flushes: all spans are released, and a plain flush more is done. Flush and close are those of crate sorter for another session: a trait of
// both would need a method for each field that they read or set, and is no shorter.
pub fn flush(s: Ascending, storage: &mut Storage) -> Result<Ascending, Refusal>
    requires { Asks s (contents storage.old) }
    ensures called { Called flush_call (number result) s (session_after s result) (contents storage.old) (contents storage.new) }
    ensures same { SameSlices storage.old storage.new }
{
    checking::check_flush(s.closed, s.flushes)?;
    let guide = flushing::release_all(
        s.guide,
        &mut *storage.spans,
        storage.order,
        storage.tally,
        storage.rows,
        s.added,
    );
    Ok(Ascending {
        guide,
        flushes: s.flushes + 1,
        ..s
    })
}

// Flushes and closes, which fixes registrations and places: final for those who do not ask for its summary, which takes a walk over all
// P + 1 counts. Nothing waits.
pub fn close(s: Ascending, storage: &mut Storage) -> Result<Ascending, Refusal>
    requires { Asks s (contents storage.old) }
    ensures called { Called final_call (number result) s (session_after s result) (contents storage.old) (contents storage.new) }
    ensures same { SameSlices storage.old storage.new }
{
    checking::check_final(s.closed, 0)?;
    let guide = flushing::release_all(
        s.guide,
        &mut *storage.spans,
        storage.order,
        storage.tally,
        storage.rows,
        s.added,
    );
    Ok(Ascending {
        guide,
        closed: true,
        registrations: s.added,
        places: s.lowest as u32,
        ..s
    })
}

// What an accepted final gives: the session after it, and the summary of the tally.
#[derive(Clone, Copy)]
pub struct Finished {
    pub session: Ascending,
    pub summary: Summary,
}

// Flushes, closes and sums up.
pub fn finish(s: Ascending, storage: &mut Storage) -> Result<Finished, Refusal>
    requires { Asks s (contents storage.old) }
    ensures concludes { Concludes (number result) s (session_finished s result) (contents storage.old) (contents storage.new) (figures_finished result) }
    ensures same { SameSlices storage.old storage.new }
{
    let session = close(s, storage)?;
    Ok(Finished {
        session,
        summary: summary::finalize(&mut *storage.tally, session.guide.p),
    })
}
