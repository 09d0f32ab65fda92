// set and add on a session that its caller keeps and lends by `&mut`: thin wrappers over the calls by value of crate sorter, each with
// the same promise. A refused call leaves session and storage as they were.
#![tactic(auto)]

ghost use Rattle.rules.specs.Answer.{number};
ghost use Rattle.rules.specs.Calls.{set as set_call, add as add_call};
ghost use Rattle.session.specs.Slices.{contents, SameSlices};
ghost use Rattle.admitting.specs.Promise.{Asks, Called};

use lists::Registration;
use rules::Refusal;
use session::{Session, Storage};

// Sets place x.
pub fn set(s: &mut Session, storage: &mut Storage, x: u64) -> Result<(), Refusal>
    requires { Asks s.old (contents storage.old) }
    ensures called { Called (set_call x) (number result) s.old s.new (contents storage.old) (contents storage.new) }
    ensures same { SameSlices storage.old storage.new }
{
    *s = sorter::set(*s, storage, x)?;
    Ok(())
}

// Adds a registration.
pub fn add(s: &mut Session, storage: &mut Storage, r: Registration) -> Result<(), Refusal>
    requires { Asks s.old (contents storage.old) }
    ensures called { Called (add_call r.entry.lane r.entry.inputs.now r.entry.outputs.now) (number result) s.old s.new
        (contents storage.old) (contents storage.new) }
    ensures same { SameSlices storage.old storage.new }
{
    *s = sorter::add(*s, storage, r)?;
    Ok(())
}
