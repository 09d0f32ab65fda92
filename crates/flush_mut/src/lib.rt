// flush and final on a session that its caller keeps and lends by `&mut`: thin wrappers over the calls by value of crate sorter, each with
// the same promise. A refused call leaves session and storage as they were.
#![tactic(auto)]

ghost use Rattle.rules.specs.Answer.{number};
ghost use Rattle.rules.specs.Calls.{flush as flush_call};
ghost use Rattle.session.specs.Slices.{contents, SameSlices};
ghost use Rattle.admitting.specs.Promise.{Asks, Called};
ghost use Rattle.sorter.specs.FinalWork.{Concludes};
ghost use Rattle.sorter.specs.Finishing.{figures_told};

use rules::Refusal;
use session::{Session, Storage};
use summary::Summary;

// Flushes.
pub fn flush(s: &mut Session, storage: &mut Storage) -> Result<(), Refusal>
    requires { Asks s.old (contents storage.old) }
    ensures called { Called flush_call (number result) s.old s.new (contents storage.old) (contents storage.new) }
    ensures same { SameSlices storage.old storage.new }
{
    *s = sorter::flush(*s, storage)?;
    Ok(())
}

// Flushes, closes and sums up.
pub fn finish(s: &mut Session, storage: &mut Storage) -> Result<Summary, Refusal>
    requires { Asks s.old (contents storage.old) }
    ensures concludes { Concludes (number result) s.old s.new (contents storage.old) (contents storage.new) (figures_told result) }
    ensures same { SameSlices storage.old storage.new }
{
    let a = sorter::finish(*s, storage)?;
    *s = a.session;
    Ok(a.summary)
}
