// add with its outputs flagged as taken where it is accepted, in one walk that finds one of v or more, a repeated or a taken one. Only a
// refused call is looked at check by check, for its number.
#![tactic(auto)]

ghost use Rattle.rules.specs.Answer.{number};
ghost use Rattle.claiming.specs.Promises.{MayAdmit, FlagsAdd, ClaimsAdd};

use checking::State;
use lists::Registration;
use rules::Refusal;

// Whether add passes all of its checks, top being the greatest of its inputs; then its outputs are flagged as taken. Else storage is as it was.
fn admits_add(waiting: &mut [u64], r: Registration, top: u64, at: State) -> bool
    requires { MayAdmit waiting.old r.inputs.now top at.v at.used at.room }
    ensures { FlagsAdd waiting.old r.entry.lane r.entry.inputs.now r.entry.outputs.now at.closed at.v at.added at.used at.room result waiting.new }
{
    add_checks::fits(r, at) && top < at.v as u64 && taken::claim_new(r.outputs, waiting, at.v)
}

// add: 7, 18, 3, 4, 5, 6, 8, 9, 10.
pub fn claim_add(waiting: &mut [u64], r: Registration, top: u64, at: State) -> Result<(), Refusal>
    requires { MayAdmit waiting.old r.inputs.now top at.v at.used at.room }
    ensures { ClaimsAdd waiting.old r.entry.lane r.entry.inputs.now r.entry.outputs.now at.closed at.v at.added at.used at.room (number result) waiting.new }
{
    if admits_add(waiting, r, top, at) {
        return Ok(());
    }
    add_checks::check_add(waiting, r, at)
}
