// The checks of add, in document 01's order: the refusal of the first that fails. Storage is as it was: the flags that are raised to find a
// repeated output are lowered again.
#![tactic(auto)]

ghost use Rattle.std.specs.Prelude.{◌≡◌, ◌++◌, ◌-◌, ◌≤◌, length, leb};
ghost use Rattle.rules.specs.Answer.{number, number_of};
ghost use Rattle.rules.specs.Limits.{least_flagged};
ghost use Rattle.rules.specs.Checks.{verdict, any};
ghost use Rattle.checking.specs.Parts.{place_number, list_checks};
ghost use Rattle.add_checks.specs.Promises.{fits, MayCheck, ChecksState, MayAdd, ChecksAdd};

use checking::State;
use lists::Registration;
use rules::Refusal;

// Whether add passes the checks that look at no place: 7, 18, 3, 9, 10.
pub fn fits(r: Registration, at: State) -> bool
    requires { at.used ≤ at.room }
    ensures { result ≡ fits at.closed r.entry.lane r.entry.inputs.now r.entry.outputs.now at.v at.added (at.room - at.used) }
{
    !at.closed
        && r.lane <= rules::MOST_LANE
        && !lists::too_many(r)
        && at.added < at.v
        && r.inputs.len() + r.outputs.len() <= at.room - at.used
}

// Whether one of the places is at least the bound.
fn any_at_least(r: Registration, bound: u64) -> bool
    ensures { result ≡ any (λ x. leb bound x) (r.entry.inputs.now ++ r.entry.outputs.now) }
{
    lists::any_at_least(r.inputs, bound) || lists::any_at_least(r.outputs, bound)
}

// The refusal of lists of which one has a place of v or more: 4 where a place has bit 62 or 63, else 5.
fn place_refusal(r: Registration) -> Refusal
    ensures { number_of result ≡ place_number r.entry.inputs.now r.entry.outputs.now }
{
    if any_at_least(r, rules::LEAST_FLAGGED) {
        Refusal::FlaggedPlace
    } else {
        Refusal::UnknownPlace
    }
}

// The first checks, which look at the lane and the lists alone: 7, 18, 3, 4, 5. Lists of places below v, which is small, pass 4 and 5.
pub fn check_lists(r: Registration, closed: bool, v: usize) -> Result<(), Refusal>
    requires { v ≤ least_flagged }
    ensures { number result ≡ verdict (list_checks closed v r.entry.lane r.entry.inputs.now r.entry.outputs.now) }
{
    if closed {
        return Err(Refusal::Closed);
    }
    if r.lane > rules::MOST_LANE {
        return Err(Refusal::UnknownLane);
    }
    if lists::too_many(r) {
        return Err(Refusal::TooManyNumbers);
    }
    if any_at_least(r, v as u64) {
        return Err(place_refusal(r));
    }
    Ok(())
}

// The later checks: 6, 8, 9, 10.
fn check_state(waiting: &mut [u64], r: Registration, at: State) -> Result<(), Refusal>
    requires { MayCheck waiting.old r.outputs.now at.v at.used (length r.inputs.now) at.room }
    ensures { ChecksState waiting.old r.entry.outputs.now at.v at.added at.used (length r.entry.inputs.now) at.room (number result) waiting.new }
{
    if taken::repeats(r.outputs, waiting, at.v) {
        return Err(Refusal::RepeatedOutput);
    }
    if taken::any_taken(r.outputs, waiting, at.v) {
        return Err(Refusal::TakenPlace);
    }
    if at.v <= at.added {
        return Err(Refusal::TooManyRegistrations);
    }
    if at.room - at.used < r.inputs.len() + r.outputs.len() {
        return Err(Refusal::FullPool);
    }
    Ok(())
}

// add: 7, 18, 3, 4, 5, 6, 8, 9, 10.
pub fn check_add(waiting: &mut [u64], r: Registration, at: State) -> Result<(), Refusal>
    requires { MayAdd waiting.old at.v at.used at.room }
    ensures { ChecksAdd waiting.old r.entry.lane r.entry.inputs.now r.entry.outputs.now at.closed at.v at.added at.used at.room (number result) waiting.new }
{
    check_lists(r, at.closed, at.v)?;
    check_state(waiting, r, at)
}
