// The checks of set and add under the ascending profile, in document 02's order: the refusal of the first that fails. The marks are as they
// were: those that are raised to find a repeated output are lowered again.
#![tactic(auto)]

ghost use Rattle.std.specs.Prelude.{◌≡◌, ◌-◌, ◌≤◌, leb};
ghost use Rattle.rules.specs.Answer.{number};
ghost use Rattle.rules.specs.Limits.{most_places};
ghost use Rattle.rules.specs.Checks.{any};
ghost use Rattle.ascending_checks.specs.Parts.{ChecksSet, MayPass, ascends, passes, MayAdd, ChecksAdd};

use checking::State;
use lists::Registration;
use rules::Refusal;

// set: 7, 4, 5, 21, 8. A place that is the lowest is not taken, so 8 needs no look.
pub fn check_set(closed: bool, v: usize, lowest: usize, x: u64) -> Result<(), Refusal>
    ensures { ChecksSet closed v lowest x (number result) }
{
    if closed {
        return Err(Refusal::Closed);
    }
    if rules::LEAST_FLAGGED <= x {
        return Err(Refusal::FlaggedPlace);
    }
    if v as u64 <= x {
        return Err(Refusal::UnknownPlace);
    }
    if x != lowest as u64 {
        return Err(Refusal::ProfileBreach);
    }
    Ok(())
}

// Whether the places are the lowest one and those that follow it.
fn ascends(outs: &[u64], lowest: usize) -> bool
    requires { lowest ≤ most_places }
    ensures { result ≡ ascends lowest outs.now }
{
    outs.iter()
        .enumerate()
        .all(|(i, &x)| x == (lowest + i) as u64)
}

// Whether one of ins is the lowest place or lies past it.
fn reaches(ins: &[u64], lowest: usize) -> bool
    ensures { result ≡ any (λ i. leb lowest i) ins.now }
{
    lists::any_at_least(ins, lowest as u64)
}

// Whether add passes all of its checks, by one walk over each list: outputs that ascend from the lowest place do not repeat, are not taken
// and end below v where there is room for as many, and inputs below the lowest place are below v.
fn passes(r: Registration, lowest: usize, at: State) -> bool
    requires { MayPass at.v lowest at.used at.room }
    ensures { result ≡ passes at.closed r.entry.lane r.entry.inputs.now r.entry.outputs.now at.v lowest at.added (at.room - at.used) }
{
    add_checks::fits(r, at)
        && lowest + r.outputs.len() <= at.v
        && !reaches(r.inputs, lowest)
        && ascends(r.outputs, lowest)
}

// add, check by check, for the refusal: 7, 18, 3, 4, 5, 6, 21, 9, 10. Behind 21 no output is taken, so 8 needs no look.
fn look(marks: &mut [u16], r: Registration, lowest: usize, at: State) -> Result<(), Refusal>
    requires { MayAdd marks.old at.v lowest at.used at.room }
    ensures { ChecksAdd marks.old r.entry.lane r.entry.inputs.now r.entry.outputs.now at.closed at.v lowest at.added at.used at.room (number result) marks.new }
{
    add_checks::check_lists(r, at.closed, at.v)?;
    if ascending_marks::repeats(marks, r.outputs) {
        return Err(Refusal::RepeatedOutput);
    }
    if !ascends(r.outputs, lowest) || reaches(r.inputs, lowest) {
        return Err(Refusal::ProfileBreach);
    }
    if at.v <= at.added {
        return Err(Refusal::TooManyRegistrations);
    }
    if at.room - at.used < r.inputs.len() + r.outputs.len() {
        return Err(Refusal::FullPool);
    }
    Ok(())
}

// add: 7, 18, 3, 4, 5, 6, 21, 8, 9, 10. Only a refused call is looked at check by check, for its number.
pub fn check_add(
    marks: &mut [u16],
    r: Registration,
    lowest: usize,
    at: State,
) -> Result<(), Refusal>
    requires { MayAdd marks.old at.v lowest at.used at.room }
    ensures { ChecksAdd marks.old r.entry.lane r.entry.inputs.now r.entry.outputs.now at.closed at.v lowest at.added at.used at.room (number result) marks.new }
{
    if passes(r, lowest, at) {
        return Ok(());
    }
    look(marks, r, lowest, at)
}
