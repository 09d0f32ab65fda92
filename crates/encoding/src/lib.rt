// Calls encoded as numbers: where a call of a list ends, how many calls there are, and a set or an add put down as numbers.
#![tactic(auto)]

ghost use Rattle.std.specs.Prelude.{◌≡◌, ◌+◌, ◌≤◌, ◌<◌, length, take, drop, is_some, unwrap_or, IfSome};
ghost use Rattle.std.proofs.Math.Option.{none};
ghost use Rattle.rules.specs.Calls.{set as set_call, add as add_call};
ghost use Rattle.rules.specs.Encoding.{front, counted};
ghost use Rattle.encoding.specs.Ends.{ListEnds, AddEnds, Ends, Counts};
ghost use Rattle.encoding.specs.Put.{before_inputs, Put};

// The tags that calls begin with: numbers, since they stand in the caller's list (the C interface).
pub const SET: u64 = 1;

pub const ADD: u64 = 2;

pub const FLUSH: u64 = 3;

pub const FINAL: u64 = 4;

// An add whose lane stands between the tag and its lists; `ADD` is one with lane 0.
pub const LANE_ADD: u64 = 5;

// The index past the counted list that starts at `at`, if there is one.
pub fn list_end(calls: &[u64], at: usize) -> Option<usize>
    ensures ends { ListEnds calls.now at (unwrap_or result 0) }
    ensures past { IfSome result (λ r. at < r) }
{
    let n = *calls.get(at)? as usize;
    if calls.len() - at <= n {
        return None;
    }
    Some(at + 1 + n)
}

// The index past the counted list that starts at `at`, where there is one: no test is made of that.
pub fn past_list(calls: &[u64], at: usize) -> usize
    requires { counted (drop at calls.now) ≡ none → ⊥ }
    ensures { ListEnds calls.now at result }
{
    at + 1 + calls[at] as usize
}

// The index past the two counted lists that start at `at`, if they are there.
fn add_end(calls: &[u64], at: usize) -> Option<usize>
    ensures ends { AddEnds calls.now at (unwrap_or result 0) }
    ensures past { IfSome result (λ r. at < r) }
{
    let middle = list_end(calls, at)?;
    list_end(calls, middle)
}

// The index past the call that starts at `at`, if the numbers there are one.
pub fn call_end(calls: &[u64], at: usize) -> Option<usize>
    requires { at < length calls.now }
    ensures ends { Ends (front (drop at calls.now)) calls.now at (unwrap_or result 0) }
    ensures past { IfSome result (λ r. at < r) }
{
    match calls[at] {
        ADD => add_end(calls, at + 1),
        FLUSH | FINAL => Some(at + 1),
        SET if at + 1 < calls.len() => Some(at + 2),
        LANE_ADD => add_end(calls, at + 2),
        _ => None,
    }
}

// How many calls the numbers are, if they are a list of calls.
pub fn count_calls(calls: &[u64]) -> Option<usize>
    ensures { Counts calls.now (is_some result) (unwrap_or result 0) }
{
    let mut at = 0;
    let mut n = 0;
    while at < calls.len() {
        at = call_end(calls, at)?;
        n += 1;
    }
    Some(n)
}

// How many numbers stand before the inputs of an add whose lane is told: its tag, the lane, the count of inputs.
pub const BEFORE_INPUTS: usize = 3;

// Puts a set of place x at the start of `into`; how many numbers it takes.
pub fn put_set(into: &mut [u64], x: u64) -> usize
    requires { 2 ≤ length into.old }
    ensures put { Put (set_call x) into.old into.new result }
    ensures takes { result ≡ 2 }
{
    into[0] = SET;
    into[1] = x;
    2
}

// Puts the rest of an add around its lists, which stand in `into`: the inputs from BEFORE_INPUTS on, one number left free, the outputs.
// How many numbers it takes.
pub fn put_add(into: &mut [u64], lane: u64, inputs: usize, outputs: usize) -> usize
    requires { inputs + outputs + 4 ≤ length into.old }
    ensures put { Put (add_call lane (take inputs (drop before_inputs into.old)) (take outputs (drop (inputs + 4) into.old)))
        into.old into.new result }
    ensures takes { result ≡ inputs + outputs + 4 }
{
    let middle = BEFORE_INPUTS + inputs;
    into[0] = LANE_ADD;
    into[1] = lane;
    into[2] = inputs as u64;
    into[middle] = outputs as u64;
    middle + 1 + outputs
}
