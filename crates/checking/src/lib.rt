// The checks of set, flush and final, in document 01's order: each function gives the refusal of the first that fails and changes nothing.
// Those of add are in add_checks.
#![tactic(auto)]

ghost use Rattle.std.specs.Prelude.{◌≡◌, ◌≤◌, length};
ghost use Rattle.rules.specs.Answer.{number};
ghost use Rattle.rules.specs.Checks.{verdict, waiting_needed};
ghost use Rattle.checking.specs.Parts.{ChecksSet, flush_checks, final_checks};

use rules::Refusal;

// What the checks of add look at of a session: of its `v` places' registrations `added` are accepted, of its pool's `room` numbers `used` are taken.
#[derive(Clone, Copy)]
pub struct State {
    pub closed: bool,
    pub v: usize,
    pub added: usize,
    pub used: usize,
    pub room: usize,
}

// set: 7, 4, 5, 8.
pub fn check_set(waiting: &[u64], closed: bool, v: usize, x: u64) -> Result<(), Refusal>
    requires { waiting_needed v ≤ length waiting.now }
    ensures { ChecksSet waiting.now closed v x (number result) }
{
    if closed {
        return Err(Refusal::Closed);
    }
    if rules::LEAST_FLAGGED <= x {
        return Err(Refusal::FlaggedPlace);
    }
    if v as u64 <= x {
        return Err(Refusal::UnknownPlace);
    }
    if taken::is_taken(waiting, v, x as usize) {
        return Err(Refusal::TakenPlace);
    }
    Ok(())
}

// flush: 7, 11.
pub fn check_flush(closed: bool, flushes: u32) -> Result<(), Refusal>
    ensures { number result ≡ verdict (flush_checks closed flushes) }
{
    if closed {
        return Err(Refusal::Closed);
    }
    if rules::MOST_FLUSHES <= flushes {
        return Err(Refusal::TooManyFlushes);
    }
    Ok(())
}

// final: 7, 12.
pub fn check_final(closed: bool, delayed: u32) -> Result<(), Refusal>
    ensures { number result ≡ verdict (final_checks closed delayed) }
{
    if closed {
        return Err(Refusal::Closed);
    }
    if 0 < delayed {
        return Err(Refusal::StillWaiting);
    }
    Ok(())
}
