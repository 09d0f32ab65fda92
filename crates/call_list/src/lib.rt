// A list of calls, encoded as numbers, made on a fresh session: the claim about every list of calls, as a function that runs.
#![tactic(auto)]

ghost use Rattle.std.specs.Prelude.{◌≡◌, true, ◌+◌, ◌<◌, get_or};
ghost use Rattle.rules.specs.Answer.{number};
ghost use Rattle.session.specs.Slices.{contents, SameSlices};
ghost use Rattle.session.specs.After.{session_after};
ghost use Rattle.admitting.specs.Promise.{Asks};
ghost use Rattle.call_runs.specs.Made.{ends_run, Made, Readable};
ghost use Rattle.call_list.specs.Replay.{opened, Replays};
ghost use Rattle.call_list.specs.Running.{MayPass, Passes, MayRun, Runs};

use call_runs::Run;
use rules::Refusal;
use session::{Session, Storage};

// Makes the flush or final that starts at `at`.
fn make_end(s: Session, storage: &mut Storage, calls: &[u64], at: usize) -> Result<Session, Refusal>
    requires asks { Asks s (contents storage.old) }
    requires readable { (Readable calls.now at) × (ends_run (get_or calls.now at 0) ≡ true) }
    ensures made { Made calls.now at (number result) (at + 1) s (session_after s result) (contents storage.old) (contents storage.new) }
    ensures same { SameSlices storage.old storage.new }
{
    if calls[at] == encoding::FLUSH {
        return sorter::flush(s, storage);
    }
    sorter::close(s, storage)
}

// Makes the flush or final at `at` and the sets and adds after it, up to the next, and stores each one's number; `done` calls were made
// before.
fn run_past(
    s: Session,
    storage: &mut Storage,
    answers: &mut [u64],
    calls: &[u64],
    at: usize,
    done: usize,
) -> Run
    requires { MayPass calls.now s (contents storage.old) answers.old at done }
    ensures passes { Passes calls.now s (contents storage.old) answers.old at done
        result.session (contents storage.new) answers.new result.at result.made }
    ensures same { SameSlices storage.old storage.new }
{
    let d = make_end(s, storage, calls, at);
    answers[done] = rules::number(&d);
    call_runs::run_open(d.unwrap_or(s), storage, answers, calls, at + 1, done + 1)
}

// Makes all calls, and stores each one's number.
fn run_calls(s: Session, storage: &mut Storage, answers: &mut [u64], calls: &[u64]) -> Session
    requires { MayRun calls.now s (contents storage.old) answers.old }
    ensures runs { Runs calls.now s (contents storage.old) answers.old result (contents storage.new) answers.new }
    ensures same { SameSlices storage.old storage.new }
{
    let mut r = call_runs::run_open(s, storage, answers, calls, 0, 0);
    while r.at < calls.len() {
        r = run_past(r.session, storage, answers, calls, r.at, r.made);
    }
    r.session
}

// Opens a session of parallelism p and v places on the storage and makes the encoded calls, storing each one's number in `answers`.
// Refused, nothing is written.
pub fn replay(
    storage: &mut Storage,
    answers: &mut [u64],
    calls: &[u64],
    p: u64,
    v: u64,
) -> Result<Session, Refusal>
    ensures replays { Replays p v calls.now (number result) (opened result) (contents storage.old) (contents storage.new) answers.old answers.new }
    ensures same { SameSlices storage.old storage.new }
{
    let count = encoding::count_calls(calls).ok_or(Refusal::Malformed)?;
    opening::check_open(storage, p, v)?;
    if answers.len() < count {
        return Err(Refusal::TooShort);
    }
    let s = opening::begin(storage, p, v);
    Ok(run_calls(s, storage, answers, calls))
}
