// A list of calls, encoded as numbers, made on a fresh session under the ascending profile: the claim about every such list, as a function
// that runs.
#![tactic(auto)]

ghost use Rattle.std.specs.Prelude.{◌≡◌, true, false, ◌+◌, ◌<◌, length, get_or};
ghost use Rattle.rules.specs.Answer.{number};
ghost use Rattle.call_runs.specs.Made.{ends_run, Readable};
ghost use Rattle.ascending_session.specs.Slices.{contents, SameSlices};
ghost use Rattle.ascending_session.specs.After.{session_after};
ghost use Rattle.ascending_session.specs.Promise.{Asks};
ghost use Rattle.ascending_list.specs.Made.{told, AsksCall, AdmitsSet, AdmitsAdd, Left, AdmitsCall, Made};
ghost use Rattle.ascending_list.specs.Progress.{Going, Leads, Continues};
ghost use Rattle.ascending_list.specs.Running.{MayRun, Runs};
ghost use Rattle.ascending_list.specs.Replay.{opened, Replays};

use ascending_session::{Ascending, Storage};
use checking::State;
use lists::Registration;
use rules::Refusal;

// A set, or an add with its registration, accepted or refused, and where the next call starts. The registration is not placed yet.
#[derive(Clone, Copy)]
pub struct Admission<'a> {
    pub admitted: Result<Option<Registration<'a>>, Refusal>,
    pub next: usize,
}

// The session after some calls, the index past them, and how many they are.
#[derive(Clone, Copy)]
pub struct Run {
    pub session: Ascending,
    pub at: usize,
    pub made: usize,
}

// A set of place x. Accepted, the place, which is the lowest one, is marked.
fn admit_set(s: Ascending, marks: &mut [u16], x: u64) -> Result<(), Refusal>
    requires { AsksCall s marks.old }
    ensures { AdmitsSet x (number result) s marks.old marks.new }
{
    ascending_checks::check_set(s.closed, s.guide.v as usize, s.lowest, x)?;
    tracking::set_mark(marks, s.lowest);
    Ok(())
}

// The registration r of an add, to be placed where the add is accepted. The marks are as they were.
fn admit_add<'a>(
    s: Ascending,
    marks: &mut [u16],
    r: Registration<'a>,
) -> Result<Option<Registration<'a>>, Refusal>
    requires { AsksCall s marks.old }
    ensures numbers { AdmitsAdd r.entry.lane r.entry.inputs.now r.entry.outputs.now (number result) s marks.old }
    ensures same { marks.new ≡ marks.old }
    ensures left { Left r.entry.lane r.entry.inputs.now r.entry.outputs.now result }
{
    let at = State {
        closed: s.closed,
        v: s.guide.v as usize,
        added: s.added as usize,
        used: s.used,
        room: s.room,
    };
    ascending_checks::check_add(marks, r, s.lowest, at)?;
    Ok(Some(r))
}

// Reads the set or add that starts at `at` and checks it. An accepted set is made, but that the lowest place moves.
fn admit_call<'a>(s: Ascending, marks: &mut [u16], calls: &'a [u64], at: usize) -> Admission<'a>
    requires asks_call { AsksCall s marks.old }
    requires readable { (Readable calls.now at) × (ends_run (get_or calls.now at 0) ≡ false) }
    ensures { AdmitsCall calls.now at (told result.next result.admitted) s marks.old marks.new }
{
    if calls[at] == encoding::SET {
        return Admission {
            admitted: admit_set(s, marks, calls[at + 1]).map(|_| None),
            next: at + 2,
        };
    }
    let d = call_runs::add_start(calls, at);
    let middle = encoding::past_list(calls, d.lists);
    let next = encoding::past_list(calls, middle);
    let r = Registration {
        inputs: &calls[d.lists + 1..middle],
        outputs: &calls[middle + 1..next],
        lane: d.lane,
    };
    Admission {
        admitted: admit_add(s, marks, r),
        next,
    }
}

// Makes the sets and adds from `from` on, up to the first flush or final, and stores each one's number; `done` calls were made before. A
// registration is placed here, on the loop's own session, which a function for it would copy. Calls differ in length, so that no iterator
// goes from one to the next.
fn run_open(
    s: Ascending,
    storage: &mut Storage,
    answers: &mut [u64],
    calls: &[u64],
    from: usize,
    done: usize,
) -> Run
    requires { Going calls.now s (contents storage.old) answers.old from done }
    ensures continues { Continues calls.now s (contents storage.old) answers.old from done
        result.session (contents storage.new) answers.new result.at result.made }
    ensures same { SameSlices storage.old storage.new }
{
    let mut z = s;
    let mut at = from;
    let mut n = done;
    while at < calls.len() {
        if call_runs::ends_run(calls[at]) {
            break;
        }
        let d = admit_call(z, storage.marks, calls, at);
        answers[n] = rules::number(&d.admitted);
        match d.admitted {
            Ok(Some(r)) => {
                z.guide = ascending_adding::place_new(z, storage, r);
                z.lowest += r.outputs.len();
                z.added += 1;
                z.used += r.inputs.len() + r.outputs.len();
            }
            Ok(None) => z.lowest += 1,
            Err(_) => {}
        }
        at = d.next;
        n += 1;
    }
    Run {
        session: z,
        at,
        made: n,
    }
}

// Makes the flush or final that starts at `at`.
fn make_end(
    s: Ascending,
    storage: &mut Storage,
    calls: &[u64],
    at: usize,
) -> Result<Ascending, Refusal>
    requires asks { Asks s (contents storage.old) }
    requires readable { (Readable calls.now at) × (ends_run (get_or calls.now at 0) ≡ true) }
    ensures made { Made calls.now at (number result) (at + 1) s (session_after s result) (contents storage.old) (contents storage.new) }
    ensures same { SameSlices storage.old storage.new }
{
    if calls[at] == encoding::FLUSH {
        return ascending_calls::flush(s, storage);
    }
    ascending_calls::close(s, storage)
}

// Makes the sets and adds from `at` on, and the flush or final behind them, if there is one, and stores each one's number; `done` calls were
// made before. So the loop over sets and adds is called at one place, where it is inlined.
fn run_past(
    s: Ascending,
    storage: &mut Storage,
    answers: &mut [u64],
    calls: &[u64],
    at: usize,
    done: usize,
) -> Run
    requires { (Going calls.now s (contents storage.old) answers.old at done) × (at < length calls.now) }
    ensures leads { Leads calls.now s (contents storage.old) answers.old at done
        result.session (contents storage.new) answers.new result.at result.made }
    ensures same { SameSlices storage.old storage.new }
    ensures at_lt_at { at < result.at }
{
    let r = run_open(s, storage, answers, calls, at, done);
    if calls.len() <= r.at {
        return r;
    }
    let d = make_end(r.session, storage, calls, r.at);
    answers[r.made] = rules::number(&d);
    Run {
        session: d.unwrap_or(r.session),
        at: r.at + 1,
        made: r.made + 1,
    }
}

// Makes all calls, and stores each one's number.
fn run_calls(s: Ascending, storage: &mut Storage, answers: &mut [u64], calls: &[u64]) -> Ascending
    requires { MayRun calls.now s (contents storage.old) answers.old }
    ensures runs { Runs calls.now s (contents storage.old) answers.old result (contents storage.new) answers.new }
    ensures same { SameSlices storage.old storage.new }
{
    let mut r = Run {
        session: s,
        at: 0,
        made: 0,
    };
    while r.at < calls.len() {
        r = run_past(r.session, storage, answers, calls, r.at, r.made);
    }
    r.session
}

// Opens a session of parallelism p, v places and room for w list numbers on the storage, and makes the encoded calls, storing each one's
// number in `answers`. Refused, nothing is written.
pub fn replay(
    storage: &mut Storage,
    answers: &mut [u64],
    calls: &[u64],
    p: u64,
    v: u64,
    w: u64,
) -> Result<Ascending, Refusal>
    ensures replays { Replays p v w calls.now (number result) (opened result) (contents storage.old) (contents storage.new) answers.old answers.new }
    ensures same { SameSlices storage.old storage.new }
{
    let count = encoding::count_calls(calls).ok_or(Refusal::Malformed)?;
    ascending_opening::check_open(storage, p, v)?;
    if answers.len() < count {
        return Err(Refusal::TooShort);
    }
    let s = ascending_opening::begin(storage, p, v, w);
    Ok(run_calls(s, storage, answers, calls))
}
