// The sets and adds of an encoded list, made one after another on a session, up to the first flush or final.
#![tactic(auto)]

ghost use Rattle.std.specs.Prelude.{◌≡◌, false, get_or};
ghost use Rattle.rules.specs.Answer.{number};
ghost use Rattle.rules.specs.Encoding.{set_tag};
ghost use Rattle.session.specs.Slices.{contents, SameSlices};
ghost use Rattle.session.specs.After.{session_after};
ghost use Rattle.call_runs.specs.Made.{ends_run, Readable, AddAt, AsksCall, AdmitsCall};
ghost use Rattle.admitting.specs.Promise.{Asks};
ghost use Rattle.admitting.specs.Told.{told};
ghost use Rattle.call_runs.specs.Continuing.{MayContinue, Continues, OneCall, MadeOne};
ghost use Rattle.call_runs.specs.Naming.{Names};

use admitting::Admitted;
use lists::Registration;
use rules::Refusal;
use session::{Session, Storage};

// A set or an add admitted or refused, and the index past it.
#[derive(Clone, Copy)]
pub struct Admission {
    pub admitted: Result<Admitted, Refusal>,
    pub next: usize,
}

// The session after some calls, the index past them, and how many they are.
#[derive(Clone, Copy)]
pub struct Run {
    pub session: Session,
    pub at: usize,
    pub made: usize,
}

// Whether a tag ends a run of sets and adds: their tags are the lowest, but for that of an add with a lane.
pub fn ends_run(tag: u64) -> bool
    ensures { result ≡ ends_run tag }
{
    if tag == encoding::LANE_ADD {
        return false;
    }
    encoding::ADD < tag
}

// An add's lane, and where its lists start.
#[derive(Clone, Copy)]
pub struct AddStart {
    pub lane: u64,
    pub lists: usize,
}

// Those of the add that starts at `at`: after its tag come its lists, or its lane and then they.
pub fn add_start(calls: &[u64], at: usize) -> AddStart
    requires { (Readable calls.now at) × (ends_run (get_or calls.now at 0) ≡ false) × (get_or calls.now at 0 ≡ set_tag → ⊥) }
    ensures { AddAt calls.now at result.lane result.lists }
{
    if calls[at] == encoding::LANE_ADD {
        return AddStart {
            lane: calls[at + 1],
            lists: at + 2,
        };
    }
    AddStart {
        lane: 0,
        lists: at + 1,
    }
}

// Reads the set or add that starts at `at` and admits it: after a set's tag comes its place; an add's inputs and outputs are lists with
// their counts before them.
fn admit_call(
    s: Session,
    marks: &mut [u16],
    waiting: &mut [u64],
    pool: &mut [u32],
    calls: &[u64],
    at: usize,
) -> Admission
    requires asks_call { AsksCall s marks.old waiting.old pool.old }
    requires readable { (Readable calls.now at) × (ends_run (get_or calls.now at 0) ≡ false) }
    ensures { AdmitsCall calls.now at (told s result.admitted) result.next s marks.old waiting.old pool.old
        marks.new waiting.new pool.new }
{
    if calls[at] == encoding::SET {
        let x = calls[at + 1];
        return Admission {
            admitted: admitting::admit_set(s, marks, waiting, x),
            next: at + 2,
        };
    }
    let d = add_start(calls, at);
    let middle = encoding::past_list(calls, d.lists);
    let next = encoding::past_list(calls, middle);
    let r = Registration {
        inputs: &calls[d.lists + 1..middle],
        outputs: &calls[middle + 1..next],
        lane: d.lane,
    };
    Admission {
        admitted: admitting::admit_add(s, waiting, pool, r),
        next,
    }
}

// Makes the sets and adds from `from` on, up to the first flush or final, and stores each one's number; `done` calls were made before.
// What a call sets off is placed here, on the loop's own session, which a function for it would copy. Calls differ in length, so that no
// iterator goes from one to the next.
pub fn run_open(
    s: Session,
    storage: &mut Storage,
    answers: &mut [u64],
    calls: &[u64],
    from: usize,
    done: usize,
) -> Run
    requires { MayContinue calls.now s (contents storage.old) answers.old from done }
    ensures continues { Continues calls.now s (contents storage.old) answers.old from done
        result.session (contents storage.new) answers.new result.at result.made }
    ensures same { SameSlices storage.old storage.new }
{
    let mut z = s;
    let mut at = from;
    let mut n = done;
    while at < calls.len() {
        if ends_run(calls[at]) {
            break;
        }
        let d = admit_call(z, storage.marks, storage.waiting, storage.pool, calls, at);
        answers[n] = rules::number(&d.admitted);
        if let Ok(a) = d.admitted {
            let c = z.added;
            z.watermark = a.watermark;
            z.added = a.added;
            z.used = a.used;
            z.delayed = a.delayed;
            let mut t = a.top;
            while t != 0 {
                let e = session::place_next(z, storage, t, c);
                z = e.session;
                t = e.top;
            }
            session::note_latest(storage.rows, c, a.added, z.guide.written);
        }
        at = d.next;
        n += 1;
    }
    Run {
        session: z,
        at,
        made: n,
    }
}

// The refusal that has this number, where one has it.
fn refusal(number: u64) -> Option<Refusal>
    ensures { Names number result }
{
    match number {
        1 => Some(Refusal::OutOfRange),
        2 => Some(Refusal::TooShort),
        3 => Some(Refusal::TooManyNumbers),
        4 => Some(Refusal::FlaggedPlace),
        5 => Some(Refusal::UnknownPlace),
        6 => Some(Refusal::RepeatedOutput),
        7 => Some(Refusal::Closed),
        8 => Some(Refusal::TakenPlace),
        9 => Some(Refusal::TooManyRegistrations),
        10 => Some(Refusal::FullPool),
        11 => Some(Refusal::TooManyFlushes),
        12 => Some(Refusal::StillWaiting),
        13 => Some(Refusal::NotHeld),
        14 => Some(Refusal::GuideExhausted),
        15 => Some(Refusal::Malformed),
        16 => Some(Refusal::LongJob),
        17 => Some(Refusal::LongListing),
        18 => Some(Refusal::UnknownLane),
        19 => Some(Refusal::NeverAccepted),
        20 => Some(Refusal::NotWaiting),
        21 => Some(Refusal::ProfileBreach),
        _ => None,
    }
}

// Makes the one set or add that the numbers are, by the loop over them: its number is the one answer.
pub fn make_one(s: Session, storage: &mut Storage, calls: &[u64]) -> Result<Session, Refusal>
    requires { (Asks s (contents storage.old)) × (OneCall calls.now) }
    ensures made { MadeOne calls.now (number result) s (session_after s result) (contents storage.old) (contents storage.new) }
    ensures same { SameSlices storage.old storage.new }
{
    let mut answers = [0u64; 1];
    let r = run_open(s, storage, &mut answers, calls, 0, 0);
    match refusal(answers[0]) {
        Some(e) => Err(e),
        None => Ok(r.session),
    }
}
