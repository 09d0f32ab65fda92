// One turn of a job: its next call is read and made.
#![tactic(auto)]

ghost use Rattle.std.specs.Prelude.{◌+◌, ◌*◌, ◌≤◌, ◌<◌, ◌^◌, length, drop};
ghost use Rattle.rules.specs.Answer.{number};
ghost use Rattle.encoding.specs.Put.{before_inputs};
ghost use Rattle.session.specs.After.{session_after};
ghost use Rattle.session.specs.Slices.{contents, SameSlices};
ghost use Rattle.admitting.specs.Promise.{Asks};
ghost use Rattle.call_runs.specs.Continuing.{OneCall};
ghost use Rattle.jobcalls.specs.Next.{told_next};
ghost use Rattle.jobcalls.specs.Told.{taken_by, NextCall};
ghost use Rattle.jobturn.specs.Steps.{step_as};
ghost use Rattle.jobturn.specs.Turned.{AfterFinal, FinalMade, MayTurn, Turned};
ghost use Rattle.jobturn.specs.Putting.{Puts, Makes};

use jobcalls::{Call, Malformed, Next, Rejection};
use rules::Refusal;
use session::{Session, Storage};

// Reads the call at `at`, whose first line is `line`; the lists of an add go where they stand in an encoded one.
fn read_call(job: &[u8], at: usize, line: u64, into: &mut [u64]) -> Result<Next, Malformed>
    requires { (at ≤ length job.now) × ((length job.now + 8 ≤ 2 * length into.old) × (line ≤ 4294967296)) }
    ensures { NextCall job.now at line (drop before_inputs into.old) (drop before_inputs into.new) (told_next result) }
{
    let from = encoding::BEFORE_INPUTS;
    jobcalls::next_call(job, at, line, &mut into[from..])
}

// Puts a set or an add down as numbers, at the start of `into`; how many they are, 0 for a flush. That no numbers are a flush stays: `Puts`
// and `Makes` (specs/Putting) say it so.
fn put(into: &mut [u64], call: Call) -> usize
    requires { before_inputs + taken_by call ≤ length into.old }
    ensures { Puts call into.old into.new result }
{
    match call {
        Call::Set { place } => encoding::put_set(into, place),
        Call::Add {
            lane,
            inputs,
            outputs,
        } => encoding::put_add(into, lane, inputs, outputs),
        Call::Flush => 0,
    }
}

// Makes the set or add that the numbers are, or where there are none a flush.
fn make(s: Session, storage: &mut Storage, calls: &[u64]) -> Result<Session, Refusal>
    requires asks { Asks s (contents storage.old) }
    requires one { 0 < length calls.now → OneCall calls.now }
    ensures made { Makes calls.now (number result) s (session_after s result) (contents storage.old) (contents storage.new) }
    ensures same { SameSlices storage.old storage.new }
{
    if calls.is_empty() {
        return sorter::flush(s, storage);
    }
    call_runs::make_one(s, storage, calls)
}

// The numbers of a finished job that the head of its listing is made from: P, the order's length, the places that final fixed and the
// median of its summary. They stay numbers of their own, and no session: `FiguresOf` and what is above it speak of these four.
#[derive(Clone, Copy)]
pub struct EndFigures {
    pub parallelism: u32,
    pub written: u32,
    pub places: u32,
    pub median: u32,
}

// What follows a call that is not refused: the place and the line of the next one, or the end of a job whose final was accepted.
#[derive(Clone, Copy)]
pub enum Step {
    On { next: usize, line: u64 },
    Finished { figures: EndFigures },
}

// What follows a call, or how it is refused, with the session after it.
#[derive(Clone, Copy)]
pub struct Turn {
    pub step: Result<Step, Rejection>,
    pub session: Session,
}

// After an accepted final on `line`, where the job has `length` bytes and final's line ends before `next`: nothing may follow it.
fn after_final(
    line: u64,
    next: usize,
    length: usize,
    figures: EndFigures,
) -> Result<Step, Rejection>
    requires { line + 1 < 2 ^ 64 }
    ensures { AfterFinal 0 line next length figures (step_as result) }
{
    if next != length {
        return Err(Malformed { line: line + 1 }.into());
    }
    Ok(Step::Finished { figures })
}

// Makes final, which stands on `line` and ends before `next` in a job of `length` bytes.
fn make_final(s: Session, storage: &mut Storage, line: u64, next: usize, length: usize) -> Turn
    requires asks { Asks s (contents storage.old) }
    requires low { line + 1 < 2 ^ 64 }
    ensures made { FinalMade line next length s (step_as result.step) result.session (contents storage.old) (contents storage.new) }
    ensures same { SameSlices storage.old storage.new }
{
    match sorter::finish(s, storage) {
        Ok(f) => {
            let session = f.session;
            let figures = EndFigures {
                parallelism: session.guide.p,
                written: session.guide.written,
                places: session.places,
                median: f.summary.median,
            };
            let step = after_final(line, next, length, figures);
            Turn { step, session }
        }
        Err(refusal) => Turn {
            step: Err(Rejection { line, refusal }),
            session: s,
        },
    }
}

// Reads the call at `at`, whose first line is `line`, and makes it.
pub fn run_call(
    s: Session,
    storage: &mut Storage,
    into: &mut [u64],
    job: &[u8],
    at: usize,
    line: u64,
) -> Turn
    requires { MayTurn s (contents storage.old) job.now (length into.old) at line }
    ensures turned { Turned job.now at line s (step_as result.step) result.session (contents storage.old) (contents storage.new) into.old into.new }
    ensures same { SameSlices storage.old storage.new }
{
    match read_call(job, at, line, into) {
        Ok(Next::Call { call, line, next }) => {
            let numbers = put(into, call);
            match make(s, storage, &into[..numbers]) {
                Ok(session) => {
                    let line = line + 1;
                    let step = Ok(Step::On { next, line });
                    Turn { step, session }
                }
                Err(refusal) => {
                    let step = Err(Rejection { line, refusal });
                    Turn { step, session: s }
                }
            }
        }
        Ok(Next::Final { line, next }) => make_final(s, storage, line, next, job.len()),
        Err(e) => Turn {
            step: Err(e.into()),
            session: s,
        },
    }
}
