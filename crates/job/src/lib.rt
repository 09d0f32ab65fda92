// A job run on a session: its head, opening, then call by call to its end.
#![tactic(auto)]

ghost use Rattle.std.specs.Prelude.{◌≡◌, length};
ghost use Rattle.rules.specs.Answer.{number_of};
ghost use Rattle.session.specs.Slices.{contents, SameSlices};
ghost use Rattle.jobturn.specs.Ends.{end_as};
ghost use Rattle.job.specs.Run.{MayRun, Runs, ended_as, unopened_at, Room, Ran};
ghost use Rattle.job.specs.Arrays.{arrays_of};

use jobcalls::{Head, Rejection};
use jobturn::{EndFigures, Step};
use rules::Refusal;
use session::{Session, Storage};

// The most numbers that a call of a job takes: its lists have at most half as many as the job has bytes, and an encoded add has four beside
// them.
pub const CALL_NUMBERS: usize = rules::MOST_JOB_BYTES / 2 + 4;

// The lengths of the other storage that a job is run in.
pub const SPANS: usize = entries::SIZE * window::SPANS * (rules::JOB_PARALLELISM + 1);

pub const ORDER: usize = entries::SIZE * rules::JOB_PLACES;

pub const TALLY: usize = rules::JOB_PARALLELISM + 1;

pub const ROWS: usize = records::SIZE * rules::JOB_PLACES;

pub const WAITING: usize = waiting::SIZE * rules::JOB_PLACES;

// How a job ended, and the session where it stopped; where none was opened, one of parallelism 0 and 0 places.
#[derive(Clone, Copy)]
pub struct Ended {
    pub end: Result<EndFigures, Rejection>,
    pub session: Session,
}

// Runs the calls from `start` on, which is line 3.
fn run_calls(s: Session, storage: &mut Storage, into: &mut [u64], job: &[u8], start: usize) -> Ended
    requires { MayRun s (contents storage.old) job.now (length into.old) start }
    ensures ran { Runs s (contents storage.old) job.now start (end_as result.end) result.session (contents storage.new) into.old into.new }
    ensures same { SameSlices storage.old storage.new }
{
    let mut session = s;
    let mut at = start;
    let mut line = 3;
    loop {
        let t = jobturn::run_call(session, storage, into, job, at, line);
        session = t.session;
        match t.step {
            Ok(Step::On { next, line: n }) => {
                at = next;
                line = n;
            }
            Ok(Step::Finished { figures }) => {
                let end = Ok(figures);
                return Ended { end, session };
            }
            Err(e) => {
                let end = Err(e);
                return Ended { end, session };
            }
        }
    }
}

// A job refused before a session was opened.
fn unopened(e: Rejection) -> Ended
    ensures { ended_as result ≡ unopened_at e.line (number_of e.refusal) }
{
    Ended {
        end: Err(e),
        session: opening::fresh(0, 0),
    }
}

// Runs a job of any length on storage for the greatest P and V and the W of a job (`rules::JOB_PARALLELISM`, `JOB_PLACES`, `JOB_POOL`).
pub fn run(storage: &mut Storage, into: &mut [u64], job: &[u8]) -> Ended
    requires { Room (contents storage.old) (length into.old) }
    ensures ran { Ran job.now (end_as result.end) result.session (contents storage.old) (contents storage.new) into.old into.new }
    ensures same { SameSlices storage.old storage.new }
{
    if job.len() > rules::MOST_JOB_BYTES {
        let refusal = Refusal::LongJob;
        return unopened(Rejection { line: 1, refusal });
    }
    match jobcalls::read_head(job, into) {
        Ok(Head { p, v, next }) => match opening::open(storage, p, v) {
            Ok(s) => run_calls(s, storage, into, job, next),
            Err(refusal) => unopened(Rejection { line: 2, refusal }),
        },
        Err(e) => unopened(e.into()),
    }
}

// The storage of a job for those who have no other, for the greatest P and V and the W of a job, and the numbers of a call. Arrays beside
// each other stay: no heap, fixed memory.
#[derive(Drop)]
pub struct Arrays {
    pub spans: [u32; SPANS],
    pub order: [u32; ORDER],
    pub tally: [u32; TALLY],
    pub rows: [u32; ROWS],
    pub marks: [u16; rules::JOB_PLACES],
    pub locations: [u64; rules::JOB_PLACES],
    pub waiting: [u64; WAITING],
    pub pool: [u32; rules::JOB_POOL],
    pub into: [u64; CALL_NUMBERS],
}

impl Arrays {
    // Arrays as long as a job needs.
    pub fn new() -> Arrays
        ensures { Room (arrays_of result) (length result.into) }
    {
        Arrays {
            spans: [0; SPANS],
            order: [0; ORDER],
            tally: [0; TALLY],
            rows: [0; ROWS],
            marks: [0; rules::JOB_PLACES],
            locations: [0; rules::JOB_PLACES],
            waiting: [0; WAITING],
            pool: [0; rules::JOB_POOL],
            into: [0; CALL_NUMBERS],
        }
    }

    // Runs a job of any length. Its lists have at most half as many numbers as it has bytes.
    pub fn run(&mut self, job: &[u8]) -> Ended
        requires { Room (arrays_of self.old) (length self.old.into) }
        ensures ran { Ran job.now (end_as result.end) result.session (arrays_of self.old) (arrays_of self.new) self.old.into self.new.into }
        ensures room { Room (arrays_of self.new) (length self.new.into) }
    {
        let mut storage = Storage {
            spans: &mut self.spans,
            order: &mut self.order,
            tally: &mut self.tally,
            rows: &mut self.rows,
            marks: &mut self.marks,
            locations: &mut self.locations,
            waiting: &mut self.waiting,
            pool: &mut self.pool,
        };
        run(&mut storage, &mut self.into, job)
    }
}
