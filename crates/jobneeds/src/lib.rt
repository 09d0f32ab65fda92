// What a job needs, read off its lines: registrations, the numbers in their lists and plain flushes. Nothing is run.
#![tactic(auto)]

ghost use Rattle.std.specs.Prelude.{◌≡◌, length};
ghost use Rattle.rules.specs.Needs as rules;
ghost use Rattle.jobneeds.specs.Told.{needs_of, reading_as, Countable, Counts, Few, remains, MayRead};
ghost use Rattle.jobneeds.specs.Layout.{needs_result, needs_after};

use jobcalls::{Call, Next, Rejection};
use rules::Refusal;

// The most spans that placing a registration releases, and those that a flush does.
const SPANS_A_PLACING: u64 = 2;

const SPANS_A_FLUSH: u64 = window::SPANS as u64;

// Registrations, the numbers in all their lists, and plain flushes.
#[derive(Clone, Copy)]
pub struct Needs {
    pub registrations: u64,
    pub pool: u64,
    pub flushes: u64,
}

// The needs with a call more.
fn count(c: Needs, call: Call) -> Needs
    requires { Countable c call }
    ensures { Counts c call result }
{
    match call {
        Call::Set { .. } => c,
        Call::Add {
            inputs,
            outputs,
            ..
        } => {
            let numbers = inputs + outputs;
            Needs {
                registrations: c.registrations + 1,
                pool: c.pool + numbers as u64,
                ..c
            }
        }
        Call::Flush => Needs {
            flushes: c.flushes + 1,
            ..c
        },
    }
}

// Reads the calls from `start` on, which is line 3.
fn read_calls(job: &[u8], start: usize, into: &mut [u64]) -> Result<Needs, Rejection>
    requires { MayRead job.now (length into.old) start }
    ensures { reading_as result ≡ remains job.now start 3 rules.no_needs }
{
    let mut needs = Needs {
        registrations: 0,
        pool: 0,
        flushes: 0,
    };
    let mut at = start;
    let mut line: u64 = 3;
    loop {
        match jobcalls::next_call(job, at, line, into)? {
            Next::Call {
                call,
                line: n,
                next,
            } => {
                needs = count(needs, call);
                at = next;
                line = n + 1;
            }
            Next::Final { line: n, next } => {
                if next == job.len() {
                    return Ok(needs);
                }
                return Err(Rejection {
                    line: n + 1,
                    refusal: Refusal::Malformed,
                });
            }
        }
    }
}

// What a job of any length needs. The lists of one that is not too long have at most half as many numbers as it has bytes, and between those of
// an add one number is left free.
pub fn read_needs(job: &[u8]) -> Result<Needs, Rejection>
    ensures { reading_as result ≡ rules.needs job.now }
{
    if job.len() > rules::MOST_JOB_BYTES {
        return Err(Rejection {
            line: 1,
            refusal: Refusal::LongJob,
        });
    }
    let mut into = [0u64; rules::MOST_JOB_BYTES / 2 + 1];
    let head = jobcalls::read_head(job, &mut into)?;
    read_calls(job, head.next, &mut into)
}

// A ceiling on the spans that running the job releases; final flushes too.
fn most_spans(c: Needs) -> u64
    requires { Few (needs_of c) }
    ensures { result ≡ rules.most_spans (needs_of c) }
{
    SPANS_A_PLACING * c.registrations + SPANS_A_FLUSH * (c.flushes + 1)
}

// What a job needs, for hosts: 0, and in `needs` its registrations, the numbers in their lists, its plain flushes and the most spans that
// running it releases; or for a refusal 64 times the line plus the number, and `needs` untouched.
#[unsafe(no_mangle)]
pub extern "C" fn job_needs(job: &[u8], needs: &mut [u64; 4]) -> u64
    ensures result { result ≡ needs_result (rules.needs job.now) }
    ensures written { needs.new ≡ needs_after (rules.needs job.now) needs.old }
{
    match read_needs(job) {
        Ok(c) => {
            *needs = [c.registrations, c.pool, c.flushes, most_spans(c)];
            0
        }
        Err(e) => rules::REPLY_RADIX * e.line + u64::from(e.refusal),
    }
}
