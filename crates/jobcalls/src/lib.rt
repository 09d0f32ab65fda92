// The calls of a job, read line by line: the two lines of its head, then one call after another, each from the place after the one before.
#![tactic(auto)]

ghost use Rattle.std.specs.Prelude.{◌+◌, ◌*◌, ◌≡◌, ◌≤◌, length};
ghost use Rattle.jobcalls.specs.Told.{LineAt, AddRead, NextCall, HeadRead};
ghost use Rattle.jobcalls.specs.Next.{told_next};
ghost use Rattle.jobcalls.specs.Head.{told_head};
ghost use Rattle.jobcalls.specs.Rejections.{rejection_of};

use jobline::Line;
use rules::Refusal;

// The line of a job that is missing or malformed.
#[derive(Clone, Copy)]
pub struct Malformed {
    pub line: u64,
}

// The line of a job that is refused, and why.
#[derive(Clone, Copy)]
pub struct Rejection {
    pub line: u64,
    pub refusal: Refusal,
}

impl From<Malformed> for Rejection {
    ghost from_gives = { λ x r. r ≡ rejection_of x };

    fn from(x: Malformed) -> Rejection {
        Rejection {
            line: x.line,
            refusal: Refusal::Malformed,
        }
    }
}

// A line, or none that is well-formed, and the place after it; of a line that nothing ends, the place where it was looked for.
#[derive(Clone, Copy)]
pub struct Got {
    pub line: Option<Line>,
    pub next: usize,
}

// Reads the line at `at`; the numbers of its list go into `into` from `off` on.
pub fn line_at(job: &[u8], at: usize, into: &mut [u64], off: usize) -> Got
    requires { (at ≤ length job.now) × (2 * off + length job.now ≤ 2 * length into.old + at) }
    ensures { LineAt job.now at into.old into.new off result.line result.next }
{
    let end = jobtext::line_end(job, at);
    if end == job.len() {
        return Got {
            line: None,
            next: at,
        };
    }
    Got {
        line: jobline::read_line(&job[at..end], into, off),
        next: end + 1,
    }
}

// A call that others may follow. The numbers of an add's lists stand in storage, the inputs first, the outputs behind them, with one number
// between that is left free, for the outputs' count.
#[derive(Clone, Copy)]
pub enum Call {
    Set {
        place: u64,
    },
    Add {
        lane: u64,
        inputs: usize,
        outputs: usize,
    },
    Flush,
}

// The next call of a job, or final, with the line that it is refused on and the place after it.
#[derive(Clone, Copy)]
pub enum Next {
    Call { call: Call, line: u64, next: usize },
    Final { line: u64, next: usize },
}

// Reads the last line of an add, which is `line`, at `at`. Its lane is known, and its inputs stand at the start of `into`; the number behind
// them is left free.
fn read_outputs(
    job: &[u8],
    at: usize,
    line: u64,
    lane: u64,
    inputs: usize,
    into: &mut [u64],
) -> Result<Next, Malformed>
    requires { (at ≤ length job.now) × ((2 * inputs ≤ at) × (length job.now + 2 ≤ 2 * length into.old)) }
    ensures { AddRead job.now at line lane inputs into.old into.new (told_next result) }
{
    let last = line_at(job, at, into, inputs + 1);
    let Line::Outputs(outputs) = last.line.ok_or(Malformed { line })? else {
        return Err(Malformed { line });
    };
    let call = Call::Add {
        lane,
        inputs,
        outputs,
    };
    let next = last.next;
    Ok(Next::Call { call, line, next })
}

// Reads the call whose first line is `line`, at `at`.
pub fn next_call(job: &[u8], at: usize, line: u64, into: &mut [u64]) -> Result<Next, Malformed>
    requires { (at ≤ length job.now) × ((length job.now + 2 ≤ 2 * length into.old) × (line ≤ 4294967296)) }
    ensures { NextCall job.now at line into.old into.new (told_next result) }
{
    let first = line_at(job, at, into, 0);
    let next = first.next;
    match first.line.ok_or(Malformed { line })? {
        Line::Set(place) => {
            let call = Call::Set { place };
            Ok(Next::Call { call, line, next })
        }
        Line::Lane(lane) => {
            let second = line_at(job, next, into, 0);
            let malformed = Malformed { line: line + 1 };
            let Line::Inputs(inputs) = second.line.ok_or(malformed)? else {
                return Err(malformed);
            };
            read_outputs(job, second.next, line + 2, lane, inputs, into)
        }
        Line::Inputs(inputs) => { read_outputs(job, next, line + 1, 0, inputs, into) }
        Line::Flush => {
            let call = Call::Flush;
            Ok(Next::Call { call, line, next })
        }
        Line::Final => Ok(Next::Final { line, next }),
        _ => Err(Malformed { line }),
    }
}

// P and V, and the place after the head.
#[derive(Clone, Copy)]
pub struct Head {
    pub p: u64,
    pub v: u64,
    pub next: usize,
}

// Reads the two lines of the head.
pub fn read_head(job: &[u8], into: &mut [u64]) -> Result<Head, Malformed>
    requires { length job.now ≤ 2 * length into.old }
    ensures { HeadRead job.now (told_head result) into.old into.new }
{
    let first = line_at(job, 0, into, 0);
    let malformed = Malformed { line: 1 };
    let Line::Parallelism(p) = first.line.ok_or(malformed)? else {
        return Err(malformed);
    };
    let second = line_at(job, first.next, into, 0);
    let malformed = Malformed { line: 2 };
    let Line::Places(v) = second.line.ok_or(malformed)? else {
        return Err(malformed);
    };
    let next = second.next;
    Ok(Head { p, v, next })
}
