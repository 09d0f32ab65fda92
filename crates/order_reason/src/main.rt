// The program: a job on standard input and the number of a registration as its one argument; on standard output, why that registration waits
// where the job stopped, or a refusal. Other arguments, and a read or a write that fails, are said on standard error; where they cannot be said
// there either, nothing is left to say it.
#![tactic(auto)]

use std::env::{Env, FillError};
use std::io::Write;

// The most digits of a number of 64 bits.
const MOST_DIGITS: usize = 20;

// Prints why registration r waits. One byte more than a job may have is read, so that a longer one is known.
fn print_reason(rt: &HostRuntime, r: u64) {
    let mut job = [0u8; rules::MOST_JOB_BYTES + 1];
    let Ok(n) = job_input::read_job(&mut rt.stdin(), &mut job) else {
        let _ = eprintln!(rt; "order_reason: the job on standard input cannot be read");
        return;
    };
    let mut out = [0u8; job_reason::ANSWER_BYTES];
    let m = job_reason::answer(&job[..n], r, &mut out);
    if rt.stdout().write_all(&out[..m]).is_err() {
        let _ = eprintln!(rt;
            "order_reason: the answer cannot be written whole to standard output"
        );
    }
}

// Whether there is an argument i; one that is longer than the room is there too.
fn has_argument(rt: &HostRuntime, i: usize) -> bool {
    let mut text = [0u8; MOST_DIGITS];
    !matches!(rt.arg(i, &mut text), Err(FillError::NotPresent))
}

// The program's own name is argument 0. One that is empty or too long is read as no bytes, which are no number.
fn main(rt: HostRuntime) {
    if !has_argument(&rt, 1) {
        let _ = eprintln!(rt; "order_reason: the number of a registration is missing");
        return;
    }
    if has_argument(&rt, 2) {
        let _ = eprintln!(rt; "order_reason: there is more than one argument");
        return;
    }
    let mut text = [0u8; MOST_DIGITS];
    let n = rt.arg(1, &mut text).unwrap_or(0);
    let Some(r) = jobtext::read_number(&text[..n]) else {
        let _ = eprintln!(rt; "order_reason: the argument is no number of a registration");
        return;
    };
    print_reason(&rt, r);
}
