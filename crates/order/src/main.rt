// The program: a job on standard input, its listing or its refusal on standard output. A read or a write that fails is said on standard
// error; where it cannot be said there either, nothing is left to say it.
#![tactic(auto)]

use std::io::Write;

// One byte more than a job may have is read, so that a longer one is known.
fn main(rt: HostRuntime) {
    let mut job = [0u8; rules::MOST_JOB_BYTES + 1];
    let Ok(n) = job_input::read_job(&mut rt.stdin(), &mut job) else {
        let _ = eprintln!(rt; "order: the job on standard input cannot be read");
        return;
    };
    let mut out = [0u8; rules::PROGRAM_LISTING_BYTES];
    let m = job_reply::answer(&job[..n], &mut out);
    if rt.stdout().write_all(&out[..m]).is_err() {
        let _ = eprintln!(rt; "order: the answer cannot be written whole to standard output");
    }
}
