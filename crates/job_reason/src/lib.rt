// Why a registration waits after a job: the job is run, on storage of its own like job_reply's, and its session asked where it stopped.
#![tactic(auto)]

ghost use Rattle.std.specs.Prelude.{◌≡◌, ◌≤◌, length};
ghost use Rattle.rules.specs.Reason.{stopped, reason_lines};
ghost use Rattle.writer.specs.Wrote.{Wrote};
ghost use Rattle.jobturn.specs.Ends.{end_as};
ghost use Rattle.explaining.specs.Explaining.{told, explained_as, Small};
ghost use Rattle.job_reason.specs.JobReason.{job_told};
ghost use Rattle.job_reason.specs.Explains.{ExplainsJob, Ended as HasEnded, ExplainsEnd, answer_bytes, Answered};

use explaining::Reason;
use job::{Arrays, Ended};
use jobcalls::Rejection;
use rules::Refusal;
use writer::Writer;

// The answer for registration r of a job that ended so, over the waiting storage and the pool. The session is asked where the job is finished,
// or refused because a registration waits.
fn explain_end(
    ended: Ended,
    waiting: &[u64],
    pool: &[u32],
    r: u64,
) -> Result<Result<Reason, Refusal>, Rejection>
    requires { HasEnded (end_as ended.end) ended.session waiting.now pool.now }
    ensures { ExplainsEnd (end_as ended.end) ended.session waiting.now pool.now r (job_told result) }
{
    if let Err(e) = ended.end {
        if e.refusal != Refusal::StillWaiting {
            return Err(e);
        }
    }
    Ok(explaining::explain(ended.session, waiting, pool, r))
}

// Why registration r waits after a job: what its session answers, or the line and the number of the job's refusal.
pub fn explain_job(job: &[u8], r: u64) -> Result<Result<Reason, Refusal>, Rejection>
    ensures { ExplainsJob job.now r (job_told result) }
{
    let mut arrays = Arrays::new();
    let ended = arrays.run(job);
    explain_end(ended, &arrays.waiting, &arrays.pool, r)
}

// Bytes that suffice for what the program prints.
pub const ANSWER_BYTES: usize = 64;

// What is printed of a session's answer.
fn put_reason(out: &mut [u8], reason: Result<Reason, Refusal>) -> usize
    requires { (Small (told reason)) × (answer_bytes ≤ length out.old) }
    ensures { Wrote out.old out.new 0 result (reason_lines (stopped (explained_as (told reason)))) }
{
    let mut w = Writer { out, at: 0 };
    match reason {
        Ok(x) => {
            w.line(b"status=", 0);
            w.line(b"input=", x.input);
            w.line(b"place=", x.place);
            w.at
        }
        Err(e) => {
            w.line(b"status=", e.into());
            w.at
        }
    }
}

// What the program prints for a job and registration r stands at the start of `out`; its length is returned, and what stands past it is left.
pub fn answer(job: &[u8], r: u64, out: &mut [u8]) -> usize
    requires { length out.old ≡ answer_bytes }
    ensures { Answered job.now r out.old out.new result }
{
    match explain_job(job, r) {
        Ok(reason) => put_reason(out, reason),
        Err(e) => listing::put_rejection(out, e.line, e.refusal.into()),
    }
}
