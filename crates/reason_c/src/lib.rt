// The exported calls of crate reason, by their C names.
#![tactic(auto)]

ghost use Rattle.session.specs.Storage.{across};
ghost use Rattle.reason.specs.Exported.{ReplayReason, OrderReason};

// Opens a session of parallelism p and v places on the storage and makes the encoded calls, storing each one's number in `answers`, as
// `replay_calls` does. Returns why registration r then waits; or the number of a refusal: 15, 1 and 2 of `replay_calls`, and then nothing
// was written; 19 where r was never accepted, 20 where it does not wait.
#[unsafe(no_mangle)]
pub extern "C" fn replay_reason(
    spans: &mut [u32],
    order: &mut [u32],
    tally: &mut [u32],
    rows: &mut [u32],
    marks: &mut [u16],
    locations: &mut [u64],
    waiting: &mut [u64],
    pool: &mut [u32],
    answers: &mut [u64],
    calls: &[u64],
    p: u64,
    v: u64,
    r: u64,
) -> u64
    ensures { across spans order tally rows marks locations waiting pool (λ σ τ. ReplayReason p v calls.now r result σ τ answers.old answers.new) }
{
    reason::replay_reason(
        spans, order, tally, rows, marks, locations, waiting, pool, answers, calls, p, v, r,
    )
}

// Runs a job on storage of its own and returns why registration r waits where it stopped: at a final that was accepted or refused with 12.
// Or the number of a refusal: 19 where r was never accepted, 20 where it does not wait; 64 times the line plus the number where the job is
// refused otherwise.
#[unsafe(no_mangle)]
pub extern "C" fn order_reason(job: &[u8], r: u64) -> u64
    ensures { OrderReason job.now r result }
{
    reason::order_reason(job, r)
}
