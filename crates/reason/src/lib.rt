// Why a registration waits, for hosts, by one number: after an encoded list of calls on a fresh session, and after a job. The slices and the
// numbers for reasons and refusals stay: the C interface.
#![tactic(auto)]

ghost use Rattle.std.specs.Prelude.{◌≡◌};
ghost use Rattle.rules.specs.Answer.{number};
ghost use Rattle.rules.specs.Reason.{reason_number};
ghost use Rattle.session.specs.Slices.{contents};
ghost use Rattle.session.specs.Storage.{across};
ghost use Rattle.explaining.specs.Explaining.{told, explained_as, Small};
ghost use Rattle.call_list.specs.Replay.{opened};
ghost use Rattle.reason.specs.Exported.{ReplayReason, OrderReason};
ghost use Rattle.reason.specs.Telling.{MayTell, Tells};

use explaining::Reason;
use rules::Refusal;
use session::{Session, Storage};

// A reason as one number, 64 · (2^24 · input + place), or the number of a refusal.
fn by_number(x: Result<Reason, Refusal>) -> u64
    requires { Small (told x) }
    ensures { result ≡ reason_number (explained_as (told x)) }
{
    match x {
        Ok(w) => rules::REPLY_RADIX * (rules::PLACE_RADIX * w.input + w.place),
        Err(e) => e.into(),
    }
}

// The number of a replay that was refused, else why registration r of its session waits.
fn number_after(a: Result<Session, Refusal>, storage: &Storage, r: u64) -> u64
    requires { MayTell (number a) (opened a) (contents storage.now).waiting (contents storage.now).pool }
    ensures { Tells (number a) (opened a) (contents storage.now).waiting (contents storage.now).pool r result }
{
    match a {
        Ok(s) => by_number(explaining::explain(s, storage.waiting, storage.pool, r)),
        Err(e) => e.into(),
    }
}

// Opens a session of parallelism p and v places on the storage and makes the encoded calls, storing each one's number in `answers`, as
// `replay_calls` does. Returns why registration r then waits; or the number of a refusal: 15, 1 and 2 of `replay_calls`, and then nothing
// was written; 19 where r was never accepted, 20 where it does not wait.
#[unsafe(no_mangle)]
pub extern "C" fn replay_reason(
    spans: &mut [u32],
    order: &mut [u32],
    tally: &mut [u32],
    rows: &mut [u32],
    marks: &mut [u16],
    locations: &mut [u64],
    waiting: &mut [u64],
    pool: &mut [u32],
    answers: &mut [u64],
    calls: &[u64],
    p: u64,
    v: u64,
    r: u64,
) -> u64
    ensures { across spans order tally rows marks locations waiting pool (λ σ τ. ReplayReason p v calls.now r result σ τ answers.old answers.new) }
{
    let mut storage = Storage {
        spans,
        order,
        tally,
        rows,
        marks,
        locations,
        waiting,
        pool,
    };
    let a = call_list::replay(&mut storage, answers, calls, p, v);
    number_after(a, &storage, r)
}

// Runs a job on storage of its own and returns why registration r waits where it stopped: at a final that was accepted or refused with 12.
// Or the number of a refusal: 19 where r was never accepted, 20 where it does not wait; 64 times the line plus the number where the job is
// refused otherwise.
#[unsafe(no_mangle)]
pub extern "C" fn order_reason(job: &[u8], r: u64) -> u64
    ensures { OrderReason job.now r result }
{
    match job_reason::explain_job(job, r) {
        Ok(reason) => by_number(reason),
        Err(e) => rules::REPLY_RADIX * e.line + u64::from(e.refusal),
    }
}
