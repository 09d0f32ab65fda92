// An encoded list of calls on a fresh session, for hosts: crate call_list's `replay`, by one number. The two calls do the same and differ
// in what they tell of the session. Each takes the storage in eight slices, which is the C interface; beside that they share one call.
#![tactic(auto)]

ghost use Rattle.std.specs.Prelude.{◌≡◌};
ghost use Rattle.rules.specs.Answer.{number};
ghost use Rattle.session.specs.Storage.{across};
ghost use Rattle.replay.specs.Exported.{by_number, written, held, Exported};
ghost use Rattle.replay.specs.Telling.{count_told};

use rules::Refusal;
use session::Storage;

// 64 times a count of the session where a call's number is 0, else that number.
pub fn coded(number: u64, count: u32) -> u64
    ensures { result ≡ by_number number count }
{
    if number == 0 {
        return rules::REPLY_RADIX * (count as u64);
    }
    number
}

// 64 times a count of the session, or the number of a refusal.
pub fn by_number(told: Result<u32, Refusal>) -> u64
    ensures { result ≡ by_number (number told) (count_told told) }
{
    match told {
        Ok(count) => coded(0, count),
        Err(e) => coded(u64::from(e), 0),
    }
}

// Opens a session of parallelism p and v places on the storage and makes the encoded calls, storing each one's number in `answers`.
// Returns 64 times the order's length; or the number of a refusal, and then nothing was written: 15 for numbers that are no list of
// calls; 1, 2 of opening; 2 for too little room for the answers.
#[unsafe(no_mangle)]
pub extern "C" fn replay_calls(
    spans: &mut [u32],
    order: &mut [u32],
    tally: &mut [u32],
    rows: &mut [u32],
    marks: &mut [u16],
    locations: &mut [u64],
    waiting: &mut [u64],
    pool: &mut [u32],
    answers: &mut [u64],
    calls: &[u64],
    p: u64,
    v: u64,
) -> u64
    ensures { across spans order tally rows marks locations waiting pool (λ σ τ. Exported written p v calls.now result σ τ answers.old answers.new) }
{
    let mut storage = Storage {
        spans,
        order,
        tally,
        rows,
        marks,
        locations,
        waiting,
        pool,
    };
    let a = call_list::replay(&mut storage, answers, calls, p, v);
    by_number(a.map(|s| s.guide.written))
}

// The same, and returns 64 times the entries that the window holds after the calls, or the number of a refusal.
#[unsafe(no_mangle)]
pub extern "C" fn replay_held(
    spans: &mut [u32],
    order: &mut [u32],
    tally: &mut [u32],
    rows: &mut [u32],
    marks: &mut [u16],
    locations: &mut [u64],
    waiting: &mut [u64],
    pool: &mut [u32],
    answers: &mut [u64],
    calls: &[u64],
    p: u64,
    v: u64,
) -> u64
    ensures { across spans order tally rows marks locations waiting pool (λ σ τ. Exported held p v calls.now result σ τ answers.old answers.new) }
{
    let mut storage = Storage {
        spans,
        order,
        tally,
        rows,
        marks,
        locations,
        waiting,
        pool,
    };
    let a = call_list::replay(&mut storage, answers, calls, p, v);
    by_number(a.map(session::held))
}
