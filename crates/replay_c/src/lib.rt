// The exported calls of crate replay, by their C names.
#![tactic(auto)]

ghost use Rattle.session.specs.Storage.{across};
ghost use Rattle.replay.specs.Exported.{written, held, Exported};

// Opens a session of parallelism p and v places on the storage and makes the encoded calls, storing each one's number in `answers`.
// Returns 64 times the order's length; or the number of a refusal, and then nothing was written: 15 for numbers that are no list of
// calls; 1, 2 of opening; 2 for too little room for the answers.
#[unsafe(no_mangle)]
pub extern "C" fn replay_calls(
    spans: &mut [u32],
    order: &mut [u32],
    tally: &mut [u32],
    rows: &mut [u32],
    marks: &mut [u16],
    locations: &mut [u64],
    waiting: &mut [u64],
    pool: &mut [u32],
    answers: &mut [u64],
    calls: &[u64],
    p: u64,
    v: u64,
) -> u64
    ensures { across spans order tally rows marks locations waiting pool (λ σ τ. Exported written p v calls.now result σ τ answers.old answers.new) }
{
    replay::replay_calls(
        spans, order, tally, rows, marks, locations, waiting, pool, answers, calls, p, v,
    )
}

// The same, and returns 64 times the entries that the window holds after the calls, or the number of a refusal.
#[unsafe(no_mangle)]
pub extern "C" fn replay_held(
    spans: &mut [u32],
    order: &mut [u32],
    tally: &mut [u32],
    rows: &mut [u32],
    marks: &mut [u16],
    locations: &mut [u64],
    waiting: &mut [u64],
    pool: &mut [u32],
    answers: &mut [u64],
    calls: &[u64],
    p: u64,
    v: u64,
) -> u64
    ensures { across spans order tally rows marks locations waiting pool (λ σ τ. Exported held p v calls.now result σ τ answers.old answers.new) }
{
    replay::replay_held(
        spans, order, tally, rows, marks, locations, waiting, pool, answers, calls, p, v,
    )
}
