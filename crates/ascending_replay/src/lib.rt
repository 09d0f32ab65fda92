// An encoded list of calls on a fresh session under the ascending profile, for hosts: crate ascending_list's `replay`, by one number.
#![tactic(auto)]

ghost use Rattle.ascending_session.specs.Slices.{across};
ghost use Rattle.ascending_replay.specs.Exported.{Exported};

use ascending_session::Storage;

// Opens a session of parallelism p, v places and room for w list numbers on the storage and makes the encoded calls, storing each one's
// number in `answers`. Returns 64 times the order's length; or the number of a refusal, and then nothing was written: 15 for numbers that
// are no list of calls; 1, 2 of opening; 2 for too little room for the answers.
#[unsafe(no_mangle)]
pub extern "C" fn replay_ascending(
    spans: &mut [u32],
    order: &mut [u32],
    tally: &mut [u32],
    rows: &mut [u32],
    marks: &mut [u16],
    locations: &mut [u64],
    answers: &mut [u64],
    calls: &[u64],
    p: u64,
    v: u64,
    w: u64,
) -> u64
    ensures { across spans order tally rows marks locations (λ σ τ. Exported p v w calls.now result σ τ answers.old answers.new) }
{
    let mut storage = Storage {
        spans,
        order,
        tally,
        rows,
        marks,
        locations,
    };
    let a = ascending_list::replay(&mut storage, answers, calls, p, v, w);
    replay::by_number(a.map(|s| s.guide.written))
}
