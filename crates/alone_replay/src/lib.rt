// A list of requests to the guide alone, run on a freshly opened guide, for hosts: crate alone_list's `replay`. Slices and a number for a
// refusal stay: the C interface.
#![tactic(auto)]

ghost use Rattle.alone_list.specs.Replay.{ReplaysOver};

use rules::Refusal;

// Opens a guide and runs the requests on it. Returns 0, and the numbers of refused requests stand in their answers; or the number of a
// refusal, and then nothing was written: 15 for numbers that are no requests; 1, 2 of opening; 2 for too little room for the answers.
#[unsafe(no_mangle)]
pub extern "C" fn guide_replay(
    p: u64,
    v: u64,
    requests: &[u32],
    spans: &mut [u32],
    order: &mut [u32],
    tally: &mut [u32],
    answers: &mut [u32],
) -> u32
    ensures { ReplaysOver p v requests.now result spans order tally answers }
{
    let answer: Result<(), Refusal> = alone_list::replay(
        p, v, requests, spans, order, tally, answers,
    );
    match answer {
        Ok(()) => 0,
        Err(e) => e.into(),
    }
}
