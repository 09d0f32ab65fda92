// A set place: its mark and its flag, the watermark, and the registrations that come off.
#![tactic(auto)]

ghost use Rattle.marking.specs.Marking.{Marking, Marks};

// The watermark, and the top link of the stack of what came off.
#[derive(Clone, Copy)]
pub struct Marked {
    pub watermark: usize,
    pub top: u64,
}

// Marks place x of v as set and as taken, moves the watermark, and takes what is then at or below it off, by ascending place, then
// registration.
pub fn mark_set(
    marks: &mut [u16],
    waiting: &mut [u64],
    v: usize,
    watermark: usize,
    x: usize,
) -> Marked
    requires { Marking marks.old waiting.old v watermark x }
    ensures { Marks marks.old waiting.old v watermark x result.watermark result.top marks.new waiting.new }
{
    tracking::set_mark(marks, x);
    taken::claim_one(waiting, v, x);
    let to = tracking::advance(marks, v, watermark);
    let top = registrar::advance_set(waiting, v, watermark, to);
    Marked { watermark: to, top }
}
