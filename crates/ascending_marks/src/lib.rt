// Marks and locations of places as the ascending profile walks them: inputs are listed by the call itself, outputs follow each other, and
// a repeated output is found by the marks, since no flags of taken places are kept.
#![tactic(auto)]

ghost use Rattle.std.specs.Prelude.{◌≡◌, ◌+◌, ◌≤◌, length};
ghost use Rattle.lists.specs.Part.{Below};
ghost use Rattle.tracking.specs.Tracking.{peak, Stamped};
ghost use Rattle.ascending.specs.Claims.{places_from};
ghost use Rattle.ascending_marks.specs.Raised.{Unraised, Raises, Lowering, Lowers, Repeats};

// The greatest location of the places, 0 where there are none.
pub fn top_among(locations: &[u64], places: &[u64]) -> u64
    requires { Below (length locations.now) places.now }
    ensures { result ≡ peak locations.now places.now }
{
    places
        .iter()
        .map(|x| locations[*x as usize])
        .max()
        .unwrap_or(0)
}

// Marks the n places from `from` on as written, each with the location; no other place is touched.
pub fn stamp_run(marks: &mut [u16], locations: &mut [u64], from: usize, n: usize, loc: u64)
    requires { (from + n ≤ length marks.old) × (from + n ≤ length locations.old) }
    ensures { Stamped marks.old locations.old (places_from from n) loc marks.new locations.new }
{
    marks[from..from + n].fill(rules::MARK_WRITTEN);
    locations[from..from + n].fill(loc);
}

// Raises the mark of each place by 1, up to the first place that is raised already: the index of that one, or the count of them all. Why it
// is no walk of taken's: taken::raise_flags.
fn raise_marks(marks: &mut [u16], outs: &[u64]) -> usize
    requires { Unraised marks.old outs.now }
    ensures { Raises marks.old outs.now result marks.new }
{
    for (i, x) in outs.iter().enumerate() {
        let x = *x as usize;
        if marks[x] % 2 != 0 {
            return i;
        }
        marks[x] += 1;
    }
    outs.len()
}

// Lowers the marks of the first n places again.
fn lower_marks(marks: &mut [u16], outs: &[u64], n: usize)
    requires { Lowering marks.old outs.now n }
    ensures { Lowers marks.old outs.now n marks.new }
{
    for x in outs[..n].iter().rev() {
        let x = *x as usize;
        marks[x] -= 1;
    }
}

// Whether a place stands twice among outs. The marks of those met are raised by 1 on the way, which no mark of a session has, and lowered
// again, so that the marks are as before.
pub fn repeats(marks: &mut [u16], outs: &[u64]) -> bool
    requires { Unraised marks.old outs.now }
    ensures { Repeats marks.old outs.now result marks.new }
{
    let n = raise_marks(marks, outs);
    lower_marks(marks, outs, n);
    n < outs.len()
}
