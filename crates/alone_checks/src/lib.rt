// The refusals of the guide alone, at opening, for a push and for a flush: of the first check that fails.
#![tactic(auto)]

ghost use Rattle.std.specs.Prelude.{◌≡◌, ◌||◌, ◌≤◌, ltb, leb};
ghost use Rattle.rules.specs.Answer.{number};
ghost use Rattle.rules.specs.Limits.{most_parallelism, last_span_limit};
ghost use Rattle.rules.specs.Checks.{verdict, spans_needed, tally_needed};
ghost use Rattle.rules.specs.Alone.{check_alone};
ghost use Rattle.window.specs.Location.{has, span_of, pos_of};
ghost use Rattle.alone_checks.specs.Numbers.{origin_not, stray_by, push_checks, flush_checks};

use rules::Refusal;
use window::Location;

// A number is not from 1 to the most.
fn outside(x: u64, most: u64) -> bool
    ensures { result ≡ (ltb x 1 || ltb most x) }
{
    x < 1 || most < x
}

// A lent length is too short: spans and order in entries, the tally in counts.
fn short(spans: usize, order: usize, tally: usize, p: u64, v: u64) -> bool
    requires { p ≤ most_parallelism }
    ensures { result ≡ (ltb spans (spans_needed p) || (ltb order v || ltb tally (tally_needed p))) }
{
    let counts = p as usize + 1;
    spans < window::SPANS * counts || order < v as usize || tally < counts
}

// Opening.
pub fn check_open(spans: usize, order: usize, tally: usize, p: u64, v: u64) -> Result<(), Refusal>
    ensures { number result ≡ verdict (check_alone p v spans order tally) }
{
    if outside(p, rules::MOST_PARALLELISM) || outside(v, rules::MOST_PLACES) {
        return Err(Refusal::OutOfRange);
    }
    if short(spans, order, tally, p, v) {
        return Err(Refusal::TooShort);
    }
    Ok(())
}

// A location is not (0,0), that of every set place.
fn not_origin(at: Location) -> bool
    ensures { result ≡ origin_not at.span at.pos }
{
    at.span != 0 || at.pos != 0
}

// A location that is not (0,0), at or past span 0, and of no entry that is held.
fn stray(first: u32, lens: [u16; window::SPANS], at: Location) -> bool
    ensures { result ≡ stray_by first lens at.span at.pos }
{
    if at.span < first {
        return false;
    }
    let i = (at.span - first) as usize;
    not_origin(at) && (window::SPANS <= i || lens[i] as u32 <= at.pos)
}

// No numbers are left for a window more of spans.
fn worn(last: u32) -> bool
    ensures { result ≡ leb last_span_limit last }
{
    rules::LAST_SPAN_LIMIT <= last
}

// A push: the guide exhausted, then an `after` that is not held.
pub fn check_push(
    last: u32,
    first: u32,
    lens: [u16; window::SPANS],
    v: u32,
    pushes: u32,
    after: Option<Location>,
) -> Result<(), Refusal>
    ensures { number result ≡ verdict (push_checks last first lens v pushes (has after) (span_of after) (pos_of after)) }
{
    if v <= pushes || worn(last) {
        return Err(Refusal::GuideExhausted);
    }
    if let Some(at) = after {
        if stray(first, lens, at) {
            return Err(Refusal::NotHeld);
        }
    }
    Ok(())
}

// A flush: no span numbers left.
pub fn check_flush(last: u32) -> Result<(), Refusal>
    ensures { number result ≡ verdict (flush_checks last) }
{
    if worn(last) {
        return Err(Refusal::GuideExhausted);
    }
    Ok(())
}
