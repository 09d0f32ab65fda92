// The parallelism rule, and the choice of a span for a value, by the window's numbers and lengths.
#![tactic(auto)]

ghost use Rattle.std.specs.Prelude.{◌≡◌, true, ◌+◌, ◌≤◌, ◌<◌};
ghost use Rattle.rules.specs.Limits.{most_parallelism};
ghost use Rattle.rules.specs.Guide.{parallelism};
ghost use Rattle.window.specs.Location.{has, span_of, pos_of};
ghost use Rattle.choice.specs.Search.{matched};
ghost use Rattle.choice.specs.Chosen.{chosen_by};

use window::Location;

// Where a value goes: into a span of the window, or into the last of some newly opened ones.
#[derive(Clone, Copy)]
pub enum MatchedSpan {
    Existing(usize),
    New(u32),
}

// Parallelism of the entry at position q of a span of a entries, the next holding b (the Rust's calculate_parallelism). The sums are 32 bits
// wide, so that none wraps where a + b passes 65,535. Its halves stay apart: with `p.min(a)` for both, a placing ran 487 instructions in
// place of 436 where spans are full.
pub fn parallelism_of(p: u32, a: u32, b: u32, q: u32) -> u32
    requires { (q < a) × ((a ≤ p + 1) × ((b ≤ p + 1) × (p ≤ most_parallelism))) }
    ensures { result ≡ parallelism p a b q }
{
    if p <= a {
        if p <= b {
            return p;
        }
        if q < b {
            return p;
        }
        return (p + b - q).max(1);
    }
    if p <= b {
        return a;
    }
    if q < b {
        return a;
    }
    b + a - q
}

// The first span from `from` on that is shorter than p, else one new span.
pub fn find_span(lens: [u16; window::SPANS], from: usize, p: u32) -> MatchedSpan
    requires { from ≤ 32 }
    ensures { result ≡ matched lens from p }
{
    let mut r = MatchedSpan::New(1);
    for i in from..window::SPANS {
        if (lens[i] as u32) < p {
            r = MatchedSpan::Existing(i);
            break;
        }
    }
    r
}

// The span for a value in the window whose span 0 has the number `first`, placed after a location where there is one. Span 0 is never
// chosen, so that no entry ever has the location (0,0), which is that of every set place. The earliest is span 1: what depends on nothing
// goes there, and what depends on a released entry, as span 0 lies between the two.
pub fn choose(
    first: u32,
    lens: [u16; window::SPANS],
    p: u32,
    after: Option<Location>,
) -> MatchedSpan
    requires { has after ≡ true → span_of after ≤ first + 31 }
    ensures { result ≡ chosen_by first lens p (has after) (span_of after) (pos_of after) }
{
    match after {
        None => MatchedSpan::Existing(1),
        Some(at) => {
            let d: i64 = at.span as i64 - first as i64;
            if d < 0 {
                return MatchedSpan::Existing(1);
            }
            let d = d as usize;
            if d == window::LAST {
                // What it depends on is in the last span. Position 0 of the span right behind would be too near, so one span more is opened.
                return MatchedSpan::New(2);
            }
            if (lens[d + 1] as u32) < at.pos {
                // The end of the next span is less than a span's length away; more values are to come before it.
                return find_span(lens, d + 2, p);
            }
            find_span(lens, d + 1, p)
        }
    }
}
