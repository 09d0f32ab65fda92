// The guide: a fresh one, placing a value, and the flush. The storage is three slices: spans (32 · (P + 1) entries), order (V entries) and
// tally (P + 1 counts).
#![tactic(auto)]

ghost use Rattle.std.specs.Prelude.{◌≡◌};
ghost use Rattle.rules.specs.Guide.{flush as flush_guide};
ghost use Rattle.entries.specs.Entries.{item_of};
ghost use Rattle.buffer.specs.View.{view};
ghost use Rattle.placing.specs.Stands.{Stands};
ghost use Rattle.placing.specs.Done.{Done};
ghost use Rattle.placing.specs.Slices.{Standing, shown};
ghost use Rattle.guide.specs.Ready.{Ready, Near, loc_of};
ghost use Rattle.guide.specs.Pushes.{Lands};
ghost use Rattle.guide.specs.Fresh.{first_guide};

use buffer::Guide;
use choice::MatchedSpan;
use entries::Entry;
use putting::Pushed;
use std::array;
use window::{Location, Window};

// The window at the start: spans 0 to 31, all empty, span i in row i.
pub fn fresh(p: u32, v: u32) -> Guide
    ensures { result ≡ first_guide p v }
{
    Guide {
        held: 0,
        window: Window {
            ids: array::from_fn(|i| i as u32),
            lens: [0; window::SPANS],
            rows: array::from_fn(|i| i as u8),
        },
        p,
        v,
        written: 0,
    }
}

// Places a value, after a location where there is one.
pub fn push(
    g: Guide,
    spans: &mut [u32],
    order: &mut [u32],
    tally: &mut [u32],
    after: Option<Location>,
    e: Entry,
) -> Pushed
    requires standing { Standing g spans order tally }
    requires ready { Ready g.p g.v (shown g spans order) }
    requires near { Near (shown g spans order) (loc_of after) }
    ensures { Lands g result.guide spans order tally (loc_of after) (item_of e) result.at.span result.at.pos }
{
    match choice::choose(g.window.ids[0], g.window.lens, g.p, after) {
        MatchedSpan::Existing(i) => putting::place_existing(g, spans, order, tally, i, e),
        MatchedSpan::New(n) => putting::place_opened(g, spans, order, tally, n, e),
    }
}

// Releases all 32 spans, one after the other.
pub fn flush(g: Guide, spans: &[u32], order: &mut [u32], tally: &mut [u32]) -> Guide
    requires standing { Stands g spans.now order.old tally.old }
    requires ready { Ready g.p g.v (view g spans.now order.old) }
    ensures { Done g result spans.now order.old tally.old spans.now order.new tally.new (flush_guide g.p (view g spans.now order.old)) }
{
    let mut h = g;
    for i in 0..window::SPANS {
        h = placing::release_one(h, spans, order, tally);
    }
    h
}
