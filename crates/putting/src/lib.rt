// An entry put into a span of the window, or into a newly opened one. Both ways spell out the put: with one function for it, over `&mut Guide`,
// a placing ran 187 instructions in place of 176.
#![tactic(auto)]

ghost use Rattle.std.specs.Prelude.{◌≡◌, ◌+◌, ◌<◌, ◌≤◌};
ghost use Rattle.rules.specs.Guide.{put, release, settle};
ghost use Rattle.entries.specs.Entries.{item_of};
ghost use Rattle.buffer.specs.View.{length_of, number_of};
ghost use Rattle.placing.specs.Done.{Free, FreeTwo};
ghost use Rattle.placing.specs.Slices.{Standing, Becomes};

use buffer::Guide;
use entries::Entry;
use window::Location;

// A guide with the location that a placing gave.
#[derive(Clone, Copy)]
pub struct Pushed {
    pub guide: Guide,
    pub at: Location,
}

// Puts an entry into span i, and releases span 0 where span i is then full, whichever span that is: with span 1 full, span 0 can gain no
// more parallelism; with a later one full, what span 0 loses by being released early is parallelism, and nothing else.
pub fn place_existing(
    g: Guide,
    spans: &mut [u32],
    order: &mut [u32],
    tally: &mut [u32],
    i: usize,
    e: Entry,
) -> Pushed
    requires standing { Standing g spans order tally }
    requires free { Free g }
    requires le_i { (1 ≤ i) × ((i < 32) × (length_of g i ≤ g.p)) }
    ensures becomes { Becomes g result.guide spans order tally (λ b. settle g.p (length_of g i + 1) (put i (item_of e) b)) }
    ensures location { (result.at.span ≡ number_of g i) × (result.at.pos ≡ length_of g i) }
{
    let mut window = g.window;
    let mut written = g.written;
    let span = window.ids[i];
    let pos = window.lens[i] as u32;
    let start = buffer::row_start(window.rows[i], g.p);
    entries::store_held(spans, start + pos as usize, e);
    window.lens[i] = (pos + 1) as u16;
    let mut held = g.held + 1;
    if g.p <= pos + 1 {
        let filled = Guide {
            held,
            window,
            written,
            ..g
        };
        let h = placing::release_one(filled, spans, order, tally);
        held = h.held;
        window = h.window;
        written = h.written;
    }
    let guide = Guide {
        held,
        window,
        written,
        ..g
    };
    Pushed {
        guide,
        at: Location { span, pos },
    }
}

// Opens n spans, 1 or 2, and puts an entry into the new last one.
pub fn place_opened(
    g: Guide,
    spans: &mut [u32],
    order: &mut [u32],
    tally: &mut [u32],
    n: u32,
    e: Entry,
) -> Pushed
    requires standing { Standing g spans order tally }
    requires free_two { FreeTwo g }
    requires le_n { (1 ≤ n) × (n ≤ 2) }
    ensures becomes { Becomes g result.guide spans order tally (λ b. put 31 (item_of e) (release g.p n b)) }
    ensures location { (result.at.span ≡ number_of g 31 + n) × (result.at.pos ≡ 0) }
{
    let h = placing::open_spans(g, spans, order, tally, n);
    let mut window = h.window;
    let span = window.ids[window::LAST];
    entries::store_held(spans, buffer::row_start(window.rows[window::LAST], g.p), e);
    window.lens[window::LAST] = 1;
    let held = h.held + 1;
    let guide = Guide {
        held,
        window,
        written: h.written,
        ..g
    };
    Pushed {
        guide,
        at: Location { span, pos: 0 },
    }
}
