// The steps of placing over the guide's storage: the release of span 0, and spans opened.
// The slices spans, order and tally go together through here, putting and guide, and stay three parameters: a struct of them inside the
// session's Storage was tried, and the borrow checker refuses it.
#![tactic(auto)]

ghost use Rattle.std.specs.Prelude.{◌≡◌, ◌≤◌};
ghost use Rattle.rules.specs.Guide.{release};
ghost use Rattle.buffer.specs.Moves.{released_guide};
ghost use Rattle.buffer.specs.View.{view};
ghost use Rattle.placing.specs.Stands.{Stands};
ghost use Rattle.placing.specs.Done.{Done, Free, FreeTwo};

use buffer::Guide;

// Releases span 0: its entries are appended to the order and counted, and the window is rotated.
pub fn release_one(g: Guide, spans: &[u32], order: &mut [u32], tally: &mut [u32]) -> Guide
    requires standing { Stands g spans.now order.old tally.old }
    requires free { Free g }
    ensures becomes { Done g result spans.now order.old tally.old spans.now order.new tally.new (release g.p 1 (view g spans.now order.old)) }
    ensures rotated { result ≡ released_guide g }
{
    let a = g.window.lens[0] as u32;
    let n = g.written as usize;
    let h = buffer::release(g, spans, order);
    tally::tally_new(order, tally, n, a);
    h
}

// Opens n spans, 1 or 2, releasing as many.
pub fn open_spans(g: Guide, spans: &[u32], order: &mut [u32], tally: &mut [u32], n: u32) -> Guide
    requires standing { Stands g spans.now order.old tally.old }
    requires free_two { FreeTwo g }
    requires le_n { (1 ≤ n) × (n ≤ 2) }
    ensures { Done g result spans.now order.old tally.old spans.now order.new tally.new (release g.p n (view g spans.now order.old)) }
{
    let mut h = release_one(g, spans, order, tally);
    if n == 2 {
        h = release_one(h, spans, order, tally);
    }
    h
}
