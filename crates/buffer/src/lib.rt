// The guide over its storage: spans as rows of one slice, the order as another. `release` appends span 0's entries to the order and
// rotates the window. Rows of one slice that the host lends, with their lengths in the window: there is no heap.
#![tactic(auto)]

ghost use Rattle.std.specs.Prelude.{◌≡◌};
ghost use Rattle.buffer.specs.View.{row_start};
ghost use Rattle.buffer.specs.Fit.{Fit};
ghost use Rattle.buffer.specs.Moves.{released_guide, released_order};

use window::Window;

// How many entries the window holds, the window, P, V and the count of entries in the order.
#[derive(Clone, Copy)]
pub struct Guide {
    pub held: u32,
    pub window: Window,
    pub p: u32,
    pub v: u32,
    pub written: u32,
}

// Where a row of p + 1 entries begins in the span storage.
pub fn row_start(row: u8, p: u32) -> usize
    ensures { result ≡ row_start row p }
{
    (row as usize) * (p as usize + 1)
}

// Releases span 0: its entries are appended in the old window, each with its parallelism, and then the window is rotated.
pub fn release(g: Guide, spans: &[u32], order: &mut [u32]) -> Guide
    requires { Fit g spans.now order.old }
    ensures rotated { result ≡ released_guide g }
    ensures appended { order.new ≡ released_order g spans.now order.old }
{
    let w = g.window;
    let start = row_start(w.rows[0], g.p);
    let a = w.lens[0] as u32;
    let b = w.lens[1] as u32;
    let n = g.written;
    entries::append_row(spans, order, start, n as usize, g.p, a, b);
    Guide {
        held: g.held - a,
        window: window::rotate(w),
        written: n + a,
        ..g
    }
}
