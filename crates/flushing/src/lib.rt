// The work of a flush: all 32 spans are released, the rows of what was appended are filled, and the order's length is stored as written of
// the latest registration. Flush and final both do it.
#![tactic(auto)]

ghost use Rattle.flushing.specs.Released.{MayRelease, Releases};

use buffer::Guide;

// Releases all 32 spans, with rows and written. By four slices, which the storages of both kinds of session have: a
// struct of its own for them would be built at each call, and is no plainer. Not inlined: behind an opening the compiler takes the fresh
// window apart and moves it number by number, once for a flush and once more for a final. By cachegrind, an empty flush in a list of calls took 6,785
// instructions so, and takes 3,270 by itself.
#[inline(never)]
pub fn release_all(
    g: Guide,
    spans: &[u32],
    order: &mut [u32],
    tally: &mut [u32],
    rows: &mut [u32],
    added: u32,
) -> Guide
    requires { MayRelease g added spans.now order.old tally.old rows.old }
    ensures { Releases g result added spans.now order.old tally.old rows.old order.new tally.new rows.new }
{
    let n = g.written;
    let h = guide::flush(g, spans, order, tally);
    let m = h.written;
    records::fill_rows(order, rows, n, m - n);
    session::note_latest(rows, 0, added, m);
    h
}
