// The listing of a session after final, from its order and rows and the numbers that the job's end tells. Two slices, and no storage, stay:
// `MayReport` and `Reports` (specs/Report) speak of these two alone.
#![tactic(auto)]

ghost use Rattle.std.specs.Prelude.{length};
ghost use Rattle.report.specs.Report.{MayReport, Reports};

use jobturn::EndFigures;

// Writes the listing at the start of `text` and returns its length.
pub fn report(order: &[u32], rows: &[u32], text: &mut [u8], figures: EndFigures) -> usize
    requires { MayReport order.now rows.now (length text.old) figures }
    ensures { Reports order.now rows.now text.old text.new figures result }
{
    let n = figures.written as usize;
    let p = figures.parallelism;
    listing::put_listing(order, rows, text, n, p, figures.places, figures.median)
}
