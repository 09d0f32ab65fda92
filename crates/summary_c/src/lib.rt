// The exported call of crate summary, by its C name.
#![tactic(auto)]

ghost use Rattle.std.specs.Prelude.{◌≡◌, length};
ghost use Rattle.summary.specs.Layout.{summary_number, summary_after};

// Fills `summary` with the summary of a tally, whose counts past its length are 0: the average's 32 bits, the median, 128 counts, 65 sums
// of thousands. The answer is 0; or 1 for a tally longer than 65,000 counts or a sum above 2^24 (no session has such), or else 2 for fewer
// than 195 numbers in `summary`, and then nothing is written.
#[unsafe(no_mangle)]
pub extern "C" fn order_summary(tally: &[u32], summary: &mut [u32]) -> u64
    ensures number { result ≡ summary_number tally.now (length summary.old) }
    ensures written { summary.new ≡ summary_after result tally.now summary.old }
{
    summary::order_summary(tally, summary)
}
