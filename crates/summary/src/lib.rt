// What final gives of the tally, as one struct, and written into numbers that a host lends.
#![tactic(auto)]

ghost use Rattle.std.specs.Prelude.{◌≡◌, ◌++◌, ◌+◌, ◌≤◌, ltb, length, take, drop};
ghost use Rattle.rules.specs.Answer.{number as answer_number};
ghost use Rattle.rules.specs.Limits.{most_places};
ghost use Rattle.rules.specs.Summary as rules;
ghost use Rattle.figures.specs.Small.{Small};
ghost use Rattle.summary.specs.Figured.{figured, Tallied, Writable};
ghost use Rattle.summary.specs.Layout.{summary_size, summary_numbers, summary_number, summary_after};

use rules::Refusal;

// The numbers of a summary: the average's 32 bits, the median, from LOW_AT on the low counts, and from SUMS_AT on the sums of thousands.
const LOW_AT: usize = 2;

const SUMS_AT: usize = LOW_AT + rules::LOW_COUNTS;

const SIZE: usize = SUMS_AT + rules::SUMS_OF_THOUSANDS;

// The greatest sum of a tally's counts.
const MOST: u32 = rules::MOST_PLACES as u32;

// The summary: counts for 0 to 127, and the sums of the counts for 0 to 999, 1,000 to 1,999 and so on.
#[derive(Clone, Copy)]
pub struct Summary {
    pub average: f32,
    pub median: u32,
    pub low: [u32; rules::LOW_COUNTS],
    pub thousands: [u32; rules::SUMS_OF_THOUSANDS],
}

// The summary of a tally.
fn summarize(t: &[u32]) -> Summary
    requires { Small t.now }
    ensures { figured result ≡ rules.figures t.now }
{
    let all = figures::sum(t);
    Summary {
        average: figures::average(all),
        median: figures::median(t, all),
        low: figures::low_counts(t),
        thousands: figures::thousands(t),
    }
}

// The summary of the tally of parallelism p: of its first p + 1 counts.
pub fn finalize(tally: &[u32], p: u32) -> Summary
    requires { Tallied tally.now p }
    ensures { figured result ≡ rules.figures (take (p + 1) tally.now) }
{
    let n = p as usize + 1;
    let t = &tally[..n];
    summarize(t)
}

// Whether the sum of any counts is above 2^24; it stops where it is, so nothing overflows.
fn sum_too_great(t: &[u32]) -> bool
    ensures { result ≡ ltb most_places (rules.sum t.now) }
{
    let mut s: u32 = 0;
    for x in t {
        if MOST - s < *x {
            return true;
        }
        s += *x;
    }
    false
}

// Whether a summary of the tally in `count` numbers is refused.
fn check_summary(tally: &[u32], count: usize) -> Result<(), Refusal>
    ensures { answer_number result ≡ summary_number tally.now count }
{
    if figures::COUNTS < tally.len() {
        return Err(Refusal::OutOfRange);
    }
    if sum_too_great(tally) {
        return Err(Refusal::OutOfRange);
    }
    if count < SIZE {
        return Err(Refusal::TooShort);
    }
    Ok(())
}

// Writes a summary as numbers; what lies past them stays.
fn write(s: Summary, to: &mut [u32])
    requires { (Writable s) × (summary_size ≤ length to.old) }
    ensures { to.new ≡ summary_numbers (figured s) ++ drop summary_size to.old }
{
    to[0] = f32::to_bits(s.average);
    to[1] = s.median;
    to[LOW_AT..SUMS_AT].copy_from_slice(&s.low);
    to[SUMS_AT..SIZE].copy_from_slice(&s.thousands);
}

// Fills `summary` with the summary of a tally, whose counts past its length are 0: the average's 32 bits, the median, 128 counts, 65 sums
// of thousands. The answer is 0; or 1 for a tally longer than 65,000 counts or a sum above 2^24 (no session has such), or else 2 for fewer
// than 195 numbers in `summary`, and then nothing is written.
#[unsafe(no_mangle)]
pub extern "C" fn order_summary(tally: &[u32], summary: &mut [u32]) -> u64
    ensures number { result ≡ summary_number tally.now (length summary.old) }
    ensures written { summary.new ≡ summary_after result tally.now summary.old }
{
    match check_summary(tally, summary.len()) {
        Ok(()) => {
            write(summarize(tally), summary);
            0
        }
        Err(refusal) => u64::from(refusal),
    }
}
