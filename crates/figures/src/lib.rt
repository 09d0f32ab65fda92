// The figures that final gives of a tally: the sum of its counts, the average, the median, the counts for the low parallelisms and the sums
// of thousands (the Rust's GuideStats::finalize). The sum is at most the greatest count of registrations, 2^24.
#![tactic(auto)]

ghost use Rattle.std.specs.Prelude.{◌≡◌, false, ◌≤◌};
ghost use Rattle.std.specs.Float.{binary32};
ghost use Rattle.std.specs.Float.Ieee.{round};
ghost use Rattle.rules.specs.Limits.{most_places, average_divisor, low_counts, sums_of_thousands};
ghost use Rattle.rules.specs.Summary as rules;
ghost use Rattle.figures.specs.Small.{Small};

// The most counts of a tally: one for each parallelism from 0 on.
pub const COUNTS: usize = rules::MOST_PARALLELISM as usize + 1;

// The sum of the counts.
pub fn sum(t: &[u32]) -> u32
    requires { Small t.now }
    ensures { result ≡ rules.sum t.now }
{
    t.iter().sum()
}

// The sum divided by the average's divisor: its conversion to binary32 is exact, so the quotient is rounded once.
pub fn average(sum: u32) -> f32
    requires { sum ≤ most_places }
    ensures { result ≡ round binary32 false sum average_divisor }
{
    sum as f32 / rules::AVERAGE_DIVISOR
}

// The first parallelism at which twice the running sum is at least the sum, `all`.
pub fn median(t: &[u32], all: u32) -> u32
    requires { (Small t.now) × (all ≡ rules.sum t.now) }
    ensures { result ≡ rules.median t.now }
{
    let mut running: u32 = 0;
    for (i, x) in t.iter().enumerate() {
        running += *x;
        if all <= 2 * running {
            return i as u32;
        }
    }
    0
}

// The first counts; those that the tally does not store are 0.
pub fn low_counts(t: &[u32]) -> [u32; rules::LOW_COUNTS]
    ensures { result ≡ rules.counts low_counts 0 t.now }
{
    let mut low = [0u32; rules::LOW_COUNTS];
    let n = t.len().min(rules::LOW_COUNTS);
    low[..n].copy_from_slice(&t[..n]);
    low
}

// The sum of each thousand of counts, in one pass.
pub fn thousands(t: &[u32]) -> [u32; rules::SUMS_OF_THOUSANDS]
    requires { Small t.now }
    ensures { result ≡ rules.thousands sums_of_thousands 0 t.now }
{
    let mut sums = [0u32; rules::SUMS_OF_THOUSANDS];
    for (i, x) in t.iter().enumerate() {
        sums[i / 1000] += *x;
    }
    sums
}
