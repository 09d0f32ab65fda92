// The exported call of crate host, by its C name.
#![tactic(auto)]

ghost use Rattle.host.specs.Called.{Called};

// 64 times the listing's length, or for a refusal 64 times the line plus the number, the listing bytes untouched.
#[unsafe(no_mangle)]
pub extern "C" fn order_job(job: &[u8], listing: &mut [u8]) -> u64
    ensures { Called job.now listing.old listing.new result }
{
    host::order_job(job, listing)
}
