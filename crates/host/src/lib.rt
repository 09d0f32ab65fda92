// The host's call: job bytes in, listing bytes out.
#![tactic(auto)]

ghost use Rattle.host.specs.Called.{Called};

// 64 times the listing's length, or for a refusal 64 times the line plus the number, the listing bytes untouched. One number for both stays:
// the C interface.
#[unsafe(no_mangle)]
pub extern "C" fn order_job(job: &[u8], listing: &mut [u8]) -> u64
    ensures { Called job.now listing.old listing.new result }
{
    match job_reply::reply_to(job, listing) {
        Ok(length) => rules::REPLY_RADIX * (length as u64),
        Err(e) => rules::REPLY_RADIX * e.line + u64::from(e.refusal),
    }
}
