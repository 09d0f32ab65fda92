// The answer to a job: job bytes in, listing bytes out, on storage of its own for the greatest P and V and the W of a job (crate rules).
#![tactic(auto)]

ghost use Rattle.std.specs.Prelude.{◌≡◌, length};
ghost use Rattle.rules.specs.Limits.{program_listing_bytes};
ghost use Rattle.job_reply.specs.Reply.{told, Replied, Answered};

use job::Arrays;
use jobcalls::Rejection;
use rules::Refusal;

// Answers a job: the listing's length, or the line and the number of its refusal. The listing is written aside and copied only if it fits,
// so that a refusal leaves the bytes as they were. The lists of a job have at most half as many numbers as it has bytes.
pub fn reply_to(text: &[u8], listing: &mut [u8]) -> Result<usize, Rejection>
    ensures { Replied text.now listing.old listing.new (told result) }
{
    let mut arrays = Arrays::new();
    let figures = arrays.run(text).end?;
    let mut page = [0u8; rules::PROGRAM_LISTING_BYTES];
    let length = report::report(&arrays.order, &arrays.rows, &mut page, figures);
    if listing.len() < length {
        let refusal = Refusal::LongListing;
        return Err(Rejection { line: 1, refusal });
    }
    listing[..length].copy_from_slice(&page[..length]);
    Ok(length)
}

// What the program prints for a job stands at the start of `out`; its length is returned, and what stands past it is left.
pub fn answer(job: &[u8], out: &mut [u8]) -> usize
    requires { length out.old ≡ program_listing_bytes }
    ensures { Answered job.now out.old out.new result }
{
    match reply_to(job, out) {
        Ok(n) => n,
        Err(e) => listing::put_rejection(out, e.line, e.refusal.into()),
    }
}
