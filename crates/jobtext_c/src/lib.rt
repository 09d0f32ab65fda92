// The exported call of crate jobtext, by its C name.
#![tactic(auto)]

ghost use Rattle.std.specs.Prelude.{◌≡◌};
ghost use Rattle.jobtext.specs.Text.{line_end};

// The place of the first byte 10 at or after `from`, or the length where there is none; the length too where `from` lies past the bytes.
#[unsafe(no_mangle)]
pub extern "C" fn job_line_end(job: &[u8], from: usize) -> usize
    ensures { result ≡ line_end job.now from }
{
    jobtext::job_line_end(job, from)
}
