// The exported call of crate jobneeds, by its C name.
#![tactic(auto)]

ghost use Rattle.std.specs.Prelude.{◌≡◌};
ghost use Rattle.rules.specs.Needs as rules;
ghost use Rattle.jobneeds.specs.Layout.{needs_result, needs_after};

// What a job needs, for hosts: 0, and in `needs` its registrations, the numbers in their lists, its plain flushes and the most spans that
// running it releases; or for a refusal 64 times the line plus the number, and `needs` untouched.
#[unsafe(no_mangle)]
pub extern "C" fn job_needs(job: &[u8], needs: &mut [u64; 4]) -> u64
    ensures result { result ≡ needs_result (rules.needs job.now) }
    ensures written { needs.new ≡ needs_after (rules.needs job.now) needs.old }
{
    jobneeds::job_needs(job, needs)
}
