// A job on standard input, as the programs read it.
#![tactic(auto)]

ghost use Rattle.std.specs.Prelude.{◌≤◌, IfOk, length};

use std::io;
use std::io::Read;

// Reads to the end of the input, or until `job` is full: so many bytes, or nothing that can be trusted.
pub fn read_job<R: Read>(input: &mut R, job: &mut [u8]) -> io::Result<usize>
    ensures { IfOk result (λ n. n ≤ length job.old) }
{
    let mut done = 0;
    while done < job.len() {
        let more = input.read(&mut job[done..])?;
        if more == 0 {
            break;
        }
        done += more;
    }
    Ok(done)
}
