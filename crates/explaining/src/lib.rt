// Why a registration waits, asked of a session and of the storage that says who its registrations are. Nothing is written.
#![tactic(auto)]

ghost use Rattle.std.specs.Prelude.{◌≡◌, ◌+◌, ◌≤◌, length};
ghost use Rattle.rules.specs.Model.{greatest as greatest_of};
ghost use Rattle.lists.specs.Part.{part};
ghost use Rattle.explaining.specs.Explaining.{told, MayExplain, Explains};

use rules::Refusal;
use session::Session;

// Why a registration waits: its greatest input, and the lowest place that is untracked.
#[derive(Clone, Copy)]
pub struct Reason {
    pub input: u64,
    pub place: u64,
}

// The greatest of the n places listed in the pool from `at` on, 0 where there are none.
fn greatest_listed(pool: &[u32], at: usize, n: usize) -> u32
    requires { at + n ≤ length pool.now }
    ensures { result ≡ greatest_of (part pool.now at n) }
{
    pool[at..at + n].iter().copied().max().unwrap_or(0)
}

// Why registration r waits. It does where it has inputs and the greatest is not below the watermark, which is the lowest untracked place.
pub fn explain(s: Session, waiting: &[u64], pool: &[u32], r: u64) -> Result<Reason, Refusal>
    requires { MayExplain s waiting.now pool.now }
    ensures { Explains s waiting.now pool.now r (told result) }
{
    if r >= s.added as u64 {
        return Err(Refusal::NeverAccepted);
    }
    let v = s.guide.v as usize;
    let i = r as usize;
    let n = pool::list_inputs(waiting, v, i);
    let input = greatest_listed(pool, pool::list_start(waiting, v, i), n) as usize;
    if n == 0 || input < s.watermark {
        return Err(Refusal::NotWaiting);
    }
    Ok(Reason {
        input: input as u64,
        place: s.watermark as u64,
    })
}
