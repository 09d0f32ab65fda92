// The waiting storage as a whole. A head for each place and a link for each registration are registrar's, a cell for each registration
// pool's, a flag for each place taken's; each of those crates alone knows where its part lies, and specs/Apart says that they do not meet.
// The slice and its v places stay two parameters. A struct of both, with a ghost field for the length, was tried and its methods proved, but
// it is no plainer: each that stores has to promise besides that slice and v are the same ones, who reads a `&[u64]` cannot make it, and
// it cannot stand in session's Storage, so that each call would make one.
#![tactic(auto)]

ghost use Rattle.std.specs.Prelude.{◌≤◌, length};
ghost use Rattle.rules.specs.Checks.{waiting_needed};
ghost use Rattle.waiting.specs.Cleared.{Emptied};

// The numbers that a place needs.
pub const SIZE: usize = 4;

// Nothing waits and no place is taken.
pub fn clear(waiting: &mut [u64], v: usize)
    requires { waiting_needed v ≤ length waiting.old }
    ensures { Emptied v waiting.old waiting.new }
{
    registrar::clear(waiting, v);
    taken::clear(waiting, v);
}
