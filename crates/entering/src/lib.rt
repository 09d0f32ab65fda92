// The lane and the lists of an accepted registration: the lists stored behind those of the others, with the cell that says where they lie
// and has the lane.
#![tactic(auto)]

ghost use Rattle.entering.specs.Entering.{Storing, Stores};

use lists::Registration;

// Those of r, the registration numbered i of v; `used` numbers of the pool are taken.
pub fn store_lists(
    waiting: &mut [u64],
    pool: &mut [u32],
    r: Registration,
    v: usize,
    i: usize,
    used: usize,
)
    requires { Storing waiting.old pool.old v i used r.lane r.inputs.now r.outputs.now }
    ensures { Stores waiting.old pool.old v i used r.entry.lane r.entry.inputs.now r.entry.outputs.now
        waiting.new pool.new }
{
    let inputs = r.inputs.len();
    pool::store_list(pool, used, r.inputs);
    pool::store_list(pool, used + inputs, r.outputs);
    pool::set_cell(waiting, v, i, used, inputs, r.lane);
}
