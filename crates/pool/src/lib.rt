// The lists of accepted registrations: the inputs and then the outputs of each, one after the other, in the pool. A cell of the waiting
// storage for each registration says where its lists start, how many inputs it has, and its lane. This crate alone knows where a cell lies:
// of the quarters of v numbers, the third holds them.
#![tactic(auto)]

ghost use Rattle.std.specs.Prelude.{◌≡◌, ◌≤◌, ◌<◌, length};
ghost use Rattle.rules.specs.Checks.{waiting_needed};
ghost use Rattle.pool.specs.Lists.{lane_limit, inputs_limit, start_limit, stored, Storable, with_cell, start_of, inputs_of, lane_of, end_of};

// A cell has the lane in its lowest 8 bits, the count of inputs in 16 above them, and the start in the 40 above these: all outputs together
// are at most v, a registration has at most 65,535 inputs, and so lists start below 2^40. It is one number and no struct, since it lies in
// the caller's storage (the C interface).
const LANE_LIMIT: u64 = 256;

const INPUTS_LIMIT: u64 = 65536;

// Copies xs into the pool from `at` on; the rest of the pool stays. A list of one number, which most are, is stored apart for speed: the
// loop is compiled for long ones.
pub fn store_list(pool: &mut [u32], at: usize, xs: &[u64])
    requires { Storable pool.old at xs.now }
    ensures { pool.new ≡ stored pool.old at xs.now }
{
    if xs.len() == 1 {
        pool[at] = xs[0] as u32;
        return;
    }
    for (j, x) in xs.iter().enumerate() {
        pool[at + j] = *x as u32;
    }
}

// Notes where registration r's lists start in the pool, how many inputs it has, and its lane.
pub fn set_cell(waiting: &mut [u64], v: usize, r: usize, start: usize, inputs: usize, lane: u64)
    requires { (r < v) × (waiting_needed v ≤ length waiting.old) × (start < start_limit) × (inputs < inputs_limit) × (lane < lane_limit) }
    ensures { waiting.new ≡ with_cell waiting.old v r start inputs lane }
{
    waiting[2 * v + r] = (start as u64 * INPUTS_LIMIT + inputs as u64) * LANE_LIMIT + lane;
}

// Where registration r's lists start in the pool.
pub fn list_start(waiting: &[u64], v: usize, r: usize) -> usize
    requires { (r < v) × (waiting_needed v ≤ length waiting.now) }
    ensures { result ≡ start_of waiting.now v r }
{
    (waiting[2 * v + r] / (INPUTS_LIMIT * LANE_LIMIT)) as usize
}

// How many inputs registration r has.
pub fn list_inputs(waiting: &[u64], v: usize, r: usize) -> usize
    requires { (r < v) × (waiting_needed v ≤ length waiting.now) }
    ensures { result ≡ inputs_of waiting.now v r }
{
    (waiting[2 * v + r] / LANE_LIMIT % INPUTS_LIMIT) as usize
}

// The lane of registration r.
pub fn lane_of(waiting: &[u64], v: usize, r: usize) -> u16
    requires { (r < v) × (waiting_needed v ≤ length waiting.now) }
    ensures { result ≡ lane_of waiting.now v r }
{
    (waiting[2 * v + r] % LANE_LIMIT) as u16
}

// Where the lists of registration r, of n in all, end in the pool, of which `used` numbers are used.
pub fn list_end(waiting: &[u64], v: usize, r: usize, n: usize, used: usize) -> usize
    requires { (r < n) × (n ≤ v) × (waiting_needed v ≤ length waiting.now) }
    ensures { result ≡ end_of waiting.now v r n used }
{
    if r + 1 < n {
        return list_start(waiting, v, r + 1);
    }
    used
}
