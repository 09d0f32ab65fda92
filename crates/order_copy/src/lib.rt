// An order of entry structs beside the flat one: one entry copied, and the checks before copying. Crate order_entries has the loop, as
// the call that hosts make.
#![tactic(auto)]

ghost use Rattle.std.specs.Prelude.{◌≡◌, ◌<◌, ◌-◌, length, set};
ghost use Rattle.rules.specs.Answer.{number};
ghost use Rattle.entries.specs.Entries.{fits};
ghost use Rattle.order_copy.specs.Flat.{Readable, entry_of};
ghost use Rattle.order_copy.specs.Copied.{wide_entry, check_new};

use rules::Refusal;

// An entry of the order (the Rust's OrderInfo), laid out as in C: 16 bytes.
#[repr(C)]
#[derive(Clone, Copy)]
pub struct OrderInfo {
    pub value: u32,
    pub added: u32,
    pub accepted: u32,
    pub parallelism: u16,
    pub lane: u8,
}

// Entry k of the flat order.
pub fn entry_at(flat: &[u32], k: usize) -> OrderInfo
    requires { Readable flat.now k }
    ensures { result ≡ entry_of flat.now k }
{
    let e = entries::load(flat, k);
    OrderInfo {
        value: e.value,
        added: e.added,
        accepted: e.accepted,
        parallelism: e.parallelism,
        lane: e.lane as u8,
    }
}

// Puts e at index `at` of the order; every other entry stays.
pub fn append(order: &mut [OrderInfo], at: usize, e: OrderInfo)
    requires { at < length order.old }
    ensures { order.new ≡ set order.old at e }
{
    order[at] = e;
}

// Whether the last number of one of the entries `from` to `to` - 1 of the flat order has more than 24 bits: a lane of more than 8.
fn has_wide(flat: &[u32], from: usize, to: usize) -> bool
    requires { fits flat.now to }
    ensures { result ≡ wide_entry flat.now from (to - from) }
{
    for k in from..to {
        if rules::MOST_LANE < entries::load(flat, k).lane as u64 {
            return true;
        }
    }
    false
}

// Whether entries `from` to `to` - 1 of the flat order can be copied to an order of `room` structs, or 2.
pub fn check_new(room: usize, flat: &[u32], from: usize, to: usize) -> Result<(), Refusal>
    ensures { number result ≡ check_new room flat.now from to }
{
    if to < from || room < to || entries::capacity(flat) < to || has_wide(flat, from, to) {
        return Err(Refusal::TooShort);
    }
    Ok(())
}
