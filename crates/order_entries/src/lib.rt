// The order as a lent slice of entry structs. The session keeps its order as a flat slice of numbers (crate entries); a caller that wants
// structs lends a slice of them beside it and after each call has the new entries copied there.
#![tactic(auto)]

ghost use Rattle.std.specs.Prelude.{◌≡◌, length};
ghost use Rattle.rules.specs.Calls.{unless_refused};
ghost use Rattle.order_copy.specs.Copied.{copied, check_new};

use order_copy::OrderInfo;

// Copies entries `from` to `to` - 1 of the flat order to the same indices of the order; every other entry stays. After a call of the
// session `from` is the order's length before it and `to` the length after it. The answer is 0; it is 2, and the order is as it was,
// where `from` is past `to`, one of the two slices is too short, or an entry's last number takes more than 24 bits.
#[unsafe(no_mangle)]
pub extern "C" fn order_append_new(
    order: &mut [OrderInfo],
    flat: &[u32],
    from: usize,
    to: usize,
) -> u64
    ensures { (result ≡ check_new (length order.old) flat.now from to)
        × (order.new ≡ unless_refused result order.old (copied order.old flat.now from to)) }
{
    if let Err(refusal) = order_copy::check_new(order.len(), flat, from, to) {
        return refusal.into();
    }
    for k in from..to {
        order_copy::append(order, k, order_copy::entry_at(flat, k));
    }
    0
}
