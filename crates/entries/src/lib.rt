// Entries in flat slices, SIZE numbers each: value, added, accepted, and parallelism and lane in one. A span's entry has its parallelism
// only once it is appended to the order, and 0 until then. Flat numbers, since the order has this layout in the C interface.
#![tactic(auto)]

ghost use Rattle.std.specs.Prelude.{◌≡◌, ◌+◌, ◌≤◌};
ghost use Rattle.rules.specs.Limits.{most_parallelism};
ghost use Rattle.entries.specs.Entries.{packed, unpacked, capacity, entry_at, fits, has_entry, held_entry, with_entry, row, annotated, appended};

// The numbers of an entry.
pub const SIZE: usize = 4;

// An entry's last number is its lane times this, plus its parallelism.
const LANE_RADIX: u32 = 65536;

// A parallelism and a lane in one number.
pub fn packed(parallelism: u16, lane: u16) -> u32
    ensures { result ≡ packed parallelism lane }
{
    lane as u32 * LANE_RADIX + parallelism as u32
}

// How many entries a slice has room for.
pub fn capacity(s: &[u32]) -> usize
    ensures { result ≡ capacity s.now }
{
    s.len() / SIZE
}

#[derive(Clone, Copy)]
pub struct Entry {
    pub value: u32,
    pub added: u32,
    pub accepted: u32,
    pub parallelism: u16,
    pub lane: u16,
}

// The entry of four numbers.
fn unpacked(value: u32, added: u32, accepted: u32, last: u32) -> Entry
    ensures { result ≡ unpacked value added accepted last }
{
    Entry {
        value,
        added,
        accepted,
        parallelism: (last % LANE_RADIX) as u16,
        lane: (last / LANE_RADIX) as u16,
    }
}

// The entry at index k.
pub fn load(s: &[u32], k: usize) -> Entry
    requires { has_entry s.now k }
    ensures { result ≡ entry_at s.now k }
{
    let i = SIZE * k;
    unpacked(s[i], s[i + 1], s[i + 2], s[i + 3])
}

// The parallelism of the entry at index k.
pub fn parallelism_at(s: &[u32], k: usize) -> u32
    requires { has_entry s.now k }
    ensures { result ≡ (entry_at s.now k).parallelism }
{
    s[SIZE * k + 3] % LANE_RADIX
}

// Stores an entry at index k; all else stays.
pub fn store(s: &mut [u32], k: usize, e: Entry)
    requires { has_entry s.old k }
    ensures { s.new ≡ with_entry s.old k e }
{
    let i = SIZE * k;
    s[i] = e.value;
    s[i + 1] = e.added;
    s[i + 2] = e.accepted;
    s[i + 3] = packed(e.parallelism, e.lane);
}

// Stores an entry as a span holds it, with 0 for its parallelism.
pub fn store_held(s: &mut [u32], k: usize, e: Entry)
    requires { has_entry s.old k }
    ensures { s.new ≡ with_entry s.old k (held_entry e) }
{
    store(
        s,
        k,
        Entry {
            parallelism: 0,
            ..e
        },
    );
}

// Appends the a entries of the row at base to the order at n, each with its parallelism, the next span having b.
pub fn append_row(spans: &[u32], order: &mut [u32], base: usize, n: usize, p: u32, a: u32, b: u32)
    requires le_p { (1 ≤ p) × ((a ≤ p + 1) × ((b ≤ p + 1) × (p ≤ most_parallelism))) }
    requires fits { fits spans.now (base + a) }
    requires fits_2 { fits order.old (n + a) }
    ensures { order.new ≡ appended order.old n (annotated p a b 0 (row spans.now base a)) }
{
    for q in 0..a {
        let j = q as usize;
        let e = load(spans, base + j);
        let parallelism = choice::parallelism_of(p, a, b, q) as u16;
        store(order, n + j, Entry { parallelism, ..e });
    }
}
