// The listing of an accepted job from the session's order and rows, and what a refused job prints.
#![tactic(auto)]

ghost use Rattle.std.specs.Prelude.{◌≡◌, ◌+◌, ◌*◌, ◌≤◌, ◌<◌, ◌^◌, length};
ghost use Rattle.rules.specs.Listing.{least as Listing·least, floor as Listing·floor, entry_line, rejection};
ghost use Rattle.entries.specs.Entries.{entry_of, fits};
ghost use Rattle.writer.specs.Wrote.{Wrote};
ghost use Rattle.writer.specs.Written.{Written};
ghost use Rattle.listing.specs.Listed.{head_bytes, line_bytes, rejection_bytes, entries_from, lines_from, listed, Ready};

use entries::Entry;
use writer::Writer;

// An entry's line: its order index, added, accepted and parallelism, its row's written, and its lane.
fn put_entry(w: &mut Writer, index: u64, e: Entry, written: u32)
    requires { (index < 2 ^ 32) × (w.old.at + line_bytes ≤ length w.old.out.now) }
    ensures { (Written w.old w.new (entry_line index (entry_of e) written)) × (w.new.at ≤ w.old.at + line_bytes) }
{
    w.field(b"order=", index);
    w.field(b" added=", e.added as u64);
    w.field(b" accepted=", e.accepted as u64);
    w.field(b" parallelism=", e.parallelism as u64);
    w.field(b" written=", written as u64);
    w.line(b" lane=", e.lane as u64);
}

// The lines of the first n entries, one after another.
fn put_entries(order: &[u32], rows: &[u32], w: &mut Writer, n: usize)
    requires { (Ready order.now rows.now n) × (w.old.at + line_bytes * n ≤ length w.old.out.now) }
    ensures { Written w.old w.new (lines_from order.now rows.now 0 n) }
{
    for i in 0..n {
        let e = entries::load(order, i);
        let written = records::written_of(rows, e.added);
        put_entry(w, i as u64, e, written);
    }
}

// The smallest parallelism of the first n entries, 0 where there are none.
fn least(order: &[u32], n: usize) -> u32
    requires { fits order.now n }
    ensures { result ≡ Listing·least (entries_from order.now 0 n) }
{
    if n == 0 {
        return 0;
    }
    let mut least = entries::parallelism_at(order, 0);
    for i in 1..n {
        least = least.min(entries::parallelism_at(order, i));
    }
    least
}

// The smallest parallelism of those of the first n entries whose index plus p is at most n, 0 with no such entry: all count but the last
// p - 1, and with p = 0 all.
fn floor(order: &[u32], n: usize, p: u32) -> u32
    requires { fits order.now n }
    ensures { result ≡ Listing·floor p (entries_from order.now 0 n) }
{
    let p = p as usize;
    if p == 0 {
        return least(order, n);
    }
    if n < p {
        return 0;
    }
    least(order, n - p + 1)
}

// An accepted job's listing, from the start of `out` on.
pub fn put_listing(
    order: &[u32],
    rows: &[u32],
    out: &mut [u8],
    n: usize,
    p: u32,
    places: u32,
    median: u32,
) -> usize
    requires { (Ready order.now rows.now n) × (head_bytes + line_bytes * n ≤ length out.old) }
    ensures { Wrote out.old out.new 0 result (listed order.now rows.now n p places median) }
{
    let low = floor(order, n, p);
    let mut w = Writer { out, at: 0 };
    w.line(b"status=", 0);
    w.line(b"entries=", n as u64);
    w.line(b"places=", places as u64);
    w.line(b"floor=", low as u64);
    w.line(b"median=", median as u64);
    put_entries(order, rows, &mut w, n);
    w.at
}

// What a refused job prints: its number and its line.
pub fn put_rejection(out: &mut [u8], line: u64, code: u64) -> usize
    requires { rejection_bytes ≤ length out.old }
    ensures { Wrote out.old out.new 0 result (rejection line code) }
{
    let mut w = Writer { out, at: 0 };
    w.line(b"status=", code);
    w.line(b"line=", line);
    w.at
}
