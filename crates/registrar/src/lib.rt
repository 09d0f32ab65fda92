// Delayed registrations (document 01: those that wait), in a chain for each place, newest first, and the stack of those that came off.
// The waiting storage has a head link for each place and a link for each registration; chains and stack share the registrations' links.
// A link is 0 for none, else the registration plus 1: a number and no Option, since it lies in the caller's storage (the C interface).
// This crate alone knows where they lie, by `head`, `set_head`, `link`, `set_link` and `clear`: of the quarters of v numbers, the first
// holds the heads, the second the links.
#![tactic(auto)]

ghost use Rattle.std.specs.Prelude.{◌≡◌, ◌≤◌, ◌<◌, length};
ghost use Rattle.rules.specs.Checks.{waiting_needed};
ghost use Rattle.zeros.specs.Zeros.{Cleared};
ghost use Rattle.registrar.specs.Reading.{head_at, link_at};
ghost use Rattle.registrar.specs.Delayed.{with_head, with_link, Chained, Joins, Stacks, Turns, Splices, Oldest, Advancing, AdvancesSet, AdvancesPlaced};

// Nothing waits under any place.
pub fn clear(waiting: &mut [u64], v: usize)
    requires { waiting_needed v ≤ length waiting.old }
    ensures { Cleared 0 v waiting.old waiting.new }
{
    waiting[..v].fill(0);
}

// Place p's head link.
fn head(waiting: &[u64], p: usize) -> u64
    requires { p < length waiting.now }
    ensures { result ≡ head_at waiting.now p }
{
    waiting[p]
}

// Stores place p's head link.
fn set_head(waiting: &mut [u64], p: usize, to: u64)
    requires { p < length waiting.old }
    ensures { waiting.new ≡ with_head waiting.old p to }
{
    waiting[p] = to;
}

// Registration r's link.
fn link(waiting: &[u64], v: usize, r: usize) -> u64
    requires { (r < v) × (waiting_needed v ≤ length waiting.now) }
    ensures { result ≡ link_at waiting.now v r }
{
    waiting[v + r]
}

// Stores registration r's link.
fn set_link(waiting: &mut [u64], v: usize, r: usize, to: u64)
    requires { (r < v) × (waiting_needed v ≤ length waiting.old) }
    ensures { waiting.new ≡ with_link waiting.old v r to }
{
    waiting[v + r] = to;
}

// Registration r joins those that wait under place p.
pub fn delay(waiting: &mut [u64], v: usize, p: usize, r: usize)
    requires { (p < v) × (r < v) × (waiting_needed v ≤ length waiting.old) }
    ensures { Joins waiting.old v p r waiting.new }
{
    let newest = head(waiting, p);
    set_link(waiting, v, r, newest);
    set_head(waiting, p, (r + 1) as u64);
}

// Registration r is put on the stack whose top link is `top`; the new top link.
pub fn stack(waiting: &mut [u64], v: usize, r: usize, top: u64) -> u64
    requires { (r < v) × (waiting_needed v ≤ length waiting.old) }
    ensures { Stacks waiting.old v r top result waiting.new }
{
    set_link(waiting, v, r, top);
    (r + 1) as u64
}

// The link under registration r: the stack's top link once r is taken off it.
pub fn next(waiting: &[u64], v: usize, r: usize) -> u64
    requires { (r < v) × (waiting_needed v ≤ length waiting.now) }
    ensures { result ≡ link_at waiting.now v r }
{
    link(waiting, v, r)
}

// Turns the chain at link `from` round onto the stack whose top link is `onto`; the new top link. Registrations descend along a chain,
// so the loop ends.
fn turn_onto(waiting: &mut [u64], v: usize, from: u64, onto: u64) -> u64
    requires { Chained waiting.old v from }
    ensures { Turns waiting.old v from onto result waiting.new }
{
    let mut h = from;
    let mut top = onto;
    while h != 0 {
        let r = (h - 1) as usize;
        let next = link(waiting, v, r);
        set_link(waiting, v, r, top);
        top = h;
        h = next;
    }
    top
}

// Takes the chains of the places from lo to hi off, onto an empty stack, so that the lowest place's oldest is on top: the order after a
// set. The places are walked downward.
pub fn advance_set(waiting: &mut [u64], v: usize, lo: usize, hi: usize) -> u64
    requires { Advancing waiting.old v lo hi 0 }
    ensures { AdvancesSet waiting.old v lo hi result waiting.new }
{
    let mut top: u64 = 0;
    for p in (lo..hi).rev() {
        let newest = head(waiting, p);
        top = turn_onto(waiting, v, newest, top);
    }
    top
}

// The oldest registration of the chain at link `from`, which is not empty.
fn oldest(waiting: &[u64], v: usize, from: u64) -> usize
    requires { (Chained waiting.now v from) × (0 < from) }
    ensures { Oldest waiting.now v from result }
{
    let mut r = (from - 1) as usize;
    let mut next = link(waiting, v, r);
    while next != 0 {
        r = (next - 1) as usize;
        next = link(waiting, v, r);
    }
    r
}

// Puts the chain at link `from` as it is on the stack whose top link is `onto`; the new top link.
fn splice(waiting: &mut [u64], v: usize, from: u64, onto: u64) -> u64
    requires { Chained waiting.old v from }
    ensures { Splices waiting.old v from onto result waiting.new }
{
    if from == 0 {
        return onto;
    }
    let last = oldest(waiting, v, from);
    set_link(waiting, v, last, onto);
    from
}

// Takes the chains of the places from lo to hi off, onto the stack whose top link is `top`, so that the highest place's newest is on top:
// the order after a placing. The places are walked upward.
pub fn advance_placed(waiting: &mut [u64], v: usize, lo: usize, hi: usize, top: u64) -> u64
    requires { Advancing waiting.old v lo hi top }
    ensures { AdvancesPlaced waiting.old v lo hi top result waiting.new }
{
    let mut t = top;
    for p in lo..hi {
        let newest = head(waiting, p);
        t = splice(waiting, v, newest, t);
    }
    t
}
