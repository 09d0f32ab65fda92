// The lines of a job: what a line says.
#![tactic(auto)]

ghost use Rattle.std.specs.Prelude.{true, false, ◌≡◌, ◌+◌, ◌*◌, ◌<◌, length, drop, MatchOption};
ghost use Rattle.std.specs.Str.{bytes_eq};
ghost use Rattle.jobline.specs.Lines.{begins, NoAdd, PlainRead, LineRead};

// What a line says. The numbers of a list stand in storage, and the case has their count.
#[derive(Clone, Copy)]
pub enum Line {
    Parallelism(u64),
    Places(u64),
    Set(u64),
    Lane(u64),
    Inputs(usize),
    Outputs(usize),
    Flush,
    Final,
}

// Whether the line starts with the key. It stands in place of std's `strip_prefix` and of `==`, which are one loop for all keys, called each
// time; this one is inlined, and unrolled for each key. By cachegrind, `job_needs` on a job of 8,190 lines `flush=1` takes 1.57 million
// instructions with std's, and 1.06 million with it.
#[inline(always)]
fn starts(s: &[u8], key: &[u8]) -> bool
    ensures { result ≡ begins key.now s.now }
{
    for (i, k) in key.iter().enumerate() {
        if i >= s.len() || s[i] != *k {
            return false;
        }
    }
    true
}

// What follows the key, of a line that starts with it.
#[inline(always)]
fn after<'a>(s: &'a [u8], key: &[u8]) -> Option<&'a [u8]>
    ensures { MatchOption result (begins key.now s.now ≡ false) (λ rest. (begins key.now s.now ≡ true) × (rest.now ≡ drop (length key.now) s.now)) }
{
    if starts(s, key) {
        Some(&s[key.len()..])
    } else {
        None
    }
}

// Whether the line is the text.
#[inline(always)]
fn equals(s: &[u8], text: &[u8]) -> bool
    ensures { result ≡ bytes_eq s.now text.now }
{
    s.len() == text.len() && starts(s, text)
}

// Reads a line that is none of an add's.
fn read_plain(s: &[u8]) -> Option<Line>
    requires { NoAdd s.now }
    ensures { PlainRead s.now result }
{
    if let Some(number) = after(s, b"parallelism=") {
        let n = jobtext::read_number(number)?;
        return Some(Line::Parallelism(n));
    }
    if let Some(number) = after(s, b"places=") {
        let n = jobtext::read_number(number)?;
        return Some(Line::Places(n));
    }
    if let Some(number) = after(s, b"set=") {
        let n = jobtext::read_number(number)?;
        return Some(Line::Set(n));
    }
    if equals(s, b"flush=1") {
        return Some(Line::Flush);
    }
    if equals(s, b"final=1") {
        return Some(Line::Final);
    }
    None
}

// Reads a line; the numbers of its list go into `into` from `off` on, and what stands before `off` is left.
pub fn read_line(s: &[u8], into: &mut [u64], off: usize) -> Option<Line>
    requires { 2 * off + length s.now < 2 * length into.old }
    ensures { LineRead into.old into.new off s.now result }
{
    if let Some(list) = after(s, b"in=") {
        let n = jobtext::read_list(list, into, off)?;
        return Some(Line::Inputs(n));
    }
    if let Some(list) = after(s, b"out=") {
        let n = jobtext::read_list(list, into, off)?;
        return Some(Line::Outputs(n));
    }
    if let Some(number) = after(s, b"lane=") {
        let n = jobtext::read_number(number)?;
        return Some(Line::Lane(n));
    }
    read_plain(s)
}
