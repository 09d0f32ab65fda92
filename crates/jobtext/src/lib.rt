// The text of a job below its lines: the first byte of a kind, the end of a line, a number, a list of numbers.
#![tactic(auto)]

ghost use Rattle.std.specs.Prelude.{[], ◌∷◌, ◌++◌, ◌≡◌, ◌+◌, ◌*◌, ◌≤◌, ◌<◌, length, take, drop, position, nat_eq};
ghost use Rattle.rules.specs.Model.{member};
ghost use Rattle.rules.specs.Job.{digits_from, in_64_bits, number as Job·number};
ghost use Rattle.jobtext.specs.Text.{before, line_end, low_bytes, marks, Passed, value_of, ListRead};

// How many bytes stand before the first byte `b`, where there is one.
fn first(s: &[u8], b: u8) -> Option<usize>
    ensures { result ≡ position (λ x. nat_eq x b) s.now }
{
    s.iter().position(|x| *x == b)
}

// The place of the first byte `b` at or after `from`, or the length where there is none.
pub fn find(s: &[u8], from: usize, b: u8) -> usize
    requires { from ≤ length s.now }
    ensures { result ≡ from + before b (drop from s.now) }
{
    match first(&s[from..], b) {
        Some(k) => from + k,
        None => s.len(),
    }
}

// Two bytes as one number, the first lowest.
fn u16_of(a: u8, b: u8) -> u16
    ensures { low_bytes 2 result ≡ a ∷ (b ∷ []) }
{
    (b as u16) * 256 + (a as u16)
}

// The two bytes from i on; the four; the eight. The compiler makes one load of all.
fn u16_at(s: &[u8], i: usize) -> u16
    requires { i + 2 ≤ length s.now }
    ensures { low_bytes 2 result ≡ take 2 (drop i s.now) }
{
    u16_of(s[i], s[i + 1])
}

fn u32_at(s: &[u8], i: usize) -> u32
    requires { i + 4 ≤ length s.now }
    ensures { low_bytes 4 result ≡ take 4 (drop i s.now) }
{
    let low = u16_at(s, i);
    let high = u16_at(s, i + 2);
    (high as u32) * 65536 + (low as u32)
}

fn word_at(s: &[u8], i: usize) -> u64
    requires { i + 8 ≤ length s.now }
    ensures { low_bytes 8 result ≡ take 8 (drop i s.now) }
{
    let low = u32_at(s, i);
    let high = u32_at(s, i + 4);
    (high as u64) * 4294967296 + (low as u64)
}

// Of a word: each byte 10; the low seven bits of each byte; the eighth.
const NEWLINES: u64 = 0x0a0a0a0a0a0a0a0a;

const LOW_SEVEN: u64 = 0x7f7f7f7f7f7f7f7f;

const EIGHTH: u64 = 0x8080808080808080;

// The eighth bit of each byte of a word that is 10, and no other bit. A byte that differs from 10, in its low seven bits or in its eighth,
// has its eighth bit set before the last step, and no sum carries from a byte into the next.
fn newlines(w: u64) -> u64
    ensures { result ≡ marks (low_bytes 8 w) }
{
    let x = w ^ NEWLINES;
    let y = (x & LOW_SEVEN) + LOW_SEVEN;
    ((y | x) & EIGHTH) ^ EIGHTH
}

// How many of a word's bytes stand before its first 10: 8 where none is 10.
fn newline_in(w: u64) -> usize
    ensures { result ≡ before 10 (low_bytes 8 w) }
{
    let m = newlines(w);
    (u64::trailing_zeros(m) / 8) as usize
}

// Whether one of two words' bytes is 10, by one test.
fn either_has_newline(v: u64, w: u64) -> bool
    ensures { result ≡ member 10 (low_bytes 8 v ++ low_bytes 8 w) }
{
    (newlines(v) | newlines(w)) != 0
}

// Passes over bytes without a 10, two words at a time.
fn pass_pairs(s: &[u8], from: usize) -> usize
    requires { from ≤ length s.now }
    ensures { Passed 16 s.now from result }
{
    let mut i = from;
    while 16 <= s.len() - i {
        let v = word_at(s, i);
        let w = word_at(s, i + 8);
        if either_has_newline(v, w) {
            return i;
        }
        i += 16;
    }
    i
}

// The place of the first byte 10 at or after `from`, or the length where there is none. A line is mostly short, so a single word comes
// first; then two at a time, up to a pair that has a 10; the odd bytes at the end come singly.
pub fn line_end(s: &[u8], from: usize) -> usize
    requires { from ≤ length s.now }
    ensures { result ≡ from + before 10 (drop from s.now) }
{
    let mut i = from;
    while 8 <= s.len() - i {
        let w = word_at(s, i);
        let k = newline_in(w);
        if k < 8 {
            return i + k;
        }
        i = pass_pairs(s, i + 8);
    }
    find(s, i, b'\n')
}

// The same from any start: the length where it lies past the bytes.
#[unsafe(no_mangle)]
pub extern "C" fn job_line_end(job: &[u8], from: usize) -> usize
    ensures { result ≡ line_end job.now from }
{
    if job.len() < from {
        return job.len();
    }
    line_end(job, from)
}

// Digits, with a value of 64 bits; it stops at the first digit that passes them.
fn digits(s: &[u8]) -> Option<u64>
    ensures { value_of result ≡ in_64_bits (digits_from 0 s.now) }
{
    let mut x: u64 = 0;
    for &b in s {
        if !b.is_ascii_digit() {
            return None;
        }
        let d = (b - b'0') as u64;
        x = x.checked_mul(10)?.checked_add(d)?;
    }
    Some(x)
}

// A number of a job: 1 to 20 digits, no leading zero but 0 itself, 64 bits.
pub fn read_number(s: &[u8]) -> Option<u64>
    ensures { value_of result ≡ Job·number s.now }
{
    if s.len() == 0 {
        return None;
    }
    if s.len() > 20 {
        return None;
    }
    if s.len() == 1 {
        return digits(s);
    }
    if s[0] == b'0' {
        return None;
    }
    digits(s)
}

// Reads a list into `into` from `off` on and leaves what stands before `off`. A number takes a byte and a comma, so half the bytes suffice.
pub fn read_list(s: &[u8], into: &mut [u64], off: usize) -> Option<usize>
    requires { 2 * off + length s.now < 2 * length into.old }
    ensures { ListRead into.old into.new off s.now result }
{
    if s.len() == 0 {
        return Some(0);
    }
    let mut at = 0;
    let mut n = 0;
    while at <= s.len() {
        let e = find(s, at, b',');
        into[off + n] = read_number(&s[at..e])?;
        n += 1;
        if e == s.len() {
            return Some(n);
        }
        at = e + 1;
    }
    None
}
