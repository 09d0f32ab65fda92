// The guide's window by value, its rotation, and a location in a span.
#![tactic(auto)]

ghost use Rattle.std.specs.Prelude.{◌≡◌, ◌++◌, ◌∷◌, [], ◌+◌, ◌^◌, ◌<◌, drop, get_or};
ghost use Rattle.window.specs.Rotate.{rotated};

// How many spans the window has (the Rust's GUIDE_SIZE), and the index of the last.
pub const SPANS: usize = 32;

pub const LAST: usize = SPANS - 1;

// The 32 spans: their numbers, the row of the span storage that each has, and their lengths. Three arrays: the theorems speak of the lengths
// and the numbers as lists (`matched` and `chosen_by` of crate choice, `view` and `Laid` of crate buffer).
#[derive(Clone, Copy)]
pub struct Window {
    pub ids: [u32; SPANS],
    pub rows: [u8; SPANS],
    pub lens: [u16; SPANS],
}

// Where a value lies: its span's number, and its position in it.
#[derive(Clone, Copy)]
pub struct Location {
    pub span: u32,
    pub pos: u32,
}

// The array with its first element gone and x at the end. A loop: with `copy_within(1.., 0)` a placing that releases a span ran 667
// instructions in place of 527, and more with `copy_from_slice`.
pub fn shift<T: Copy>(a: [T; SPANS], x: T) -> [T; SPANS]
    ensures { result ≡ drop 1 a ++ (x ∷ []) }
{
    let mut r = a;
    for i in 0..LAST {
        r[i] = a[i + 1];
    }
    r[LAST] = x;
    r
}

// The window after the release of its first span: the new last span takes the next number, length 0 and the row that became free.
pub fn rotate(w: Window) -> Window
    requires { get_or w.ids 31 0 + 1 < 2 ^ 32 }
    ensures { result ≡ rotated w }
{
    let last = w.ids[LAST];
    let first = w.rows[0];
    Window {
        ids: shift(w.ids, last + 1),
        lens: shift(w.lens, 0),
        rows: shift(w.rows, first),
    }
}
