// Text appended to bytes; what stands before it and past it stays.
#![tactic(auto)]

ghost use Rattle.std.specs.Prelude.{[], ◌∷◌, ◌+◌};
ghost use Rattle.rules.specs.Listing.{decimal, field, line};
ghost use Rattle.writer.specs.Written.{Fits, Written};

// Bytes that text is put into, and the place where the next goes.
#[derive(Drop)]
pub struct Writer<'a> {
    pub out: &'a mut [u8],
    pub at: usize,
}

impl<'a> Writer<'a> {
    fn byte(&mut self, b: u8)
        requires { Fits self.old (b ∷ []) }
        ensures { Written self.old self.new (b ∷ []) }
    {
        self.out[self.at] = b;
        self.at += 1;
    }

    pub fn word(&mut self, word: &[u8])
        requires { Fits self.old word.now }
        ensures { Written self.old self.new word.now }
    {
        let end = self.at + word.len();
        self.out[self.at..end].copy_from_slice(word);
        self.at = end;
    }

    // A number in decimal: the digits before the last, then the last. At most 20 calls deep.
    pub fn decimal(&mut self, n: u64)
        requires { Fits self.old (decimal n) }
        ensures { Written self.old self.new (decimal n) }
    {
        if n >= 10 {
            self.decimal(n / 10);
        }
        self.byte(b'0' + (n % 10) as u8);
    }

    // A word and its number.
    pub fn field(&mut self, word: &[u8], n: u64)
        requires { Fits self.old (field word.now n) }
        ensures { Written self.old self.new (field word.now n) }
    {
        self.word(word);
        self.decimal(n);
    }

    // The same, as a line.
    pub fn line(&mut self, word: &[u8], n: u64)
        requires { Fits self.old (line word.now n) }
        ensures { Written self.old self.new (line word.now n) }
    {
        self.field(word, n);
        self.byte(b'\n');
    }
}
