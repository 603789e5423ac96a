// Text in a lent buffer: bytes, and numbers in decimal. What would lie past the buffer's end is not put, but counted.
#![tactic(auto)]

ghost use Rattle.std.specs.Prelude.{◌<◌, ◌^◌, ◌≡◌, [], ◌∷◌, ◌+◌, length};
ghost use Rattle.text.specs.Number.{digits_of, pair};

mod place; // place.rt: bytes and numbers at a place of a buffer

// A lent buffer, and the place where its next text goes.
// kept: no std::fmt::Write or io::Write, whose clauses speak of an Ok alone; what stands here (Put) holds of each call
#[derive(Drop)]
pub struct Writer<'a> {
    pub out: &'a mut [u8],
    pub at: usize,
    ghost place_in_bounds: { at < 2 ^ 64 },
}

impl<'a> Writer<'a> {
    ghost use Rattle.text.specs.Put.{Writes, WritesUpTo};

    // Writes from a place of the buffer on.
    pub fn new(out: &'a mut [u8], at: usize) -> Writer<'a>
        ensures same_buffer { result.out.ghost_name ≡ out.entry.ghost_name }
        ensures bytes { result.out.now ≡ out.old }
        ensures place { result.at ≡ at }
    {
        Writer { out, at }
    }

    // One byte.
    pub fn byte(&mut self, b: u8)
        ensures { Writes self.old (b ∷ []) self.new }
    {
        self.at = crate::place::put_byte(self.out, self.at, b);
    }

    // The bytes of a piece.
    pub fn bytes(&mut self, piece: &[u8])
        ensures { Writes self.old piece.now self.new }
    {
        for &b in piece {
            self.byte(b);
        }
    }

    // A number in decimal, without leading zeros.
    pub fn number(&mut self, n: u32)
        ensures { WritesUpTo self.old (digits_of n) 10 self.new }
    {
        self.at = crate::place::put_number(self.out, self.at, n);
    }

    // A word and a number.
    pub fn pair(&mut self, word: &[u8], n: u32)
        ensures { WritesUpTo self.old (pair word.now n) (length word.now + 10) self.new }
    {
        self.bytes(word);
        self.number(n);
    }
}
