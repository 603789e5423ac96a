// Bytes and numbers at a place of a lent buffer. A function gives the next place; what would lie past the buffer's end is not put, but
// counted.
ghost use Rattle.std.specs.Prelude.{◌≤◌, ◌≡◌, [], ◌∷◌, length};
ghost use Rattle.text.specs.Number.{digits_of, last_digit};
ghost use Rattle.text.specs.Put.{Put};

// The character of the last digit of a number.
fn last_digit(n: u32) -> u8
    ensures { result ≡ last_digit n }
{
    b'0' + (n % 10) as u8
}

// One byte at a place of a buffer: gives the next place.
// kept: `byte` and `number` through a writer throughout, in place of this and the next, hold the place in memory at every digit: a list
// of 39 points took 1.4 times as long.
pub fn put_byte(out: &mut [u8], at: usize, b: u8) -> usize
    ensures { Put out.old at (b ∷ []) out.new result }
{
    if at < out.len() {
        out[at] = b;
        return at + 1;
    }
    at.saturating_add(1)
}

// A number in decimal at a place of a buffer, without leading zeros: gives the next place.
pub fn put_number(out: &mut [u8], at: usize, n: u32) -> usize
    ensures { (Put out.old at (digits_of n) out.new result) × (length (digits_of n) ≤ 10) }
{
    let one_digit = n < 10;
    if one_digit {
        return put_byte(out, at, last_digit(n));
    }
    let next = put_number(out, at, n / 10);
    put_byte(out, next, last_digit(n))
}
