// Numbers in a byte order, and parts of a slice. Past a slice's end every byte reads as 0.
ghost use Rattle.std.specs.Prelude.{◌≡◌, get_or, take, drop};
ghost use Rattle.numbers.specs.Numbers.{joined, u16_of, u32_of, shorts_of};
ghost use Rattle.numbers.specs.Bytes.{same};

// The order of a number's bytes.
#[derive(Clone, Copy, PartialEq, Eq, Debug)]
pub enum ByteOrder {
    Little,
    Big,
}

// Two 16-bit numbers.
#[derive(Clone, Copy, PartialEq, Eq, Debug)]
pub struct Pair {
    pub first: u16,
    pub second: u16,
}

// The byte at `at`.
pub fn u8_at(s: &[u8], at: usize) -> u8
    ensures { result ≡ get_or s.now at 0 }
{
    s.get(at).copied().unwrap_or(0)
}

// The part of `s` that starts at `at`; nothing past the end.
pub fn tail(s: &[u8], at: usize) -> &[u8]
    ensures { result.now ≡ drop at s.now }
{
    s.get(at..).unwrap_or(&[])
}

// The first `len` bytes of `s`; all of it where it is shorter.
pub fn head(s: &[u8], len: usize) -> &[u8]
    ensures { result.now ≡ take len s.now }
{
    s.get(..len).unwrap_or(s)
}

// Whether `a` and `b` hold the same bytes.
#[tactic(auto, using(crate::proofs::Same::same_pointwise))]
pub fn equals(a: &[u8], b: &[u8]) -> bool
    ensures { result ≡ same a.now b.now }
{
    a == b
}

// Two bytes as a 16-bit number.
pub fn joined_bytes(order: ByteOrder, a: u8, b: u8) -> u16
    ensures { result ≡ joined order 256 a b }
{
    match order {
        ByteOrder::Little => u16::from_le_bytes([a, b]),
        ByteOrder::Big => u16::from_be_bytes([a, b]),
    }
}

// The 16-bit number at the front of `s`.
#[tactic(auto, unfolding(crate::specs::Numbers::u16_of))]
pub fn u16_of(s: &[u8], order: ByteOrder) -> u16
    ensures { result ≡ u16_of order s.now }
{
    joined_bytes(order, u8_at(s, 0), u8_at(s, 1))
}

// The two 16-bit numbers at the front of `s`.
#[tactic(auto, unfolding(crate::specs::Numbers::shorts_of))]
pub fn shorts(s: &[u8], order: ByteOrder) -> Pair
    ensures { result ≡ shorts_of order s.now }
{
    Pair {
        first: u16_of(s, order),
        second: u16_of(tail(s, 2), order),
    }
}

// The 32-bit number at the front of `s`.
#[tactic(auto, unfolding(crate::specs::Numbers::u16_of, crate::specs::Numbers::u32_of))]
pub fn u32_of(s: &[u8], order: ByteOrder) -> u32
    ensures { result ≡ u32_of order s.now }
{
    let bytes = [u8_at(s, 0), u8_at(s, 1), u8_at(s, 2), u8_at(s, 3)];
    match order {
        ByteOrder::Little => u32::from_le_bytes(bytes),
        ByteOrder::Big => u32::from_be_bytes(bytes),
    }
}
