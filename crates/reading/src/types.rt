// The TIFF field types: how many bytes one value takes.
ghost use Rattle.std.specs.Prelude.{◌≡◌};
ghost use Rattle.reading.specs.Block.{size_of};

// kept: numbers and no enum: an entry of any other type is found too, and its type is compared with these.
// Text, ending in a zero byte.
pub const ASCII: u16 = 2;
// 16-bit numbers.
pub const SHORT: u16 = 3;
// 32-bit numbers.
pub const LONG: u16 = 4;
// Bytes that only the tag gives a meaning to.
pub const UNDEFINED: u16 = 7;

// The size of one value of each type, 0 where there is no such type.
const SIZES: [u8; 14] = [0, 1, 1, 2, 4, 8, 1, 1, 2, 4, 8, 4, 8, 4];

// The size in bytes of one value of type `typ`; 0 for a type that is passed over.
#[tactic(auto, unfolding(crate::specs::Block::size_of))]
pub fn type_size(typ: u16) -> u8
    ensures { result ≡ size_of typ }
{
    SIZES.get(usize::from(typ)).copied().unwrap_or(0)
}
