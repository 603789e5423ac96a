// The numbers and sizes of a record, big-endian. Past the record's end every byte reads as 0.
ghost use Rattle.std.specs.Prelude.{◌≡◌, drop};
ghost use Rattle.numbers.specs.Numbers.{u16_of, u32_of};
ghost use Rattle.numbers.specs.declared.io.ByteOrder.TheVariants.{Big};
ghost use Rattle.test_records.specs.Fields.{size_of, given_size};

use numbers::io::{ByteOrder, tail};
use reading::geometry::Size;

// The 16-bit number at a place.
pub fn short_at(bytes: &[u8], at: usize) -> u16
    ensures { result ≡ u16_of Big (drop at bytes.now) }
{
    numbers::io::u16_of(tail(bytes, at), ByteOrder::Big)
}

// The 32-bit number at a place.
pub fn number_at(bytes: &[u8], at: usize) -> u32
    ensures { result ≡ u32_of Big (drop at bytes.now) }
{
    numbers::io::u32_of(tail(bytes, at), ByteOrder::Big)
}

// The size at a place.
pub fn size_at(bytes: &[u8], at: usize) -> Size
    ensures { result ≡ size_of (drop at bytes.now) }
{
    let size = tail(bytes, at);
    Size {
        width: number_at(size, 0),
        height: number_at(size, 4),
    }
}

// The size at a place, where one is given.
pub fn given_at(bytes: &[u8], at: usize, is_given: bool) -> Option<Size>
    ensures { result ≡ given_size is_given (drop at bytes.now) }
{
    is_given.then_some(size_at(bytes, at))
}
