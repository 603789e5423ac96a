// A load as records hold it.
ghost use Rattle.std.specs.Prelude.{◌≡◌, drop};
ghost use Rattle.test_records.specs.Fields.{given_size};
ghost use Rattle.test_records.specs.Load.{has_raw, has_picture, model_in, block_in};

use crate::fields::{given_at, short_at};
use numbers::io::{head, tail, u8_at};
use reading::geometry::Size;

// A byte of flags (1 raw size, 2 picture size), the raw and the picture size as four 32-bit numbers, the model's length in a byte, the
// block's length in two, the model, the block.
#[derive(Clone, Copy, PartialEq, Eq, Debug)]
pub struct Load<'a> {
    pub raw: Option<Size>,
    pub picture: Option<Size>,
    pub model: &'a [u8],
    pub block: &'a [u8],
}

impl<'a> Load<'a> {
    // The load at the front of some bytes.
    pub fn of(bytes: &'a [u8]) -> Load<'a>
        ensures raw { result.raw ≡ given_size (has_raw bytes.now) (drop 1 bytes.now) }
        ensures picture { result.picture ≡ given_size (has_picture bytes.now) (drop 9 bytes.now) }
        ensures model { result.model.now ≡ model_in bytes.now }
        ensures block { result.block.now ≡ block_in bytes.now }
    {
        let flags = u8_at(bytes, 0);
        let model_len = usize::from(u8_at(bytes, 17));
        let block_len = usize::from(short_at(bytes, 18));
        let texts = tail(bytes, 20);
        Load {
            raw: given_at(bytes, 1, flags % 2 == 1),
            picture: given_at(bytes, 9, flags / 2 % 2 == 1),
            model: head(texts, model_len),
            block: head(tail(texts, model_len), block_len),
        }
    }
}
