// An edit as records hold it.
ghost use Rattle.std.specs.Prelude.{◌≡◌};
ghost use Rattle.test_records.specs.Edit.{edit_in};

use crate::fields::number_at;
use numbers::io::{tail, u8_at};
use reading::geometry::Rectangle;

// An orientation by its number, and a cut.
#[derive(Clone, Copy, PartialEq, Eq, Debug)]
pub enum Edit {
    Orient(u32),
    Cut(Rectangle),
}

impl Edit {
    // The edit at the front of some bytes: its code in the first, and behind 9 the orientation's number in a byte, behind any other the
    // cut's four 32-bit numbers.
    pub fn of(bytes: &[u8]) -> Edit
        ensures { result ≡ edit_in bytes.now }
    {
        let taken = tail(bytes, 1);
        if u8_at(bytes, 0) == 9 {
            Edit::Orient(u32::from(u8_at(taken, 0)))
        } else {
            Edit::Cut(Rectangle {
                left: number_at(taken, 0),
                top: number_at(taken, 4),
                width: number_at(taken, 8),
                height: number_at(taken, 12),
            })
        }
    }
}
