// A reader's bytes whole, and in records of one length.
ghost use Rattle.std.specs.Prelude.{◌≡◌, ◌-◌, ◌^◌, ◌<◌, IfOk, length, take};
ghost use Rattle.std.specs.Io.{ReadsAtMost};
ghost use Rattle.std.specs.Io.KnownBytes.{Consumes, IsAtEnd};
ghost use Rattle.std.specs.Iterator.{at_most};
ghost use Rattle.test_records.specs.Input.{YieldsRecord};

use std::io;
use std::io::{ErrorKind, Read};

// Reads until the buffer is full or the input ends, and answers how many bytes are at the buffer's start.
pub fn fill<R: Read>(from: &mut R, buffer: &mut [u8]) -> io::Result<usize>
    ensures bound { ReadsAtMost result buffer.new }
    ensures bytes { IfOk result (λ n. Consumes (R.remaining from.old) (R.remaining from.new) (take n buffer.new)) }
    ensures end { IfOk result (λ n. n < length buffer.new → IsAtEnd (R.remaining from.new)) }
{
    // kept: read_exact does not say how many bytes it read before the input ended, and read_to_end allocates.
    let mut done = 0;
    while done < buffer.len() {
        let n = from.read(&mut buffer[done..])?;
        if n == 0 {
            break;
        }
        done += n;
    }
    Ok(done)
}

// The next N bytes of a reader. The start of a record that the input's end cuts off is none.
fn next_record<const N: usize, R: Read>(from: &mut R) -> Option<io::Result<[u8; N]>>
    ensures { YieldsRecord (R.remaining from.old) result (R.remaining from.new) }
{
    let mut record = [0; N];
    match from.read_exact(&mut record) {
        Ok(()) => Some(Ok(record)),
        Err(e) if e.kind() == ErrorKind::UnexpectedEof => None,
        Err(e) => Some(Err(e)),
    }
}

// The records of a reader, N bytes each, in their order; at most `left` of them.
#[derive(Drop)]
pub struct Records<'a, R, const N: usize> {
    pub from: &'a mut R,
    pub left: u64,
}

impl<'a, R: Read, const N: usize> Records<'a, R, N> {
    // All of a reader's records.
    pub fn new(from: &'a mut R) -> Records<'a, R, N>
        ensures from { result.from.now ≡ from.entry.now }
        ensures left { result.left ≡ 2 ^ 64 - 1 }
    {
        Records {
            from,
            left: u64::MAX,
        }
    }
}

impl<R: Read, const N: usize> Iterator for Records<'_, R, N> {
    type Item = io::Result<[u8; N]>;

    ghost next_gives = { λ s r t. YieldsRecord (R.remaining s.from.now) r (R.remaining t.from.now) };

    ghost remaining = { λ s. at_most s.left };

    fn next(&mut self) -> Option<io::Result<[u8; N]>> {
        self.left = self.left.checked_sub(1)?;
        next_record(self.from)
    }

    // Says nothing: a reader does not know how many records it has.
    fn size_hint(&self) -> (usize, Option<usize>) {
        (0, None)
    }
}
