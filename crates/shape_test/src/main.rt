// Prints for each pair of sizes of standard input whether the two have one shape, by shape::same_shape: a line `true` or `false`. A pair
// is 16 bytes, four 32-bit numbers: the frame's width and height, the picture's width and height. Numbers are big-endian. No contract
// can say what is printed: that is held to `stdout`.
#![tactic(auto)]

use shape::same_shape;
use std::io;
use test_records::fields::size_at;
use test_records::input::Records;

fn main(rt: HostRuntime) -> io::Result<()> {
    for pair in Records::<_, 16>::new(&mut rt.stdin()) {
        let pair = pair?;
        println!(rt; "{}", same_shape(size_at(&pair, 0), size_at(&pair, 8)))?;
    }
    Ok(())
}
