// Answers the whole script of standard input at once, by script::answer, and prints the text; `short` where it does not fit. The
// script is malformed lines of every kind between well-formed ones. No contract can say what is printed: that is held to `stdout`.
#![tactic(auto)]

use numbers::io::head;
use std::io;
use test_records::input::fill;

// Answers a script into a buffer, and prints what it is answered.
fn print_answers(rt: &impl Print, script: &[u8], out: &mut [u8]) -> io::Result<()> {
    match script::answer(script, out) {
        Some(len) => rt.write_all(head(out, len)),
        None => rt.print("short\n"),
    }
}

fn main(rt: HostRuntime) -> io::Result<()> {
    let mut script = [0; 327680];
    let n = fill(&mut rt.stdin(), &mut script)?;
    let mut out = [0; 131072];
    print_answers(&rt, &script[..n], &mut out)
}
