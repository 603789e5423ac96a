// The program: reads call lines from standard input, of any length and in any pieces, and writes the answers to standard output. What
// has come is answered before more is read. No contract can speak of a file descriptor: proved is what is made of a read (`after_read`)
// and which bytes of the buffer, the first ones, are the text for a write (`serve_once`, `finish`). That they are handed to it and go
// out, that only a write that fails stops the serving, and that a signal is told from other failures, is tested (tools/pipe-test and
// tools/reference/compare-lines run the program, and `stdout` holds 01's whole case).
#![tactic(auto)]

ghost use Rattle.std.specs.Prelude.{◌≡◌, ◌≤◌, length, take};
ghost use Rattle.std.proofs.lemmas.List.Edits.{sets};
ghost use Rattle.session.specs.Answering.{most_text};
ghost use Rattle.stream.specs.Stream.{line_room, last_text};
ghost use Rattle.focusdesk.specs.Served.{ServesOnce, Serves, Gets, ReadsOnce};

use sheet::Sheet;
use std::io;
use std::io::{ErrorKind, Read};
use stream::LINE_ROOM;

// What a read leaves: the sheet, how much of a line is held, whether every write of a served part went out, and whether there may be
// more to read.
#[derive(Clone, Copy)]
struct After {
    sheet: Sheet,
    held: usize,
    sent: bool,
    more: bool,
}

// What a read answered: how many bytes came, or that it failed, and whether a signal interrupted it.
#[derive(Clone, Copy, PartialEq, Eq, Debug)]
enum Got {
    Bytes(usize),
    Interrupted,
    Failed,
}

// What a write was handed, the first bytes of a buffer, and whether all of them went out.
#[derive(Clone, Copy, PartialEq, Eq, Debug)]
struct Flushed {
    handed: usize,
    sent: bool,
}

// What a bufferful of answers leaves: the sheet, how much of a line is held, how much of the input is used, and what the write did.
#[derive(Clone, Copy)]
struct Once {
    sheet: Sheet,
    held: usize,
    used: usize,
    handed: usize,
    sent: bool,
}

// Room for a line.
fn no_line() -> [u8; LINE_ROOM]
    ensures { line_room ≡ length result }
{
    [0; LINE_ROOM]
}

// Writes text and answers whether all of it went out. A write that comes short is gone on with; one that fails, be it that a signal
// interrupted it, or takes nothing is the last.
// kept: std's write_all tries a write again that a signal interrupted; and whether all went out is all that the program asks.
fn write_all(rt: &impl Print, text: &[u8]) -> bool {
    let mut rest = text;
    while !rest.is_empty() {
        match rt.write_some(rest) {
            Ok(0) | Err(_) => return false,
            Ok(n) => rest = &rest[n..],
        }
    }
    true
}

// Writes the first bytes of a buffer. No contract can say whether they went out.
fn flush(rt: &impl Print, out: &[u8], at: usize) -> Flushed
    requires { at ≤ length out.now }
    ensures { result.handed ≡ at }
{
    let text = &out[..at];
    let sent = write_all(rt, text);
    Flushed {
        handed: text.len(),
        sent,
    }
}

// Answers the start of a part of the input, as much as the buffer has room for, and writes the answers.
fn serve_once(
    rt: &impl Print,
    sheet: Sheet,
    line: &mut [u8; LINE_ROOM],
    held: usize,
    input: &[u8],
    out: &mut [u8],
) -> Once
    requires { most_text ≤ length out.old }
    ensures { ServesOnce sheet line.old (take held line.old) input.now line.new out.new result }
{
    let fed = stream::feed(sheet, line, held, input, out, 0);
    let Flushed { handed, sent } = flush(rt, out, fed.at);
    Once {
        sheet: fed.sheet,
        held: fed.held,
        used: fed.used,
        handed,
        sent,
    }
}

// Answers a part of the input, a bufferful of answers at a time. Stops where a write fails.
fn serve(
    rt: &impl Print,
    sheet: Sheet,
    line: &mut [u8; LINE_ROOM],
    held: usize,
    input: &[u8],
    out: &mut [u8],
) -> After
    requires most_text_in_bounds { most_text ≤ length out.old }
    requires line_len { length (take held line.old) ≡ held }
    ensures { Serves sheet line.old (take held line.old) input.now line.new result }
{
    let mut once = Once {
        sheet,
        held,
        used: 0,
        handed: 0,
        sent: true,
    };
    let mut rest = input;
    while !rest.is_empty() {
        once = serve_once(rt, once.sheet, line, once.held, rest, out);
        if !once.sent {
            return After {
                sheet: once.sheet,
                held: once.held,
                sent: false,
                more: false,
            };
        }
        rest = &rest[once.used..];
    }
    After {
        sheet: once.sheet,
        held: once.held,
        sent: true,
        more: true,
    }
}

// The end of the input: answers the line that is held, if any, at the buffer's start, and writes that. Gives how many bytes a write was
// handed.
fn finish(
    rt: &impl Print,
    sheet: Sheet,
    line: &[u8; LINE_ROOM],
    held: usize,
    out: &mut [u8],
) -> usize
    requires { most_text ≤ length out.old }
    ensures { (out.new ≡ sets out.old 0 (last_text sheet (take held line.now))) × (result ≡ length (last_text sheet (take held line.now))) }
{
    let at = stream::last(sheet, line, held, out, 0);
    flush(rt, out, at).handed
}

// What a read answered. No contract can tell a signal from another failure.
#[tactic(auto, unfolding(crate::specs::Served::Gets))]
fn got_by(read: io::Result<usize>) -> Got
    ensures { Gets read result }
{
    match read {
        Ok(n) => Got::Bytes(n),
        Err(e) if e.kind() == ErrorKind::Interrupted => Got::Interrupted,
        Err(_) => Got::Failed,
    }
}

// Answers what came by a read: `got` is what it answered, and the bytes lie at the start of `input`. A read that a signal interrupts is
// tried again; any other that fails ends the program, and so does the end of the input.
#[tactic(auto, using(crate::proofs::Laws::some_came), unfolding(crate::specs::Served::ReadsOnce))]
fn after_read(
    rt: &impl Print,
    got: Got,
    sheet: Sheet,
    line: &mut [u8; LINE_ROOM],
    held: usize,
    input: &[u8],
    out: &mut [u8],
) -> After
    requires most_text_in_bounds { most_text ≤ length out.old }
    requires line_len { length (take held line.old) ≡ held }
    ensures { ReadsOnce got sheet line.old held input.now out.old line.new out.new result }
{
    let again = After {
        sheet,
        held,
        sent: true,
        more: true,
    };
    match got {
        Got::Interrupted => again,
        Got::Failed => After {
            more: false,
            ..again
        },
        Got::Bytes(0) => {
            finish(rt, sheet, line, held, out);
            After {
                held: 0,
                more: false,
                ..again
            }
        }
        Got::Bytes(n) => serve(rt, sheet, line, held, numbers::io::head(input, n), out),
    }
}

// Reads until there is no more. It is told to end after 2^64 - 1 reads, which no run comes to.
fn main(rt: HostRuntime) {
    let mut line = no_line();
    let mut input_space = [0u8; 65536];
    let input: &mut [u8] = &mut input_space;
    let mut out_space = [0u8; 65536];
    let out: &mut [u8] = &mut out_space;
    let mut after = After {
        sheet: Sheet::new(),
        held: 0,
        sent: true,
        more: true,
    };
    for _ in 0..u64::MAX {
        let got = got_by(rt.stdin().read(input));
        after = after_read(&rt, got, after.sheet, &mut line, after.held, input, out);
        if !after.more {
            return;
        }
    }
}
