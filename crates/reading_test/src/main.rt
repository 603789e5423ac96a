// Prints what the readers answer for each block of standard input: one block a line, in hexadecimal. A line that starts with '#' is
// printed as it is. One that starts with '+' is the front of two blocks with zeros behind it, one as long as a block may be and one a
// byte longer: a line each. No contract can say what is printed: that is held to `stdout`.
#![tactic(auto)]

ghost use Rattle.std.specs.Prelude.{◌<◌, ◌≤◌, ◌≡◌, length, take};

use numbers::io::{ByteOrder, head};
use reading::afinfo::{FocusRecord, NamedPoints, RecordRefusal};
use reading::geometry::Size;
use reading::ifd::{find_entry, parse_block};
use reading::nikon::{AF_INFO2, CROP_AREA, CROP_HI_SPEED, CropArea, FOCUS_MODE};
use reading::note::Note;
use std::io;
use test_records::input::fill;

// ---- Lines of hexadecimal. That the bytes are right is held to `stdout`.

// The value of a digit of either case, and of another character what its bits then give.
// kept: to_digit tells another character apart, and what the program answers to one is as it was.
fn digit(c: u8) -> u8
    ensures { result < 16 }
{
    if c < b'A' { c % 16 } else { (c % 16 + 9) % 16 }
}

// Puts the bytes of a line at the front of the buffer, as many as fit, and answers how many they are.
fn decode(line: &[u8], out: &mut [u8]) -> usize
    ensures in_bounds { result ≤ length out.new }
    ensures prefix { result ≡ length (take result out.new) }
{
    let count = (line.len() / 2).min(out.len());
    for (byte, digits) in out.iter_mut().zip(line.chunks_exact(2)) {
        *byte = 16 * digit(digits[0]) + digit(digits[1]);
    }
    count
}

// ---- What the readers answer for one block, as the parts of a line. No contract can say what is written.

// A space and the bytes in hexadecimal, two digits each; nothing for no bytes.
fn bytes(rt: &impl Print, s: &[u8]) -> io::Result<()> {
    if s.is_empty() {
        return Ok(());
    }
    print!(rt; " ")?;
    for b in s {
        print!(rt; "{b:02x}")?;
    }
    Ok(())
}

// The first kept entry of a tag: its type, its count and its value.
fn entry(rt: &impl Print, note: Note<'_>, tag: u16) -> io::Result<()> {
    print!(rt; " | {tag}")?;
    let Some(entry) = find_entry(note.block, note.order, tag) else {
        return print!(rt; " absent");
    };
    print!(rt; " type {}", entry.typ)?;
    if entry.value.is_none() {
        return print!(rt; " damaged");
    }
    let value = entry.value_in(note.block);
    print!(rt; " count {} bytes {}", entry.count(), value.len())?;
    bytes(rt, value)
}

fn manual_focus(rt: &impl Print, note: Note<'_>) -> io::Result<()> {
    let is_manual = reading::nikon::manual_focus(note.block, note.order);
    print!(rt; " | {}", if is_manual { "manual" } else { "not manual" })
}

fn crop(rt: &impl Print, note: Note<'_>) -> io::Result<()> {
    match reading::nikon::crop_hi_speed(note.block, note.order) {
        Some(c) => print!(rt;
            " | crop {} {} {} {} {} {} {}",
            c.mode,
            c.original.width,
            c.original.height,
            c.cropped.width,
            c.cropped.height,
            c.origin.x,
            c.origin.y
        ),
        None => print!(rt; " | no crop"),
    }
}

fn crop_area(rt: &impl Print, note: Note<'_>, raw: Option<Size>) -> io::Result<()> {
    match reading::nikon::crop_area(note.block, note.order, raw) {
        CropArea::Window(s) => print!(rt; " window {} {}", s.width, s.height),
        CropArea::Unusable => print!(rt; " unusable"),
        CropArea::Absent => print!(rt; " absent"),
    }
}

// CropArea in raw data of 6016 by 4016, and without a raw size.
fn crop_areas(rt: &impl Print, note: Note<'_>) -> io::Result<()> {
    let raw = Size {
        width: 6016,
        height: 4016,
    };
    print!(rt; " | area")?;
    crop_area(rt, note, Some(raw))?;
    print!(rt; " without raw")?;
    crop_area(rt, note, None)
}

fn names(rt: &impl Print, named: Option<NamedPoints>) -> io::Result<()> {
    match named {
        Some(
            NamedPoints {
                layout_code,
                primary,
                mask,
            },
        ) => print!(rt; " names {layout_code} {primary} {mask}"),
        None => print!(rt; " no names"),
    }
}

fn focus_record(rt: &impl Print, r: FocusRecord) -> io::Result<()> {
    print!(rt;
        " | frame {} {} center {} {} area {} {} focus {} mode {}",
        r.frame.width,
        r.frame.height,
        r.center.x,
        r.center.y,
        r.area.width,
        r.area.height,
        u32::from(r.in_focus),
        u32::from(r.area_mode)
    )?;
    names(rt, r.named)
}

// The record, asked of the block's note.
fn record(rt: &impl Print, note: Note<'_>) -> io::Result<()> {
    match note.record() {
        Ok(r) => focus_record(rt, r),
        Err(RecordRefusal::BadRecord) => print!(rt; " | no 4"),
        Err(RecordRefusal::NoRecord) => print!(rt; " | no 2"),
    }
}

// The tags, in all their places; of a block that cannot be read, places without one.
fn contents(rt: &impl Print, block: &[u8]) -> io::Result<()> {
    let Some(list) = reading::nikon::contents(block) else {
        return print!(rt; " | no 1 0 0 0 0 0");
    };
    print!(rt; " | tags {}", list.count)?;
    for tag in list.tags {
        print!(rt; " {tag}")?;
    }
    Ok(())
}

// What every reader answers for a block that can be read.
fn values(rt: &impl Print, note: Note<'_>) -> io::Result<()> {
    match note.order {
        ByteOrder::Little => print!(rt; "little")?,
        ByteOrder::Big => print!(rt; "big")?,
    }
    for tag in [FOCUS_MODE, CROP_HI_SPEED, CROP_AREA, AF_INFO2] {
        entry(rt, note, tag)?;
    }
    manual_focus(rt, note)?;
    crop(rt, note)?;
    crop_areas(rt, note)?;
    record(rt, note)
}

fn report(rt: &impl Print, block: &[u8]) -> io::Result<()> {
    match parse_block(block) {
        Some(order) => values(rt, Note::new(block, order))?,
        None => print!(rt; "no 1")?,
    }
    contents(rt, block)
}

// So many zeros. A function apart, since the proof of its caller would count them one by one.
fn zeros<const N: usize>() -> [u8; N]
    ensures { length result ≡ N }
{
    [0; N]
}

// The longest block with these bytes at its front, and a block of one byte more.
fn report_long(rt: &impl Print, front: &[u8]) -> io::Result<()> {
    let mut space = zeros::<1_048_577>();
    decode(front, &mut space);
    report(rt, head(&space, 1_048_576))?;
    println!(rt;)?;
    report(rt, &space)
}

// A block of the bytes of a line.
fn report_short(rt: &impl Print, line: &[u8]) -> io::Result<()> {
    let mut space = [0; 4096];
    let n = decode(line, &mut space);
    report(rt, &space[..n])
}

// Answers one line.
fn answer(rt: &impl Print, line: &[u8]) -> io::Result<()> {
    match line {
        [b'#', ..] => rt.write_all(line)?,
        [b'+', front @ ..] => report_long(rt, front)?,
        _ => report_short(rt, line)?,
    }
    println!(rt;)
}

fn main(rt: HostRuntime) -> io::Result<()> {
    let mut space = [0; 65536];
    let n = fill(&mut rt.stdin(), &mut space)?;
    for line in space[..n].split_inclusive(|&b| b == b'\n') {
        answer(&rt, line.strip_suffix(b"\n").unwrap_or(line))?;
    }
    Ok(())
}
