// Prints what one load answers for each load of standard input. A load is 512 bytes: a byte of flags (1 raw size, 2 picture
// size), the raw and the picture size as four 32-bit numbers, the model's length in a byte, the block's length in two, the
// model, the block, and zeros. Numbers are big-endian. No contract can say what is printed: that is held to `stdout`.
#![tactic(auto)]

use placing::focus::FocusPoint;
use placing::load::FocusPoints;
use placing::nikon::focus;
use std::io;
use test_records::input::Records;
use test_records::load::Load;
use test_records::text::Head;

fn print_point(rt: &impl Print, p: &FocusPoint) -> io::Result<()> {
    print!(rt;
        " | {} {} {} {} {} {}",
        p.number,
        p.center.x,
        p.center.y,
        p.size.width,
        p.size.height,
        u32::from(p.in_focus)
    )
}

fn print_points(rt: &impl Print, f: &FocusPoints) -> io::Result<()> {
    let head = Head {
        frame: f.frame,
        points: f.count,
        primary: f.primary,
        mode: u32::from(f.area_mode),
        origin: u32::from(f.origin),
    };
    print!(rt; "{head}")?;
    for p in f.points.iter().take(f.count) {
        print_point(rt, p)?;
    }
    Ok(())
}

// Answers one load.
fn answer(rt: &impl Print, record: &[u8]) -> io::Result<()> {
    let load = Load::of(record);
    match focus(load.block, load.raw, load.picture, load.model) {
        Ok(points) => print_points(rt, &points)?,
        Err(why) => print!(rt; "no {}", u32::from(why))?,
    }
    println!(rt;)
}

fn main(rt: HostRuntime) -> io::Result<()> {
    for record in Records::<_, 512>::new(&mut rt.stdin()) {
        answer(&rt, &record?)?;
    }
    Ok(())
}
