// What a call ended with, and what is said of a load, as text.
ghost use Rattle.std.specs.Prelude.{Some};
ghost use Rattle.test_records.specs.Text.{ended_text};

use reading::geometry::Size;
use std::fmt;

// How a call ended: `ok`, or `no` and the number of its refusal.
#[derive(Clone, Copy, PartialEq, Eq, Debug)]
pub struct Ended(pub Option<u32>);

impl fmt::Display for Ended {
    ghost output = { λ e. Some (ended_text e.0) };

    fn fmt<W: fmt::Write>(&self, f: &mut fmt::Formatter<W>) -> fmt::Result {
        match self.0 {
            None => f.write_str("ok"),
            Some(number) => write!(f, "no {number}"),
        }
    }
}

// What is said of a load beside its points: the frame, how many points there are, the primary's index, the area mode's number and the
// origin's. No contract says what it prints: that is held to the programs' stored output.
#[derive(Clone, Copy, PartialEq, Eq, Debug)]
pub struct Head {
    pub frame: Size,
    pub points: usize,
    pub primary: usize,
    pub mode: u32,
    pub origin: u32,
}

impl fmt::Display for Head {
    fn fmt<W: fmt::Write>(&self, f: &mut fmt::Formatter<W>) -> fmt::Result {
        let Head {
            frame,
            points,
            primary,
            mode,
            origin,
        } = *self;
        let Size { width, height } = frame;
        write!(
            f,
            "frame {width} {height} points {points} primary {primary} mode {mode} origin {origin}"
        )
    }
}
