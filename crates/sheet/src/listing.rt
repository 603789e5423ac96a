// The listing of points: six numbers each in a lent buffer, and what is said beside them.
ghost use Rattle.std.specs.Prelude.{◌≡◌, ◌+◌, ◌≤◌, length};
ghost use Rattle.std.proofs.lemmas.List.Edits.{sets};
ghost use Rattle.sheet.specs.Listing.{list_refusal_number, six, has_room, with_points};

use crate::head::MOST_POINTS;
use placing::focus::FocusPoint;
use reading::geometry::{Point, Size};

// Why list and fit refuse: 01's numbers 7 and 12, 02's 19 and 01's 13, in this order.
#[derive(Clone, Copy, PartialEq, Eq, Debug)]
pub enum ListRefusal {
    Empty,
    ZeroBox,
    ShapesDiffer,
    Short,
}

impl From<ListRefusal> for u32 {
    ghost from_gives = { λ why number. number ≡ list_refusal_number why };

    fn from(why: ListRefusal) -> u32 {
        match why {
            ListRefusal::Empty => 7,
            ListRefusal::ZeroBox => 12,
            ListRefusal::ShapesDiffer => 19,
            ListRefusal::Short => 13,
        }
    }
}

// Writes the six numbers of a point.
// kept: tried `out[at..at + 6].copy_from_slice` of an array of the six, slower than the form before it: a list of 39 points took 460 ns
// in place of 250.
fn put_point(out: &mut [u32], at: usize, point: FocusPoint)
    requires { at + 6 ≤ length out.old }
    ensures { out.new ≡ sets out.old at (six point) }
{
    let Point { x, y } = point.center;
    let Size { width, height } = point.size;
    out[at] = point.number;
    out[at + 1] = x;
    out[at + 2] = y;
    out[at + 3] = width;
    out[at + 4] = height;
    out[at + 5] = u32::from(point.in_focus);
}

// Writes the first n points at the buffer's front, six numbers each. Where there are not so many, or no room for them, nothing is
// written, and the answer is no.
pub fn write_points(points: [FocusPoint; MOST_POINTS], n: usize, out: &mut [u32]) -> bool
    ensures { (result ≡ has_room n (length out.old)) × (out.new ≡ with_points points n out.old) }
{
    if MOST_POINTS < n || out.len() < 6 * n {
        return false;
    }
    for (i, point) in points[..n].iter().enumerate() {
        put_point(out, i * 6, *point);
    }
    true
}
