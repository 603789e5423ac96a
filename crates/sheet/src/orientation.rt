// One of the eight orientations that a camera writes, and a point with its frame under it.
ghost use Rattle.std.specs.Prelude.{◌≡◌, ◌-◌};
ghost use Rattle.placing.specs.Fit.{swapped};
ghost use Rattle.sheet.specs.Orientation.{orientation_number, StandsFor, oriented_by};
ghost use Rattle.sheet.specs.Inside.{placed_upright, placed_across};

use placing::focus::FocusPoint;
pub use placing::focus::Framed;
use reading::geometry::{Point, Size};

// How a picture is brought upright, by Exif's numbers 1 to 8 in this order. Rotations are clockwise; a transposed picture is mirrored
// at the diagonal from its top left corner, a transverse one at the other diagonal.
#[derive(Clone, Copy, PartialEq, Eq, Debug)]
pub enum Orientation {
    Normal,
    FlipHorizontal,
    Rotate180,
    FlipVertical,
    Transpose,
    Rotate90,
    Transverse,
    Rotate270,
}

// A number outside 1 to 8, 02's number 15.
#[derive(Clone, Copy, PartialEq, Eq, Debug)]
pub struct UnknownOrientation(pub u32);

impl From<Orientation> for u32 {
    ghost from_gives = { λ orientation number. number ≡ orientation_number orientation };

    #[tactic(auto, unfolding(crate::specs::Orientation::orientation_number))]
    fn from(orientation: Orientation) -> u32 {
        match orientation {
            Orientation::Normal => 1,
            Orientation::FlipHorizontal => 2,
            Orientation::Rotate180 => 3,
            Orientation::FlipVertical => 4,
            Orientation::Transpose => 5,
            Orientation::Rotate90 => 6,
            Orientation::Transverse => 7,
            Orientation::Rotate270 => 8,
        }
    }
}

impl TryFrom<u32> for Orientation {
    type Error = UnknownOrientation;

    ghost try_from_gives = { StandsFor };

    #[tactic(auto, unfolding(crate::specs::Orientation::orientation_of))]
    fn try_from(number: u32) -> Result<Self, UnknownOrientation> {
        match number {
            1 => Ok(Orientation::Normal),
            2 => Ok(Orientation::FlipHorizontal),
            3 => Ok(Orientation::Rotate180),
            4 => Ok(Orientation::FlipVertical),
            5 => Ok(Orientation::Transpose),
            6 => Ok(Orientation::Rotate90),
            7 => Ok(Orientation::Transverse),
            8 => Ok(Orientation::Rotate270),
            _ => Err(UnknownOrientation(number)),
        }
    }
}

// A coordinate seen from the other end of its side and back: itself, or the end of the side where it is past that.
fn within(side: u32, at: u32) -> u32
    ensures { result ≡ side - (side - at) }
{
    at.min(side)
}

// A size with its sides exchanged.
fn swapped(size: Size) -> Size
    ensures { result ≡ swapped size }
{
    Size {
        width: size.height,
        height: size.width,
    }
}

// A point moved to (x, y) in its frame.
fn placed_upright(place: Framed, x: u32, y: u32) -> Framed
    ensures { result ≡ placed_upright x y place }
{
    Framed {
        point: FocusPoint {
            center: Point { x, y },
            ..place.point
        },
        ..place
    }
}

// A point moved to (x, y), the sides of its frame and of its area exchanged.
fn placed_across(place: Framed, x: u32, y: u32) -> Framed
    ensures { result ≡ placed_across x y place }
{
    Framed {
        point: FocusPoint {
            center: Point { x, y },
            size: swapped(place.point.size),
            ..place.point
        },
        frame: swapped(place.frame),
    }
}

impl Orientation {
    // A point and its frame under the orientation, in one step.
    #[tactic(auto, unfolding(crate::specs::Orientation::turned_by, crate::specs::Orientation::steps_of, crate::specs::Orientation::oriented_by))]
    pub fn apply(self, place: Framed) -> Framed
        ensures { result ≡ oriented_by self place }
    {
        let Point { x, y } = place.point.center;
        let Size {
            width: w,
            height: h,
        } = place.frame;
        match self {
            Orientation::Normal => place,
            Orientation::FlipHorizontal => placed_upright(place, w.saturating_sub(x), y),
            Orientation::Rotate180 => {
                placed_upright(place, w.saturating_sub(x), h.saturating_sub(y))
            }
            Orientation::FlipVertical => {
                placed_upright(place, within(w, x), h.saturating_sub(y))
            }
            Orientation::Transpose => placed_across(place, within(h, y), within(w, x)),
            Orientation::Rotate90 => placed_across(place, h.saturating_sub(y), x),
            Orientation::Transverse => {
                placed_across(place, h.saturating_sub(y), w.saturating_sub(x))
            }
            Orientation::Rotate270 => placed_across(place, within(h, y), w.saturating_sub(x)),
        }
    }
}
