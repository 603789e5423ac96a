// Boxes for fitting: whether one has the shape of a frame, `same_shape` of geometry.rs, and the one that a blank side stands for. A public
// function is total: it asks nothing of its caller.
#![tactic(auto)]

ghost use Rattle.std.specs.Prelude.{◌≡◌};
ghost use Rattle.shape.specs.Shape.{longest_side, same_shape};
ghost use Rattle.shape.specs.WorkedBox.{worked_side, worked_box};

use reading::geometry::Size;

// The longest of the four sides of two sizes.
fn longest(frame: Size, picture: Size) -> u32
    ensures { result ≡ longest_side frame picture }
{
    frame
        .width
        .max(frame.height)
        .max(picture.width.max(picture.height))
}

// Whether a picture, or a box on a page, has the shape of a frame, to within a pixel of rounding. Products of two 32-bit sides fit 64
// bits, so they are exact.
#[tactic(auto, unfolding(crate::specs::Shape::same_shape))]
pub fn same_shape(frame: Size, picture: Size) -> bool
    ensures { result ≡ same_shape frame picture }
{
    let across = u64::from(frame.width) * u64::from(picture.height);
    let down = u64::from(frame.height) * u64::from(picture.width);
    across.abs_diff(down) <= u64::from(longest(frame, picture))
}

// A side of a box beside its other one: as it is, or, where it is blank (0), worked out from the frame's two sides: `that` one, which is
// missing in the box, and the `given` one.
#[tactic(auto, unfolding(crate::specs::WorkedBox::worked_side))]
fn worked_side(own: u32, other: u32, that: u32, given: u32) -> u32
    ensures { result ≡ worked_side own other that given }
{
    if own == 0 {
        placing::focus::scale(that, given, other)
    } else {
        own
    }
}

// The box that a fit works with: a box with its blank side worked out from the frame. One of two sides is as given, one of none stays
// so.
#[tactic(auto, unfolding(crate::specs::WorkedBox::worked_box))]
pub fn worked_box(frame: Size, size: Size) -> Size
    ensures { result ≡ worked_box frame size }
{
    Size {
        width: worked_side(size.width, size.height, frame.width, frame.height),
        height: worked_side(size.height, size.width, frame.height, frame.width),
    }
}
