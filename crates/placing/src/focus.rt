// When a point lies on a frame, and a point measured in another frame.
ghost use Rattle.std.specs.Prelude.{◌≡◌};
ghost use Rattle.placing.specs.Fit.{half_up, axis_fits, has_zero_side, center_lies_on, area_fits, no_area, lies_on, point_fits};
ghost use Rattle.placing.specs.Scale.{scale_of, trim_of, scaled_side, scaled_center, scaled_size, scaled_point};

use reading::focus::InFocus;
use reading::geometry::{Point, Size};

// A place where the camera focused. A recorded point has number 0, one without an area the size 0 by 0.
#[derive(Clone, Copy, PartialEq, Eq, Debug, Default)]
pub struct FocusPoint {
    pub number: u32,
    pub center: Point,
    pub size: Size,
    pub in_focus: InFocus,
}

// A point, and the frame that it is in.
#[derive(Clone, Copy, PartialEq, Eq, Debug)]
pub struct Framed {
    pub frame: Size,
    pub point: FocusPoint,
}

// Half a side, rounded up.
#[tactic(auto, unfolding(crate::specs::Fit::half_up))]
fn half_up(side: u32) -> u32
    ensures { result ≡ half_up side }
{
    side.div_ceil(2)
}

// Whether an area of `side` pixels around `center` lies inside a frame of `frame` pixels, on one axis.
#[tactic(auto, unfolding(crate::specs::Fit::axis_fits))]
pub fn axis_fits(side: u32, center: u32, frame: u32) -> bool
    ensures { result ≡ axis_fits side center frame }
{
    let half = half_up(side);
    half <= center && u64::from(center) + u64::from(half) <= u64::from(frame)
}

// Whether a size has no width or no height.
#[tactic(auto, unfolding(crate::specs::Fit::has_zero_side))]
pub fn has_zero_side(size: Size) -> bool
    ensures { result ≡ has_zero_side size }
{
    size.width == 0 || size.height == 0
}

// Whether a size stands for no area.
#[tactic(auto, unfolding(crate::specs::Fit::no_area))]
pub fn no_area(size: Size) -> bool
    ensures { result ≡ no_area size }
{
    size.width == 0 && size.height == 0
}

// Whether a center lies on a frame: the frame has no zero side, and a center on an edge lies on it.
#[tactic(auto, unfolding(crate::specs::Fit::center_lies_on))]
pub fn center_lies_on(frame: Size, center: Point) -> bool
    ensures { result ≡ center_lies_on frame center }
{
    !has_zero_side(frame) && center.x <= frame.width && center.y <= frame.height
}

// Whether an area of `size` around `center` lies on a frame: it has no zero side, and fits across and down.
#[tactic(auto, unfolding(crate::specs::Fit::area_fits))]
pub fn area_lies_on(frame: Size, center: Point, size: Size) -> bool
    ensures { result ≡ area_fits frame center size }
{
    !has_zero_side(size)
        && axis_fits(size.width, center.x, frame.width)
        && axis_fits(size.height, center.y, frame.height)
}

// Whether a center, with an area of `size` if that is one, lies on a frame.
#[tactic(auto, unfolding(crate::specs::Fit::lies_on))]
pub fn lies_on(frame: Size, center: Point, size: Size) -> bool
    ensures { result ≡ lies_on frame center size }
{
    center_lies_on(frame, center) && (no_area(size) || area_lies_on(frame, center, size))
}

// Whether a point lies on a frame.
#[tactic(auto, unfolding(crate::specs::Fit::point_fits))]
pub fn point_fits(frame: Size, point: FocusPoint) -> bool
    ensures { result ≡ point_fits frame point }
{
    lies_on(frame, point.center, point.size)
}

// `value`, measured on a side of `old` pixels, measured on one of `new`: to the nearest pixel, a half rounding up, and no more
// than the largest number. On a side of no pixels everything is at 0.
#[tactic(auto, unfolding(crate::specs::Scale::scale_of))]
pub fn scale(value: u32, old: u32, new: u32) -> u32
    ensures { result ≡ scale_of value old new }
{
    if old == 0 {
        return 0;
    }
    let side = u64::from(old);
    let scaled = (u64::from(value) * u64::from(new) + side / 2) / side;
    u32::try_from(scaled).unwrap_or(u32::MAX)
}

// `side`, shortened as little as it takes for an area around `center` to fit a frame of `frame` pixels, on one axis. It is 0
// where the center is on an edge, or past the frame.
#[tactic(auto, unfolding(crate::specs::Scale::trim_of))]
pub fn trim(side: u32, center: u32, frame: u32) -> u32
    ensures { result ≡ trim_of side center frame }
{
    let nearer = center.min(frame.saturating_sub(center));
    side.min(nearer.saturating_mul(2))
}

// An area's `side` on one axis, measured in another frame: at least one pixel, then trimmed around the scaled `center`.
#[tactic(auto, unfolding(crate::specs::Scale::scaled_side))]
fn scaled_side(side: u32, center: u32, old: u32, new: u32) -> u32
    ensures { result ≡ scaled_side side center old new }
{
    let scaled = scale(side, old, new);
    trim(scaled.max(1), center, new)
}

// A center of the frame `old`, measured in the frame `new`.
#[tactic(auto, unfolding(crate::specs::Scale::scaled_center))]
fn scaled_center(center: Point, old: Size, new: Size) -> Point
    ensures { result ≡ scaled_center center old new }
{
    Point {
        x: scale(center.x, old.width, new.width),
        y: scale(center.y, old.height, new.height),
    }
}

// A point's size, measured in another frame around the scaled `center`: none where a side has no room.
#[tactic(auto, unfolding(crate::specs::Scale::scaled_size, crate::specs::Scale::kept_area, crate::specs::Scale::scaled_area))]
fn scaled_size(size: Size, center: Point, old: Size, new: Size) -> Size
    ensures { result ≡ scaled_size size center old new }
{
    if no_area(size) {
        return size;
    }
    let area = Size {
        width: scaled_side(size.width, center.x, old.width, new.width),
        height: scaled_side(size.height, center.y, old.height, new.height),
    };
    if has_zero_side(area) {
        return Size::default();
    }
    area
}

// A point of the frame `old`, measured in the frame `new`.
#[tactic(auto, unfolding(crate::specs::Scale::scaled_point))]
pub fn scaled_point(point: FocusPoint, old: Size, new: Size) -> FocusPoint
    ensures { result ≡ scaled_point point old new }
{
    let center = scaled_center(point.center, old, new);
    FocusPoint {
        center,
        size: scaled_size(point.size, center, old, new),
        ..point
    }
}
