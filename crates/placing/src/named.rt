// The points that a record names by their numbers, placed from the table of the body's points.
ghost use Rattle.std.specs.Prelude.{◌≡◌, ◌==◌};
ghost use Rattle.std.specs.List.{position};
ghost use Rattle.placing.specs.Laid.{focus_means, laid_out};
ghost use Rattle.placing.specs.Inside.{point_places, candidate_of};
ghost use Rattle.placing.specs.Named.{picture_is, on_crop, uncropped, frame_means, placed_frame, marked, is_named, fits_window, less_origin, is_listed, listed_points, placed_in, window_of};
ghost use Rattle.reading.specs.Outcome.{accepted};

use crate::focus::FocusPoint;
use crate::load::{FocusOrigin, FocusPoints, PointPlaces, Refusal};
use crate::points::{FocusLayoutPoint, PointTable};
use reading::focus::{FocusAreaMode, InFocus};
use reading::geometry::{Point, Size};
use reading::nikon::CropHiSpeed;

// A part of the table's frame: the frame that points are placed in, and where it starts.
#[derive(Clone, Copy, PartialEq, Eq, Debug)]
pub struct Window {
    pub frame: Size,
    pub origin: Point,
}

// The points that are named: the primary's number, and the mask of the points used, one bit each.
#[derive(Clone, Copy, PartialEq, Eq, Debug)]
pub struct Names {
    pub primary: u32,
    pub mask: u64,
}

// The whole frame: the body's full-size picture.
const WHOLE: Window = Window {
    frame: Size {
        width: 6016,
        height: 4016,
    },
    origin: Point { x: 0, y: 0 },
};

// The DX crop's mode in CropHiSpeed.
const DX_MODE: u32 = 2;

// The DX crop's window.
const DX: Window = Window {
    frame: Size {
        width: 3936,
        height: 2624,
    },
    origin: Point { x: 1040, y: 696 },
};

// The size of the Medium JPEG, which shows a window of the frame.
const MEDIUM_JPEG: Size = Size {
    width: 4512,
    height: 3008,
};

// The Medium JPEG's window.
const MEDIUM: Window = Window {
    frame: Size {
        width: 6010,
        height: 4006,
    },
    origin: Point { x: 3, y: 5 },
};

// Whether the picture's size is `size`; of a size that is missing, `missing`.
#[tactic(auto, unfolding(crate::specs::Named::picture_is, crate::specs::Fit::same_size))]
fn picture_is(picture: Option<Size>, size: Size, missing: bool) -> bool
    ensures { result ≡ picture_is picture size missing }
{
    picture.map_or(missing, |given| given == size)
}

// The window of a crop: only the DX crop's is known, where that starts and in a picture of its size.
#[tactic(auto, unfolding(crate::specs::Named::on_crop, crate::specs::Named::same_place))]
fn on_crop(crop: CropHiSpeed, picture: Option<Size>) -> Option<Window>
    ensures { frame_means result ≡ on_crop crop picture }
{
    (crop.mode == DX_MODE
        && crop.origin == DX.origin
        && picture_is(picture, DX.frame, true)).then_some(DX)
}

// The window of an uncropped picture: the whole frame, but for the Medium JPEG.
#[tactic(auto, unfolding(crate::specs::Named::uncropped))]
fn uncropped_window(picture: Option<Size>) -> Window
    ensures { result ≡ uncropped picture }
{
    if picture_is(picture, MEDIUM_JPEG, false) {
        MEDIUM
    } else {
        WHOLE
    }
}

// The frame of the points placed from the table, and the origin that their centers lose; none where the crop's window in the table's
// frame is not known.
#[tactic(auto, unfolding(crate::specs::Named::placed_frame, crate::specs::Fit::same_size))]
pub fn placed_frame(crop: Option<CropHiSpeed>, picture: Option<Size>) -> Option<Window>
    ensures { frame_means result ≡ placed_frame crop picture }
{
    match crop {
        Some(stated) if stated.cropped != stated.original => on_crop(stated, picture),
        _ => Some(uncropped_window(picture)),
    }
}

// Whether the mask marks a point: number n is bit n − 1, the least significant first.
#[tactic(auto, unfolding(crate::specs::Named::marked))]
fn marks(mask: u64, number: u32) -> bool
    ensures { result ≡ marked mask number }
{
    mask.checked_shr(number.saturating_sub(1)).unwrap_or(0) % 2 == 1
}

// Whether a record names a point: as the primary, or by its mask.
#[tactic(auto, unfolding(crate::specs::Named::is_named))]
fn is_named(names: Names, number: u32) -> bool
    ensures { result ≡ is_named names.primary names.mask number }
{
    number == names.primary || marks(names.mask, number)
}

// The point less the window's origin, where it then fits the window.
#[tactic(auto, unfolding(crate::specs::Named::fits_window))]
fn less_origin(point: FocusLayoutPoint, window: Window) -> Option<FocusPoint>
    ensures { result ≡ candidate_of (fits_window window point) (less_origin window point) }
{
    let x = point.center.x.checked_sub(window.origin.x)?;
    let y = point.center.y.checked_sub(window.origin.y)?;
    let moved = FocusPoint {
        number: point.number,
        center: Point { x, y },
        size: point.size,
        in_focus: InFocus::Unrecorded,
    };
    crate::focus::point_fits(window.frame, moved).then_some(moved)
}

// The point, placed, if the record names it and it fits.
#[tactic(auto, unfolding(crate::specs::Named::is_listed))]
fn placed_point(point: FocusLayoutPoint, window: Window, names: Names) -> Option<FocusPoint>
    ensures { result ≡ candidate_of (is_listed window names.primary names.mask point) (less_origin window point) }
{
    if is_named(names, point.number) {
        less_origin(point, window)
    } else {
        None
    }
}

// The points of the table that the record names and that fit, in table order.
fn listed_points(window: Window, names: Names) -> PointPlaces
    ensures { result ≡ point_places (listed_points window names.primary names.mask) }
{
    let mut points = crate::load::no_places();
    let mut count: usize = 0;
    for point in &crate::points::table() {
        if let Some(placed) = placed_point(*point, window, names) {
            points[count] = placed;
            count += 1;
        }
    }
    PointPlaces { points, count }
}

// The index of the first of some points that has a number.
fn index_of(points: &[FocusPoint], number: u32) -> Option<usize>
    ensures { result ≡ position (λ (p : FocusPoint). p.number == number) points.now }
{
    points.iter().position(|point| point.number == number)
}

// The points named, in their window, with the primary's index among them. Refused where the primary is not listed.
#[tactic(auto, using(crate::proofs::NamedPlaced::unlisted, crate::proofs::NamedPlaced::listed))]
pub fn placed_in(
    window: Window,
    names: Names,
    area_mode: FocusAreaMode,
) -> Result<FocusPoints, Refusal>
    ensures { focus_means result ≡ laid_out (placed_in (accepted window) names.primary names.mask area_mode) }
{
    let PointPlaces { points, count } = listed_points(window, names);
    let Some(index) = index_of(&points[..count], names.primary) else {
        return Err(Refusal::NamesUnplaced);
    };
    Ok(FocusPoints {
        frame: window.frame,
        points,
        count,
        primary: index,
        area_mode,
        origin: FocusOrigin::Table,
    })
}

// The window of the points that a record names, where the model and the layout code are the table's and the crop is confirmed.
#[tactic(auto, unfolding(crate::specs::Named::window_of))]
pub fn window_of(
    layout_code: u8,
    model: &[u8],
    crop: Option<CropHiSpeed>,
    picture: Option<Size>,
) -> Option<Window>
    ensures { frame_means result ≡ window_of layout_code model.now crop picture }
{
    let PointTable::NikonD600 = crate::points::find(model)?;
    if layout_code != crate::points::LAYOUT_CODE {
        return None;
    }
    placed_frame(crop, picture)
}
