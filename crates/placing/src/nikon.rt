// One load: from a lent block, the two sizes and the model to focus points.
ghost use Rattle.std.specs.Prelude.{◌≡◌};
ghost use Rattle.reading.specs.Outcome.{accepted};
ghost use Rattle.placing.specs.Named.{named_outcome};
ghost use Rattle.placing.specs.Load.{alone};
ghost use Rattle.placing.specs.Laid.{focus_means, laid_out};
ghost use Rattle.placing.specs.Focus.{point_of, records_position, placed_of, focus_of};
ghost use Rattle.placing.specs.Inside.{located_means};

use crate::focus::{FocusPoint, Framed};
use crate::load::{FocusOrigin, FocusPoints, Refusal};
use crate::named::{Names, Window, placed_in, window_of};
use reading::afinfo::{FocusRecord, NamedPoints};
use reading::focus::FocusAreaMode;
use reading::geometry::Size;
use reading::nikon::{CropArea, CropHiSpeed};

// Where the points of a load are: one recorded position in its frame, or the points that a record names, in a window of the
// table's frame.
#[derive(Clone, Copy, PartialEq, Eq, Debug)]
enum Located {
    Position {
        placed: Framed,
        mode: FocusAreaMode,
    },
    Names {
        window: Window,
        names: Names,
        mode: FocusAreaMode,
    },
}

// The point that a record's position is.
fn point_of(recorded: FocusRecord) -> FocusPoint
    ensures { result ≡ point_of recorded }
{
    FocusPoint {
        number: 0,
        center: recorded.center,
        size: recorded.area,
        in_focus: recorded.in_focus,
    }
}

// Whether a record has a position: no side of its frame or area is zero.
#[tactic(auto, unfolding(crate::specs::Focus::records_position))]
fn records_position(recorded: FocusRecord) -> bool
    ensures { result ≡ records_position recorded }
{
    !crate::focus::has_zero_side(recorded.frame) && !crate::focus::has_zero_side(recorded.area)
}

// One recorded point, which is the primary.
#[tactic(auto, unfolding(crate::specs::Laid::laid_out, crate::specs::Laid::laid_focus, crate::specs::Laid::places))]
fn alone_in(placed: Framed, area_mode: FocusAreaMode) -> FocusPoints
    ensures { accepted result ≡ laid_out (alone placed.frame placed.point area_mode) }
{
    let mut points = crate::load::no_places();
    points[0] = placed.point;
    FocusPoints {
        frame: placed.frame,
        points,
        count: 1,
        primary: 0,
        area_mode,
        origin: FocusOrigin::Recorded,
    }
}

// Where the points are that a record with no position names.
#[tactic(auto, unfolding(crate::specs::Named::named_outcome, crate::specs::Named::placed_in, crate::specs::Laid::refusal_number))]
fn locate_names(
    named: Option<NamedPoints>,
    model: &[u8],
    crop: Option<CropHiSpeed>,
    picture: Option<Size>,
    mode: FocusAreaMode,
) -> Result<Located, Refusal>
    ensures { located_means result ≡ named_outcome named model.now crop picture mode }
{
    let names = named.ok_or(Refusal::NamesUnplaced)?;
    let window = window_of(names.layout_code, model, crop, picture).ok_or(Refusal::NamesUnplaced)?;
    Ok(Located::Names {
        window,
        names: Names {
            primary: u32::from(names.primary),
            mask: names.mask,
        },
        mode,
    })
}

// Where the points of a record are: at its position, or else at the points that it names.
#[tactic(auto, unfolding(crate::specs::Focus::placed_of, crate::specs::Laid::refusal_number))]
fn locate_record(
    recorded: FocusRecord,
    crop: Option<CropHiSpeed>,
    area: CropArea,
    picture: Option<Size>,
    model: &[u8],
) -> Result<Located, Refusal>
    ensures { located_means result ≡ placed_of recorded crop area picture model.now }
{
    let mode = recorded.area_mode;
    if !records_position(recorded) {
        return locate_names(recorded.named, model, crop, picture, mode);
    }
    let recorded_place = Framed {
        frame: recorded.frame,
        point: point_of(recorded),
    };
    let placed = recorded_place
        .in_crop(crop, area, picture)
        .ok_or(Refusal::PositionUnplaced)?;
    Ok(Located::Position { placed, mode })
}

// Where the points of a load are.
#[tactic(auto, unfolding(crate::specs::Focus::focus_of, crate::specs::Laid::refusal_number))]
fn locate(
    block: &[u8],
    raw: Option<Size>,
    picture: Option<Size>,
    model: &[u8],
) -> Result<Located, Refusal>
    ensures { located_means result ≡ focus_of block.now raw picture model.now }
{
    let values = reading::note::values_of(block, raw)?;
    locate_record(values.recorded, values.crop, values.area, picture, model)
}

// One load: the frame, the points in order, the primary, the area mode and the origin; or the first refusal that applies.
#[tactic(auto, unfolding(crate::specs::Laid::laid_out))]
pub fn focus(
    block: &[u8],
    raw: Option<Size>,
    picture: Option<Size>,
    model: &[u8],
) -> Result<FocusPoints, Refusal>
    ensures { focus_means result ≡ laid_out (focus_of block.now raw picture model.now) }
{
    match locate(block, raw, picture, model)? {
        Located::Position { placed, mode } => Ok(alone_in(placed, mode)),
        Located::Names {
            window,
            names,
            mode,
        } => placed_in(window, names, mode),
    }
}
