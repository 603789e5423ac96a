// The listing of the points where the standing edits leave them, and in another frame.
ghost use Rattle.std.specs.Prelude.{◌≡◌, ◌++◌, ◌≤◌, length, take, drop};
ghost use Rattle.sheet.specs.Lists.{scaled_all, list_outcome, list_buffer, fit_outcome, fit_buffer};
ghost use Rattle.sheet.specs.Listing.{list_means, with_points};
ghost use Rattle.sheet.specs.Inside.{written_outcome};

use crate::head::{ListHead, MOST_POINTS};
use crate::listing::ListRefusal;
use crate::{Present, Sheet};
use placing::focus::FocusPoint;
use placing::load::FocusPoints;
use reading::geometry::Size;

// The first n points measured in another frame, the others as they are.
fn scaled_points(
    mut points: [FocusPoint; MOST_POINTS],
    n: usize,
    old: Size,
    new: Size,
) -> [FocusPoint; MOST_POINTS]
    requires { n ≤ 39 }
    ensures { result ≡ scaled_all old new (take n points) ++ drop n points }
{
    for point in &mut points[..n] {
        *point = placing::focus::scaled_point(*point, old, new);
    }
    points
}

// Writes the points of a listing, measured in `frame`, where they have room, and gives what is said beside them.
fn written(
    load: &FocusPoints,
    frame: Size,
    points: [FocusPoint; MOST_POINTS],
    count: usize,
    index: usize,
    out: &mut [u32],
) -> Result<ListHead, ListRefusal>
    requires { (count ≤ 39) × (index ≤ 39) }
    ensures { (list_means result ≡ written_outcome load.now frame count index (length out.old)) × (out.new ≡ with_points points count out.old) }
{
    if !crate::listing::write_points(points, count, out) {
        return Err(ListRefusal::Short);
    }
    Ok(ListHead {
        frame,
        count,
        index,
        mode: load.area_mode,
        origin: load.origin,
    })
}

impl Sheet {
    // Writes the listed points at the buffer's front, in the load's order.
    #[tactic(auto, using(crate::proofs::Usable::primary_in, crate::proofs::Usable::counted, crate::proofs::Usable::row_counted, crate::proofs::Answered::present_room, crate::proofs::Answered::present_index, crate::proofs::Answered::list_answered, crate::proofs::Answered::list_left), unfolding(crate::specs::Lists::list_outcome, crate::specs::Lists::list_buffer))]
    pub fn list(self, out: &mut [u32]) -> Result<ListHead, ListRefusal>
        ensures { (list_means result ≡ list_outcome self (length out.old)) × (out.new ≡ list_buffer self out.old) }
    {
        let Some(load) = self.usable_load() else {
            return Err(ListRefusal::Empty);
        };
        let Present {
            primary,
            points,
            count,
            index,
        } = self.present(load, 0, load.count);
        written(load, primary.frame, points, count, index, out)
    }

    // Writes the listed points as `list` does, measured in a box. A blank side of `size` (0) is worked out from the present frame; the box
    // must then have the present frame's shape.
    #[tactic(auto, using(crate::proofs::Usable::primary_in, crate::proofs::Usable::counted, crate::proofs::Usable::row_counted, crate::proofs::Answered::present_room, crate::proofs::Answered::present_index, crate::proofs::Answered::zero_box, crate::proofs::Answered::zero_box_kept, crate::proofs::Answered::shapes_differ, crate::proofs::Answered::shapes_differ_kept, crate::proofs::Answered::fit_answered, crate::proofs::Answered::fit_left), unfolding(crate::specs::Lists::fit_outcome, crate::specs::Lists::fit_buffer, crate::specs::Lists::outcome_in_box, crate::specs::Lists::buffer_in_box))]
    pub fn fit(self, size: Size, out: &mut [u32]) -> Result<ListHead, ListRefusal>
        ensures { (list_means result ≡ fit_outcome self size (length out.old)) × (out.new ≡ fit_buffer self size out.old) }
    {
        let Some(load) = self.usable_load() else {
            return Err(ListRefusal::Empty);
        };
        let Present {
            primary,
            points,
            count,
            index,
        } = self.present(load, 0, load.count);
        let frame = primary.frame;
        let worked = shape::worked_box(frame, size);
        if placing::focus::has_zero_side(worked) {
            return Err(ListRefusal::ZeroBox);
        }
        if !shape::same_shape(frame, worked) {
            return Err(ListRefusal::ShapesDiffer);
        }
        let scaled = scaled_points(points, count, frame, worked);
        written(load, worked, scaled, count, index, out)
    }
}
