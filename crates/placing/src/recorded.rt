// A recorded position, placed on the picture that a crop leaves: 01's 'Recorded position'.
ghost use Rattle.std.specs.Prelude.{◌≡◌, ◌-◌};
ghost use Rattle.placing.specs.Recorded.{cut_of, offset_in, shifts, moved_point, position_means, scaled_to, in_window, onto_window, shaped_window, onto_picture, onto, position_of};

use crate::focus::{FocusPoint, Framed};
use reading::geometry::{Point, Size};
use reading::nikon::{CropArea, CropHiSpeed};
use std::cmp::Ordering;

// What a crop cut from the frame: both sides, only the width, only the height, or anything else.
// kept: a case for 01's 'any other crop', which it lists beside the other three.
#[derive(Clone, Copy, PartialEq, Eq, Debug)]
pub enum CutSides {
    Other,
    Both,
    Width,
    Height,
}

// What the crop cut.
#[tactic(auto, unfolding(crate::specs::Recorded::cut_between))]
pub fn cut_of(crop: CropHiSpeed) -> CutSides
    ensures { result ≡ cut_of crop }
{
    let old = crop.original;
    let new = crop.cropped;
    match (new.width.cmp(&old.width), new.height.cmp(&old.height)) {
        (Ordering::Less, Ordering::Less) => CutSides::Both,
        (Ordering::Less, Ordering::Equal) => CutSides::Width,
        (Ordering::Equal, Ordering::Less) => CutSides::Height,
        _ => CutSides::Other,
    }
}

// Where a window of `window` pixels starts, centered on a side of `frame` pixels.
#[tactic(auto, unfolding(crate::specs::Recorded::offset_in))]
fn offset_in(frame: u32, window: u32) -> u32
    ensures { result ≡ offset_in frame window }
{
    frame.saturating_sub(window) / 2
}

// Whether the window lies on the side, and `center` not before its start.
#[tactic(auto, unfolding(crate::specs::Recorded::shifts))]
fn shifts_into(center: u32, frame: u32, window: u32) -> bool
    ensures { result ≡ shifts center frame window }
{
    window <= frame && offset_in(frame, window) <= center
}

// `center` measured from the window's start, and 0 where it lies before that.
fn shifted(center: u32, frame: u32, window: u32) -> u32
    ensures { result ≡ center - offset_in frame window }
{
    center.saturating_sub(offset_in(frame, window))
}

#[tactic(auto, unfolding(crate::specs::Recorded::moved_point))]
fn moved_point(point: FocusPoint, frame: Size, window: Size) -> FocusPoint
    ensures { result ≡ moved_point point frame window }
{
    FocusPoint {
        center: Point {
            x: shifted(point.center.x, frame.width, window.width),
            y: shifted(point.center.y, frame.height, window.height),
        },
        ..point
    }
}

// The window of the frame that a picture of the size `picture` shows.
fn window_of_shape(cut: CutSides, frame: Size, picture: Size) -> Size
    ensures { result ≡ shaped_window cut frame picture }
{
    match cut {
        CutSides::Width => Size {
            width: crate::focus::scale(frame.height, picture.height, picture.width),
            height: frame.height,
        },
        CutSides::Height => Size {
            width: frame.width,
            height: crate::focus::scale(frame.width, picture.width, picture.height),
        },
        CutSides::Both | CutSides::Other => picture,
    }
}

impl Framed {
    // The point scaled to the picture `target`.
    #[tactic(auto, unfolding(crate::specs::Recorded::scaled_to))]
    fn scaled_to(self, target: Size) -> Option<Framed>
        ensures { position_means result ≡ scaled_to self.point self.frame target }
    {
        if crate::focus::has_zero_side(target) {
            return None;
        }
        let point = crate::focus::scaled_point(self.point, self.frame, target);
        Some(Framed {
            frame: target,
            point,
        })
    }

    // The point moved into the centered window, where it fits it.
    #[tactic(auto, unfolding(crate::specs::Recorded::in_window))]
    fn in_window(self, window: Size) -> Option<Framed>
        ensures { position_means result ≡ in_window self.point self.frame window }
    {
        let moved = moved_point(self.point, self.frame, window);
        if shifts_into(self.point.center.x, self.frame.width, window.width)
            && shifts_into(self.point.center.y, self.frame.height, window.height)
            && crate::focus::point_fits(window, moved)
        {
            return Some(Framed {
                frame: window,
                point: moved,
            });
        }
        None
    }

    // The point on the window that a crop leaves.
    fn onto_window(self, cut: CutSides, window: Size) -> Option<Framed>
        ensures { position_means result ≡ onto_window cut self.point self.frame window }
    {
        match cut {
            CutSides::Both => self.scaled_to(window),
            CutSides::Width if window.height == self.frame.height => self.in_window(window),
            CutSides::Height if window.width == self.frame.width => self.in_window(window),
            _ => None,
        }
    }

    // The point on a picture of which only the size is known.
    #[tactic(auto, unfolding(crate::specs::Recorded::onto_picture))]
    fn onto_picture(self, cut: CutSides, picture: Size) -> Option<Framed>
        ensures { position_means result ≡ onto_picture cut self.point self.frame picture }
    {
        if crate::focus::has_zero_side(picture) {
            return None;
        }
        self.onto_window(cut, window_of_shape(cut, self.frame, picture))
    }

    // The point on what a crop leaves: the window of CropArea, or else the picture; as recorded where neither is known.
    fn onto_crop(self, cut: CutSides, area: CropArea, picture: Option<Size>) -> Option<Framed>
        ensures { position_means result ≡ onto cut self.point self.frame area picture }
    {
        match area {
            CropArea::Window(window) => self.onto_window(cut, window),
            CropArea::Unusable => None,
            CropArea::Absent => match picture {
                Some(size) => self.onto_picture(cut, size),
                None => Some(self),
            },
        }
    }

    // A recorded position: checked in its own frame first, then placed on what the crop leaves.
    #[tactic(auto, unfolding(crate::specs::Recorded::position_of, crate::specs::Fit::same_size))]
    pub fn in_crop(
        self,
        crop: Option<CropHiSpeed>,
        area: CropArea,
        picture: Option<Size>,
    ) -> Option<Framed>
        ensures { position_means result ≡ position_of self.point self.frame crop area picture }
    {
        if !crate::focus::point_fits(self.frame, self.point) {
            return None;
        }
        match crop {
            Some(known) if known.cropped != known.original => {
                self.onto_crop(cut_of(known), area, picture)
            }
            _ => Some(self),
        }
    }
}
