// An edit, and one point under edits.
ghost use Rattle.std.specs.Prelude.{◌≡◌, ◌+◌, ◌≤◌, min};
ghost use Rattle.sheet.specs.Answer.{edit_refusal_number};
ghost use Rattle.sheet.specs.Place.{shifted_point, stays_on, cut_point, moved, placed, walked};
ghost use Rattle.sheet.specs.Sheet.{no_edits};
ghost use Rattle.sheet.specs.Inside.{carried_by};
ghost use Rattle.sheet.specs.declared.edits.EditRefusal.TheVariants.{NoOrientation};

use crate::orientation::{Orientation, UnknownOrientation};
use placing::focus::{FocusPoint, Framed};
use reading::focus::InFocus;
use reading::geometry::{Point, Rectangle, Size};

// How many edits may stand.
pub const MOST_EDITS: usize = 64;

// A cut to a rectangle, or one of the eight orientations.
#[derive(Clone, Copy, PartialEq, Eq, Debug)]
pub enum Edit {
    Cut(Rectangle),
    Orient(Orientation),
}

// What stands in a place without an edit.
pub const BLANK_EDIT: Edit = Edit::Cut(Rectangle {
    left: 0,
    top: 0,
    width: 0,
    height: 0,
});

// The edits that stand, in their order: the first `count` of 64 places hold one each.
// kept: a count beside an array, since a row is handed over by value in fixed memory, without a heap.
#[derive(Clone, Copy, PartialEq, Eq, Debug)]
pub struct Row {
    pub edits: [Edit; MOST_EDITS],
    pub count: usize,
}

impl Row {
    // A row without an edit.
    #[tactic(auto, unfolding(crate::specs::Sheet::no_edits))]
    pub fn new() -> Row
        ensures { result ≡ no_edits }
    {
        Row {
            edits: [BLANK_EDIT; MOST_EDITS],
            count: 0,
        }
    }
}

// Why cut, orient and back refuse: 01's numbers 7 to 11 and 02's 15, in this order.
#[derive(Clone, Copy, PartialEq, Eq, Debug)]
pub enum EditRefusal {
    Empty,
    Full,
    BadCut,
    DropsPrimary,
    NothingStands,
    NoOrientation,
}

impl From<EditRefusal> for u32 {
    ghost from_gives = { λ why number. number ≡ edit_refusal_number why };

    fn from(why: EditRefusal) -> u32 {
        match why {
            EditRefusal::Empty => 7,
            EditRefusal::Full => 8,
            EditRefusal::BadCut => 9,
            EditRefusal::DropsPrimary => 10,
            EditRefusal::NothingStands => 11,
            EditRefusal::NoOrientation => 15,
        }
    }
}

impl From<UnknownOrientation> for EditRefusal {
    ghost from_gives = { λ _ why. why ≡ NoOrientation };

    fn from(_number: UnknownOrientation) -> EditRefusal {
        EditRefusal::NoOrientation
    }
}

// A point after some edits: whether no cut dropped it, where it is, and the frame that it is in.
// kept: tried a `Framed` in place of the last two, slower than the form before it: a list of 39 points behind 64 turns took 9.7 µs in
// place of 7.7.
#[derive(Clone, Copy, PartialEq, Eq, Debug)]
pub struct Carried {
    pub listed: bool,
    pub point: FocusPoint,
    pub frame: Size,
}

// A point measured from a rectangle's corner, a coordinate that lies before it as 0.
fn shifted_point(to: Rectangle, point: FocusPoint) -> FocusPoint
    ensures { result ≡ shifted_point to.left to.top point }
{
    let Point { x, y } = point.center;
    let center = Point {
        x: x.saturating_sub(to.left),
        y: y.saturating_sub(to.top),
    };
    FocusPoint { center, ..point }
}

// Whether a point lies on the rectangle of a cut.
#[tactic(auto, unfolding(crate::specs::Place::stays_on))]
fn stays_on(to: Rectangle, point: FocusPoint) -> bool
    ensures { result ≡ stays_on to.left to.top to.width to.height point }
{
    to.left <= point.center.x
        && to.top <= point.center.y
        && placing::focus::point_fits(to.size(), shifted_point(to, point))
}

impl Carried {
    // The point after a cut: one that was dropped stays so.
    #[tactic(auto, unfolding(crate::specs::Place::cut_point))]
    pub fn cut_to(self, to: Rectangle) -> Carried
        ensures { result ≡ cut_point to.left to.top to.width to.height self }
    {
        Carried {
            listed: self.listed & stays_on(to, self.point),
            point: shifted_point(to, self.point),
            frame: to.size(),
        }
    }

    // The point and its frame, moved by one edit.
    #[tactic(auto, unfolding(crate::specs::Place::moved))]
    fn moved_by(self, edit: Edit) -> Carried
        ensures { result ≡ moved edit self }
    {
        match edit {
            Edit::Orient(orientation) => {
                let Carried {
                    listed,
                    point,
                    frame,
                } = self;
                let Framed { frame, point } = orientation.apply(Framed { frame, point });
                Carried {
                    listed,
                    point,
                    frame,
                }
            }
            Edit::Cut(to) => self.cut_to(to),
        }
    }
}

// A point that is carried, of its parts.
fn carried_by(
    listed: bool,
    number: u32,
    center: Point,
    size: Size,
    in_focus: InFocus,
    frame: Size,
) -> Carried
    ensures { result ≡ carried_by listed number center size in_focus frame }
{
    let point = FocusPoint {
        number,
        center,
        size,
        in_focus,
    };
    Carried {
        listed,
        point,
        frame,
    }
}

// Carries a point and its frame through n edits, from the one at index i on: through that edit, and then, from where it leaves them,
// through one less; and leaves them in `end`. The call is the last thing done, and what is carried is handed on in its parts: so the
// compiler makes a loop of it.
// kept: tried a whole `Carried` in place of its parts, slower than the form before it: a list of 39 points behind 64 turns took 46 µs
// in place of 7.
#[tactic(auto, using(crate::proofs::Walked::walk_ends, crate::proofs::Walked::walk_goes_on))]
fn walk(
    edits: &[Edit; MOST_EDITS],
    i: usize,
    n: usize,
    listed: bool,
    number: u32,
    center: Point,
    size: Size,
    in_focus: InFocus,
    frame: Size,
    end: &mut Carried,
)
    requires { i + n ≤ 64 }
    ensures { end.new ≡ walked edits.now i n (carried_by listed number center size in_focus frame) }
{
    let carried = carried_by(listed, number, center, size, in_focus, frame);
    let is_end = n == 0;
    if is_end {
        *end = carried;
        return;
    }
    let next = carried.moved_by(edits[i]);
    let moved = next.point;
    let frame = next.frame;
    walk(
        edits,
        i + 1,
        n - 1,
        next.listed,
        number,
        moved.center,
        moved.size,
        in_focus,
        frame,
        end,
    );
}

// How many of n edits there are places for.
fn held(n: usize) -> usize
    ensures { result ≡ min n 64 }
{
    n.min(MOST_EDITS)
}

// The place of a point of the frame after the first n edits; after all 64, where there are to be more.
#[tactic(auto, using(crate::proofs::Walked::from_the_front), unfolding(crate::specs::Place::placed))]
pub fn place_after(frame: Size, point: FocusPoint, edits: &[Edit; MOST_EDITS], n: usize) -> Carried
    ensures { result ≡ placed frame point edits.now (min n 64) }
{
    let mut end = Carried {
        listed: true,
        point,
        frame,
    };
    walk(
        edits,
        0,
        held(n),
        true,
        point.number,
        point.center,
        point.size,
        point.in_focus,
        frame,
        &mut end,
    );
    end
}
