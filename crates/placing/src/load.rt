// The points of one load, or why there are none.
ghost use Rattle.std.specs.Prelude.{◌≡◌, replicate};
ghost use Rattle.placing.specs.Load.{no_point, origin_number};
ghost use Rattle.placing.specs.Laid.{refusal_number};
ghost use Rattle.reading.specs.Note.{note_refusal_number};

use crate::focus::FocusPoint;
use reading::focus::FocusAreaMode;
use reading::geometry::Size;
use reading::note::NoteRefusal;

// Where points come from: the record's own position, or the table of the body's points.
#[derive(Clone, Copy, PartialEq, Eq, Debug)]
pub enum FocusOrigin {
    Recorded,
    Table,
}

// Why a load gives no points: 01's numbers 1 to 6, in this order.
#[derive(Clone, Copy, PartialEq, Eq, Debug)]
pub enum Refusal {
    Unreadable,
    NoRecord,
    ManualFocus,
    BadRecord,
    PositionUnplaced,
    NamesUnplaced,
}

// The points of one load in their frame, of which the first `count` places hold one each and `primary` is the index of the primary.
// kept: 39 places and a count, as 01 has them: fixed memory, handed on by value.
#[derive(Clone, Copy, PartialEq, Eq, Debug)]
pub struct FocusPoints {
    pub frame: Size,
    pub points: [FocusPoint; 39],
    pub count: usize,
    pub primary: usize,
    pub area_mode: FocusAreaMode,
    pub origin: FocusOrigin,
}

// Points in the first `count` of 39 places.
// kept: places and a count, as in FocusPoints, which they become.
#[derive(Clone, Copy, PartialEq, Eq, Debug)]
pub struct PointPlaces {
    pub points: [FocusPoint; 39],
    pub count: usize,
}

// 39 places with no point in them.
pub fn no_places() -> [FocusPoint; 39]
    ensures { result ≡ replicate 39 no_point }
{
    [FocusPoint::default(); 39]
}

// 01's number for where points come from.
impl From<FocusOrigin> for u32 {
    ghost from_gives = { λ origin n. n ≡ origin_number origin };

    #[tactic(auto, unfolding(crate::specs::Load::origin_number))]
    fn from(origin: FocusOrigin) -> u32 {
        match origin {
            FocusOrigin::Recorded => 1,
            FocusOrigin::Table => 2,
        }
    }
}

// 01's number for why a load gives no points.
impl From<Refusal> for u32 {
    ghost from_gives = { λ why n. n ≡ refusal_number why };

    #[tactic(auto, unfolding(crate::specs::Laid::refusal_number))]
    fn from(why: Refusal) -> u32 {
        match why {
            Refusal::Unreadable => 1,
            Refusal::NoRecord => 2,
            Refusal::ManualFocus => 3,
            Refusal::BadRecord => 4,
            Refusal::PositionUnplaced => 5,
            Refusal::NamesUnplaced => 6,
        }
    }
}

// What a note is refused for, a load is refused for.
impl From<NoteRefusal> for Refusal {
    ghost from_gives = { λ why refusal. refusal_number refusal ≡ note_refusal_number why };

    #[tactic(auto, unfolding(crate::specs::Laid::refusal_number))]
    fn from(why: NoteRefusal) -> Refusal {
        match why {
            NoteRefusal::Unreadable => Refusal::Unreadable,
            NoteRefusal::NoRecord => Refusal::NoRecord,
            NoteRefusal::ManualFocus => Refusal::ManualFocus,
            NoteRefusal::BadRecord => Refusal::BadRecord,
        }
    }
}
