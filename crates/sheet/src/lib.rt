// The sheet: the points of one load, under edits that stand until they are taken back. A public method takes the sheet by value and
// asks nothing of its caller; load, cut, orient and back give back the sheet that they leave, or why they refuse; list and fit do not
// change it. Refused, the caller's sheet is as it was.
#![tactic(auto)]

ghost use Rattle.std.specs.Prelude.{◌≡◌, ◌<◌, ◌≤◌};
ghost use Rattle.placing.specs.Focus.{focus_of};
ghost use Rattle.sheet.specs.Sheet.{edited_means, loaded_means, fresh_sheet, load_sheet, usable, load_on, add_edit, joined_by, orient_sheet, cut_sheet, back_sheet};
ghost use Rattle.sheet.specs.Inside.{LoadedAt, Opens, present_of};

use crate::edits::{Carried, Edit, EditRefusal, MOST_EDITS, Row};
use crate::head::MOST_POINTS;
use crate::orientation::Orientation;
use placing::focus::FocusPoint;
use placing::load::{FocusPoints, Refusal};
use reading::geometry::{Rectangle, Size};

pub mod edits; // an edit, and the place of one point after some edits
pub mod head; // what list and fit answer beside the points
pub mod list; // the listing of the points where they are now, and in another frame
pub mod listing; // six numbers a point in a lent buffer
pub mod orientation; // one of the eight orientations, and a point under it

// The points of a load, if there is one, and the edits that stand.
#[derive(Clone, Copy, PartialEq, Eq, Debug)]
pub struct Sheet {
    pub load: Option<FocusPoints>,
    pub row: Row,
}

// The listed ones among some points, where the standing edits carry them: in 39 places, how many there are, and the primary's index
// among them. And the primary's place, listed or not: its frame is the present one.
#[derive(Clone, Copy, PartialEq, Eq, Debug)]
struct Present {
    primary: Carried,
    points: [FocusPoint; MOST_POINTS],
    count: usize,
    index: usize,
}

impl Sheet {
    // A sheet with nothing loaded.
    #[tactic(auto, unfolding(crate::specs::Sheet::fresh_sheet))]
    pub fn new() -> Sheet
        ensures { result ≡ fresh_sheet }
    {
        Sheet {
            load: None,
            row: Row::new(),
        }
    }

    // The sheet of a load, which takes the place of sheet and edits.
    #[tactic(auto, using(crate::proofs::Loads::keeps, crate::proofs::Loads::replaces))]
    pub fn load(
        self,
        block: &[u8],
        raw: Option<Size>,
        picture: Option<Size>,
        model: &[u8],
    ) -> Result<Sheet, Refusal>
        ensures { loaded_means self result ≡ load_sheet self (focus_of block.now raw picture model.now) }
    {
        let focus = placing::nikon::focus(block, raw, picture, model)?;
        Ok(Sheet {
            load: Some(focus),
            row: Row::new(),
        })
    }

    // The load, if its counts and that of the edits lie within their places, and its primary is one of its points.
    #[tactic(auto, unfolding(crate::specs::Sheet::usable, crate::specs::Sheet::focus_in))]
    fn usable_load(&self) -> Option<&FocusPoints>
        ensures { LoadedAt self.now result }
    {
        match &self.load {
            Some(load) => {
                let is_usable = load.count <= MOST_POINTS
                    && load.primary < load.count
                    && self.row.count <= MOST_EDITS;
                if is_usable { Some(load) } else { None }
            }
            None => None,
        }
    }

    // Whether the sheet has a load, and that is usable.
    pub fn is_usable(self) -> bool
        ensures { result ≡ usable self }
    {
        self.usable_load().is_some()
    }

    // What is listed of the load's points from index `from` up to `to`, the primary among them. This is the one place that takes points
    // through the edits, so that the compiler draws the walk into this loop.
    fn present(&self, load: &FocusPoints, from: usize, to: usize) -> Present
        requires { (load.now ≡ load_on self.now) × (from ≤ load.now.primary) × (load.now.primary < to) × (to ≤ 39) × (self.now.row.count ≤ 64) }
        ensures { result ≡ present_of self.now from to }
    {
        let frame = load.frame;
        let standing = self.row.count;
        let at = load.primary;
        // as the load has it, until its own walk is seen
        let unmoved = load.points[at];
        let mut primary = Carried {
            listed: true,
            point: unmoved,
            frame,
        };
        let mut points = placing::load::no_places();
        let mut count: usize = 0;
        let mut index: usize = 0;
        for i in from..to {
            let p = load.points[i];
            let carried = crate::edits::place_after(frame, p, &self.row.edits, standing);
            if i == at {
                primary = carried;
                index = count;
            }
            if carried.listed {
                points[count] = carried.point;
                count += 1;
            }
        }
        Present {
            primary,
            points,
            count,
            index,
        }
    }

    // What orient and cut test first: the sheet is loaded, and one more edit may stand. Then this is the load.
    #[tactic(auto, unfolding(crate::specs::Sheet::if_open))]
    fn open(&self) -> Result<&FocusPoints, EditRefusal>
        ensures { Opens self.now result }
    {
        let load = self.usable_load().ok_or(EditRefusal::Empty)?;
        if MOST_EDITS <= self.row.count {
            return Err(EditRefusal::Full);
        }
        Ok(load)
    }

    // The sheet with one more edit.
    #[tactic(auto, unfolding(crate::specs::Sheet::add_edit))]
    fn with_edit(self, edit: Edit) -> Sheet
        requires { self.row.count < 64 }
        ensures { result ≡ add_edit self edit }
    {
        let mut sheet = self;
        sheet.row.join(edit);
        sheet
    }

    // The sheet under the orientation of a number.
    #[tactic(auto, using(crate::proofs::Usable::when_open), unfolding(crate::specs::Sheet::orient_sheet))]
    pub fn orient(self, number: u32) -> Result<Sheet, EditRefusal>
        ensures { edited_means self result ≡ orient_sheet self number }
    {
        self.open()?;
        let orientation = Orientation::try_from(number)?;
        Ok(self.with_edit(Edit::Orient(orientation)))
    }

    // The sheet cut to a rectangle of the present frame.
    #[tactic(auto, using(crate::proofs::Usable::when_open, crate::proofs::Usable::usable_told, crate::proofs::Presented::primary_of_lem, crate::proofs::Presented::frame_of), unfolding(crate::specs::Sheet::cut_sheet, crate::specs::Sheet::keeps_primary, crate::specs::Place::moved))]
    pub fn cut(self, to: Rectangle) -> Result<Sheet, EditRefusal>
        ensures { edited_means self result ≡ cut_sheet self to.left to.top to.width to.height }
    {
        let load = self.open()?;
        let at = load.primary;
        let primary = self.present(load, at, at + 1).primary;
        let frame = primary.frame;
        if !to.lies_in(frame) {
            return Err(EditRefusal::BadCut);
        }
        if !primary.cut_to(to).listed {
            return Err(EditRefusal::DropsPrimary);
        }
        Ok(self.with_edit(Edit::Cut(to)))
    }

    // The sheet without its last edit, which stays behind the standing ones and is read no more.
    #[tactic(auto, unfolding(crate::specs::Sheet::back_sheet))]
    pub fn back(self) -> Result<Sheet, EditRefusal>
        ensures { edited_means self result ≡ back_sheet self }
    {
        if !self.is_usable() {
            return Err(EditRefusal::Empty);
        }
        let count = self
            .row
            .count
            .checked_sub(1)
            .ok_or(EditRefusal::NothingStands)?;
        let mut sheet = self;
        sheet.row.count = count;
        Ok(sheet)
    }
}

impl Row {
    // One more edit joins, behind those that stand.
    fn join(&mut self, edit: Edit)
        requires { self.old.count < 64 }
        ensures { self.new ≡ joined_by self.old edit }
    {
        self.edits[self.count] = edit;
        self.count += 1;
    }
}
