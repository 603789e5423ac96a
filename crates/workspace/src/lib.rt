// A workspace: a sheet with its checkpoints. A checkpoint (02: named stand) keeps the edits that stood under a name of 1 to 16 bytes, and
// there are at most eight. A public method takes the workspace by value and asks nothing of its caller; list and fit do not change it,
// the others give back the workspace that they leave, or why they refuse. Refused, the caller's workspace is as it was.
#![tactic(auto)]

ghost use Rattle.std.specs.Prelude.{◌≡◌, ◌<◌, ◌≤◌, length, replicate, take};
ghost use Rattle.std.specs.List.{position};
ghost use Rattle.placing.specs.Focus.{focus_of};
ghost use Rattle.sheet.specs.Sheet.{edited_means, loaded_means, orient_sheet, cut_sheet, back_sheet};
ghost use Rattle.sheet.specs.Listing.{list_means};
ghost use Rattle.workspace.specs.Names.{in_places, holds_name};
ghost use Rattle.workspace.specs.Inside.{Named};
ghost use Rattle.workspace.specs.Workspace.{checkpoint_refusal_number, checkpointed_means, blank_checkpoint, without_names, fresh_workspace, load_in, with_sheet, is_counted, usable_in, edit_in, list_outcome_in, list_buffer_in, fit_outcome_in, fit_buffer_in, keep_at, keep_in, return_at, return_in};

use crate::names::LONGEST_NAME;
use placing::load::Refusal;
use reading::geometry::{Rectangle, Size};
use sheet::Sheet;
use sheet::edits::{EditRefusal, Row};
use sheet::head::ListHead;
use sheet::listing::ListRefusal;

mod names; // names of 1 to 16 bytes

// How many checkpoints there may be.
const MOST_CHECKPOINTS: usize = 8;

// Edits that stood, and their name, in the first `len` of 16 places.
// kept: a length beside an array, since a checkpoint is handed over by value in fixed memory, without a heap.
#[derive(Clone, Copy, PartialEq, Eq, Debug)]
pub struct Checkpoint {
    pub name: [u8; LONGEST_NAME],
    pub len: usize,
    pub row: Row,
}

// A sheet, and checkpoints in the first `count` of eight places.
#[derive(Clone, Copy, PartialEq, Eq, Debug)]
pub struct Workspace {
    pub sheet: Sheet,
    pub checkpoints: [Checkpoint; MOST_CHECKPOINTS],
    pub count: usize,
}

// Why keep and return refuse: 01's number 7 and 02's 16 to 18, in this order.
#[derive(Clone, Copy, PartialEq, Eq, Debug)]
pub enum CheckpointRefusal {
    Empty,
    BadName,
    NinthName,
    NoSuchName,
}

impl From<CheckpointRefusal> for u32 {
    ghost from_gives = { λ why number. number ≡ checkpoint_refusal_number why };

    fn from(why: CheckpointRefusal) -> u32 {
        match why {
            CheckpointRefusal::Empty => 7,
            CheckpointRefusal::BadName => 16,
            CheckpointRefusal::NinthName => 17,
            CheckpointRefusal::NoSuchName => 18,
        }
    }
}

// A name in 16 places, with zeros behind it.
fn in_places(name: &[u8]) -> [u8; LONGEST_NAME]
    requires { length name.now ≤ 16 }
    ensures { result ≡ in_places name.now }
{
    let mut places = [0u8; LONGEST_NAME];
    places[..name.len()].copy_from_slice(name);
    places
}

// Eight places with no checkpoint in them.
#[tactic(auto, unfolding(crate::specs::Workspace::blank_checkpoint))]
fn no_checkpoints() -> [Checkpoint; MOST_CHECKPOINTS]
    ensures { result ≡ replicate 8 blank_checkpoint }
{
    [Checkpoint {
        name: [0; LONGEST_NAME],
        len: 0,
        row: Row::new(),
    }; MOST_CHECKPOINTS]
}

// A sheet, and no checkpoints.
#[tactic(auto, unfolding(crate::specs::Workspace::without_names))]
fn without_names(sheet: Sheet) -> Workspace
    ensures { result ≡ without_names sheet }
{
    let checkpoints = no_checkpoints();
    Workspace {
        sheet,
        checkpoints,
        count: 0,
    }
}

impl Workspace {
    // A new sheet, and no checkpoints.
    pub fn new() -> Workspace
        ensures { result ≡ fresh_workspace }
    {
        without_names(Sheet::new())
    }

    // The sheet's load; all names go.
    pub fn load(
        self,
        block: &[u8],
        raw: Option<Size>,
        picture: Option<Size>,
        model: &[u8],
    ) -> Result<Workspace, Refusal>
        ensures { loaded_means self result ≡ load_in self (focus_of block.now raw picture model.now) }
    {
        let sheet = self.sheet.load(block, raw, picture, model)?;
        Ok(without_names(sheet))
    }

    // Whether the count lies within the places.
    fn is_counted(self) -> bool
        ensures { result ≡ is_counted self }
    {
        self.count <= MOST_CHECKPOINTS
    }

    // The workspace with another sheet in it.
    fn with_sheet(self, sheet: Sheet) -> Workspace
        ensures { result ≡ with_sheet self sheet }
    {
        Workspace { sheet, ..self }
    }

    // What an edit of the sheet, or back, leaves.
    #[tactic(auto, unfolding(crate::specs::Workspace::edit_in))]
    fn with_edited(self, edited: Result<Sheet, EditRefusal>) -> Result<Workspace, EditRefusal>
        ensures { edited_means self result ≡ edit_in self (edited_means self.sheet edited) }
    {
        if !self.is_counted() {
            return Err(EditRefusal::Empty);
        }
        Ok(self.with_sheet(edited?))
    }

    // The sheet's orient, cut and back.
    pub fn orient(self, number: u32) -> Result<Workspace, EditRefusal>
        ensures { edited_means self result ≡ edit_in self (orient_sheet self.sheet number) }
    {
        self.with_edited(self.sheet.orient(number))
    }

    pub fn cut(self, to: Rectangle) -> Result<Workspace, EditRefusal>
        ensures { edited_means self result ≡ edit_in self (cut_sheet self.sheet to.left to.top to.width to.height) }
    {
        self.with_edited(self.sheet.cut(to))
    }

    pub fn back(self) -> Result<Workspace, EditRefusal>
        ensures { edited_means self result ≡ edit_in self (back_sheet self.sheet) }
    {
        self.with_edited(self.sheet.back())
    }

    // The sheet's list and fit.
    #[tactic(auto, unfolding(crate::specs::Workspace::list_outcome_in, crate::specs::Workspace::list_buffer_in))]
    pub fn list(self, out: &mut [u32]) -> Result<ListHead, ListRefusal>
        ensures { (list_means result ≡ list_outcome_in self (length out.old)) × (out.new ≡ list_buffer_in self out.old) }
    {
        if !self.is_counted() {
            return Err(ListRefusal::Empty);
        }
        self.sheet.list(out)
    }

    #[tactic(auto, unfolding(crate::specs::Workspace::fit_outcome_in, crate::specs::Workspace::fit_buffer_in))]
    pub fn fit(self, size: Size, out: &mut [u32]) -> Result<ListHead, ListRefusal>
        ensures { (list_means result ≡ fit_outcome_in self size (length out.old)) × (out.new ≡ fit_buffer_in self size out.old) }
    {
        if !self.is_counted() {
            return Err(ListRefusal::Empty);
        }
        self.sheet.fit(size, out)
    }

    // Whether keep and return take the workspace for a loaded one.
    fn is_usable(self) -> bool
        ensures { result ≡ usable_in self }
    {
        self.is_counted() && self.sheet.is_usable()
    }

    // What keep and return test first: the workspace is loaded, and the name is none that is empty or too long.
    #[tactic(auto, unfolding(crate::specs::Workspace::if_named))]
    fn named(self, name: &[u8]) -> Result<(), CheckpointRefusal>
        ensures { Named self name.now result }
    {
        if !self.is_usable() {
            return Err(CheckpointRefusal::Empty);
        }
        if crate::names::is_bad_name(name) {
            return Err(CheckpointRefusal::BadName);
        }
        Ok(())
    }

    // The place of the checkpoint with this name.
    fn place_of(self, name: &[u8]) -> Option<usize>
        requires { self.count ≤ 8 }
        ensures { result ≡ position (λ c. holds_name name.now c.name c.len) (take self.count self.checkpoints) }
    {
        self.checkpoints[..self.count]
            .iter()
            .position(|c| crate::names::holds_name(c.name, c.len, name))
    }

    // The standing edits kept at a place; one behind those in use is the last of them then.
    #[tactic(auto, unfolding(crate::specs::Workspace::keep_at, crate::specs::Workspace::checkpoint_of))]
    fn keep_at(self, name: &[u8], at: usize) -> Workspace
        requires { (length name.now ≤ 16) × (at < 8) }
        ensures { result ≡ keep_at self name.now at }
    {
        let mut next = self;
        next.checkpoints[at] = Checkpoint {
            name: in_places(name),
            len: name.len(),
            row: self.sheet.row,
        };
        next.count = self.count.max(at + 1);
        next
    }

    // The standing edits kept under a name.
    #[tactic(auto, using(crate::proofs::NamePlaces::stands_at, crate::proofs::NamePlaces::or_the_next, crate::proofs::Tests::counted, crate::proofs::Tests::name_fits, crate::proofs::Tests::keep_ninth, crate::proofs::Tests::keep_done), unfolding(crate::specs::Workspace::keep_in))]
    pub fn keep(self, name: &[u8]) -> Result<Workspace, CheckpointRefusal>
        ensures { checkpointed_means self result ≡ keep_in self name.now }
    {
        self.named(name)?;
        let at = self.place_of(name).unwrap_or(self.count);
        let is_ninth = MOST_CHECKPOINTS <= at;
        if is_ninth {
            return Err(CheckpointRefusal::NinthName);
        }
        Ok(self.keep_at(name, at))
    }

    // The edits kept at a place made the standing ones.
    #[tactic(auto, unfolding(crate::specs::Workspace::return_at))]
    fn return_at(self, at: usize) -> Workspace
        requires { at < 8 }
        ensures { result ≡ return_at self at }
    {
        let Checkpoint { row, .. } = self.checkpoints[at];
        self.with_sheet(Sheet { row, ..self.sheet })
    }

    // The edits kept under a name made the standing ones.
    #[tactic(auto, using(crate::proofs::NamePlaces::stands_at, crate::proofs::NamePlaces::stands, crate::proofs::NamePlaces::stands_nowhere, crate::proofs::Tests::counted, crate::proofs::Tests::return_none, crate::proofs::Tests::return_done), unfolding(crate::specs::Workspace::return_in))]
    pub fn return_to(self, name: &[u8]) -> Result<Workspace, CheckpointRefusal>
        ensures { checkpointed_means self result ≡ return_in self name.now }
    {
        self.named(name)?;
        let at = self.place_of(name).ok_or(CheckpointRefusal::NoSuchName)?;
        Ok(self.return_at(at))
    }
}
