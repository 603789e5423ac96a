// A note: its lent bytes with their byte order, given together; and all that a load is told by the note of a block.
// `record` only takes the note apart and calls a function of a plain slice and an order. No function asks anything of its caller.
ghost use Rattle.std.specs.Prelude.{◌≡◌};
ghost use Rattle.reading.specs.Record.{record_means, record_refusal_number};
ghost use Rattle.reading.specs.Values.{af_info2_of};
ghost use Rattle.reading.specs.Note.{note_means, note_refusal_number, values_in, values_of};

use crate::afinfo::{FocusRecord, RecordRefusal};
use crate::geometry::Size;
use crate::nikon::{CropArea, CropHiSpeed};
use numbers::io::ByteOrder;

// A reading of a note.
// kept: a struct of the lent block and the order, a form that 01 names.
#[derive(Clone, Copy, PartialEq, Eq, Debug)]
pub struct Note<'a> {
    pub block: &'a [u8],
    pub order: ByteOrder,
}

impl<'a> Note<'a> {
    // The reading of these bytes in this order.
    pub fn new(block: &'a [u8], order: ByteOrder) -> Note<'a>
        ensures { (result.block ≡ block.entry) × (result.order ≡ order) }
    {
        Note { block, order }
    }

    // The focus record.
    pub fn record(self) -> Result<FocusRecord, RecordRefusal>
        ensures { record_means result ≡ af_info2_of self.entry.order self.entry.block.now }
    {
        crate::nikon::af_info2(self.block, self.order)
    }
}

// The record of a block of that order, through its note.
// kept: a thin function over a plain slice and an order, a form that 01 names.
pub fn af_info2_of(block: &[u8], order: ByteOrder) -> Result<FocusRecord, RecordRefusal>
    ensures { record_means result ≡ af_info2_of order block.now }
{
    Note::new(block, order).record()
}

// What a load is told by a note: the record, and what there is of the crop.
#[derive(Clone, Copy, PartialEq, Eq, Debug)]
pub struct NoteValues {
    pub recorded: FocusRecord,
    pub crop: Option<CropHiSpeed>,
    pub area: CropArea,
}

// Why a note tells a load nothing: 01's numbers 1 to 4, in this order.
#[derive(Clone, Copy, PartialEq, Eq, Debug)]
pub enum NoteRefusal {
    Unreadable,
    NoRecord,
    ManualFocus,
    BadRecord,
}

impl From<RecordRefusal> for NoteRefusal {
    ghost from_gives = { λ why refusal. note_refusal_number refusal ≡ record_refusal_number why };

    fn from(why: RecordRefusal) -> NoteRefusal {
        match why {
            RecordRefusal::NoRecord => NoteRefusal::NoRecord,
            RecordRefusal::BadRecord => NoteRefusal::BadRecord,
        }
    }
}

// The values of a note that has a record, unless its FocusMode is MANUAL.
#[tactic(auto, unfolding(crate::specs::Note::values_in))]
fn values_in(block: &[u8], order: ByteOrder, raw: Option<Size>) -> Result<NoteValues, NoteRefusal>
    ensures { note_means result ≡ values_in order block.now raw }
{
    let record = af_info2_of(block, order);
    if let Err(RecordRefusal::NoRecord) = record {
        return Err(NoteRefusal::NoRecord);
    }
    if crate::nikon::manual_focus(block, order) {
        return Err(NoteRefusal::ManualFocus);
    }
    let recorded = record?;
    Ok(NoteValues {
        recorded,
        crop: crate::nikon::crop_hi_speed(block, order),
        area: crate::nikon::crop_area(block, order, raw),
    })
}

// All that a load is told by the note of a block, in the order that its header gives.
#[tactic(auto, unfolding(crate::specs::Note::values_of))]
pub fn values_of(block: &[u8], raw: Option<Size>) -> Result<NoteValues, NoteRefusal>
    ensures { note_means result ≡ values_of block.now raw }
{
    let order = crate::ifd::parse_block(block).ok_or(NoteRefusal::Unreadable)?;
    values_in(block, order, raw)
}
