// What the Nikon maker note says of focus: the four values, the record, and which of their tags are there.
ghost use Rattle.std.specs.Prelude.{◌≡◌, ◌<◌, ◌==◌};
ghost use Rattle.std.specs.List.{position};
ghost use Rattle.reading.specs.Values.{up_to_zero, trim_start, trim_end, is_manual, manual_focus_of, number_at, crop_hi_speed_of, is_rectangle, inside_raw, crop_area_of, af_info2_of};
ghost use Rattle.reading.specs.Geometry.{corner_of, size_of};
ghost use Rattle.reading.specs.Record.{record_means};
ghost use Rattle.reading.specs.Contents.{contents_of, laid_tags, contents_means};

use crate::afinfo::{FocusRecord, RecordRefusal};
use crate::geometry::{Point, Rectangle, Size};
use crate::ifd::TagList;
use numbers::io::ByteOrder;

// FocusMode: text.
pub const FOCUS_MODE: u16 = 0x0007;
// CropHiSpeed: seven 16-bit numbers.
pub const CROP_HI_SPEED: u16 = 0x001B;
// CropArea: left, top, width and height of the visible image in the raw data.
pub const CROP_AREA: u16 = 0x0045;
// AFInfo2: the focus record.
pub const AF_INFO2: u16 = 0x00B7;

// Where the first zero byte of a text is.
fn first_zero(s: &[u8]) -> Option<usize>
    ensures { result ≡ position (λ byte. byte == 0) s.now }
{
    s.iter().position(|&byte| byte == 0)
}

// The front of a text, up to its first zero byte.
#[tactic(auto, using(crate::proofs::Text::before_zero, crate::proofs::Text::no_zero))]
fn up_to_zero(s: &[u8]) -> &[u8]
    ensures { result.now ≡ up_to_zero s.now }
{
    match first_zero(s) {
        Some(zero) => numbers::io::head(s, zero),
        None => s,
    }
}

// A text without the spaces at its front.
#[tactic(auto, unfolding(crate::specs::Values::trim_start))]
fn trim_start(s: &[u8]) -> &[u8]
    ensures { result.now ≡ trim_start s.now }
{
    let mut rest = s;
    while let [b' ', behind @ ..] = rest {
        rest = behind;
    }
    rest
}

// A text without the spaces at its end.
#[tactic(auto, using(crate::proofs::Text::space_last, crate::proofs::Text::other_last), unfolding(crate::specs::Values::trim_end, crate::specs::Values::trim_start))]
fn trim_end(s: &[u8]) -> &[u8]
    ensures { result.now ≡ trim_end s.now }
{
    let mut rest = s;
    while let [before @ .., b' '] = rest {
        rest = before;
    }
    rest
}

// Whether a FocusMode text reads MANUAL.
#[tactic(auto, unfolding(crate::specs::Values::is_manual))]
fn is_manual(value: &[u8]) -> bool
    ensures { result ≡ is_manual value.now }
{
    let text = up_to_zero(value);
    if 255 < text.len() {
        return false;
    }
    numbers::io::equals(trim_end(trim_start(text)), b"MANUAL")
}

// Whether FocusMode records manual focus.
#[tactic(auto, unfolding(crate::specs::Values::manual_focus_of))]
pub fn manual_focus(block: &[u8], order: ByteOrder) -> bool
    ensures { result ≡ manual_focus_of order block.now }
{
    let Some(entry) = crate::ifd::find_entry(block, order, FOCUS_MODE) else {
        return false;
    };
    entry.typ == crate::types::ASCII && is_manual(entry.value_in(block))
}

// Number `i` of a value whose numbers are 16 bits wide if `typ` is SHORT, else 32.
#[tactic(auto, unfolding(crate::specs::Values::number_at))]
fn number_at(value: &[u8], order: ByteOrder, typ: u16, i: usize) -> u32
    requires { i < 8 }
    ensures { result ≡ number_at order typ value.now i }
{
    if typ == crate::types::SHORT {
        return u32::from(numbers::io::u16_of(numbers::io::tail(value, 2 * i), order));
    }
    numbers::io::u32_of(numbers::io::tail(value, 4 * i), order)
}

// What CropHiSpeed records: the crop's mode, the picture's size before and after it, and where it starts.
#[derive(Clone, Copy, PartialEq, Eq, Debug)]
pub struct CropHiSpeed {
    pub mode: u32,
    pub original: Size,
    pub cropped: Size,
    pub origin: Point,
}

// What CropHiSpeed records of the crop, if it records one.
#[tactic(auto, unfolding(crate::specs::Values::crop_hi_speed_of))]
pub fn crop_hi_speed(block: &[u8], order: ByteOrder) -> Option<CropHiSpeed>
    ensures { result ≡ crop_hi_speed_of order block.now }
{
    let entry = crate::ifd::find_entry(block, order, CROP_HI_SPEED)?;
    if entry.typ != crate::types::SHORT || entry.count() != 7 {
        return None;
    }
    let value = entry.value_in(block);
    let short = crate::types::SHORT;
    Some(CropHiSpeed {
        mode: number_at(value, order, short, 0),
        original: Size {
            width: number_at(value, order, short, 1),
            height: number_at(value, order, short, 2),
        },
        cropped: Size {
            width: number_at(value, order, short, 3),
            height: number_at(value, order, short, 4),
        },
        origin: Point {
            x: number_at(value, order, short, 5),
            y: number_at(value, order, short, 6),
        },
    })
}

// What CropArea gives: nothing, a value that cannot be used, or the size of the window that it describes.
// kept: three cases that each load tells apart; an Option in a Result would have no plainer match.
#[derive(Clone, Copy, PartialEq, Eq, Debug)]
pub enum CropArea {
    Absent,
    Unusable,
    Window(Size),
}

// The window that a rectangle is, where it lies in `raw`.
#[tactic(auto, unfolding(crate::specs::Values::inside_raw, crate::specs::Geometry::lies_in))]
fn inside_raw(raw: Size, window: Rectangle) -> CropArea
    ensures { result ≡ inside_raw raw (corner_of window) (size_of window) }
{
    if window.lies_in(raw) {
        CropArea::Window(window.size())
    } else {
        CropArea::Unusable
    }
}

// Whether the entry's numbers are such as CropArea has: four of 16 or of 32 bits.
#[tactic(auto, unfolding(crate::specs::Values::is_rectangle))]
fn is_rectangle(typ: u16, count: u32) -> bool
    ensures { result ≡ is_rectangle typ count }
{
    count == 4 && (typ == crate::types::SHORT || typ == crate::types::LONG)
}

// What CropArea gives in raw data of the size `raw`.
#[tactic(auto, unfolding(crate::specs::Values::crop_area_of, crate::specs::Values::window_in))]
pub fn crop_area(block: &[u8], order: ByteOrder, raw: Option<Size>) -> CropArea
    ensures { result ≡ crop_area_of order block.now raw }
{
    let Some(entry) = crate::ifd::find_entry(block, order, CROP_AREA) else {
        return CropArea::Absent;
    };
    if !is_rectangle(entry.typ, entry.count()) {
        return CropArea::Unusable;
    }
    let value = entry.value_in(block);
    let window = Rectangle {
        left: number_at(value, order, entry.typ, 0),
        top: number_at(value, order, entry.typ, 1),
        width: number_at(value, order, entry.typ, 2),
        height: number_at(value, order, entry.typ, 3),
    };
    raw.map_or(CropArea::Unusable, |frame| inside_raw(frame, window))
}

// The block's record.
#[tactic(auto, unfolding(crate::specs::Values::af_info2_of))]
pub fn af_info2(block: &[u8], order: ByteOrder) -> Result<FocusRecord, RecordRefusal>
    ensures { record_means result ≡ af_info2_of order block.now }
{
    match crate::ifd::find_entry(block, order, AF_INFO2) {
        Some(entry) if entry.typ == crate::types::UNDEFINED => {
            crate::afinfo::af_info2_record(entry.value_in(block), order)
        }
        _ => Err(RecordRefusal::NoRecord),
    }
}

// The four tags.
const TAGS: [u16; 4] = [FOCUS_MODE, CROP_HI_SPEED, CROP_AREA, AF_INFO2];

// Which of the four tags have a kept entry, in the order of their first kept entries in the directory; none where the block cannot be
// read.
#[tactic(auto, unfolding(crate::specs::Contents::contents_of, crate::specs::Contents::laid_tags, crate::specs::Contents::tags_of))]
pub fn contents(block: &[u8]) -> Option<TagList>
    ensures { contents_means result ≡ laid_tags (contents_of block.now) }
{
    let order = crate::ifd::parse_block(block)?;
    Some(crate::ifd::find_tags(block, order, TAGS))
}
