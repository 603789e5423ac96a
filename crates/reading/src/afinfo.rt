// The AFInfo2 record: its versions and layouts, and what it says of the focus point. 01's 'Record'.
// Every public function is total: it asks nothing of its caller and reads nothing past a slice's end.
ghost use Rattle.std.specs.Prelude.{◌<◌, ◌≡◌, get_or, drop};
ghost use Rattle.numbers.specs.Numbers.{shorts_of};
ghost use Rattle.reading.specs.Inside.{if_zero, no_version};
ghost use Rattle.reading.specs.Record.{versions, layouts, no_layout, layout_of, area_mode_of, in_focus_of, mask_of, named_of, size_at, record_in, record_means, record_of};

use crate::focus::{FocusAreaMode, InFocus};
use crate::geometry::{Point, Size};
use numbers::io::{ByteOrder, Pair};

// Where a record keeps its frame, centre, area, in-focus byte and names, and how long it is at least.
#[derive(Clone, Copy, PartialEq, Eq, Debug)]
pub struct Layout {
    pub min_len: usize,
    pub frame: usize,
    pub center: usize,
    pub area: usize,
    pub in_focus: Option<usize>,
    pub named: Option<usize>,
}

// A version's text, and which of the layouts it has.
#[derive(Clone, Copy, PartialEq, Eq, Debug)]
pub struct Version {
    pub text: [u8; 4],
    pub layout: usize,
}

// The four record layouts.
const LAYOUTS: [Layout; 4] = [
    Layout {
        min_len: 30,
        frame: 16,
        center: 20,
        area: 24,
        in_focus: Some(28),
        named: Some(6),
    },
    Layout {
        min_len: 84,
        frame: 70,
        center: 74,
        area: 78,
        in_focus: Some(82),
        named: None,
    },
    Layout {
        min_len: 60,
        frame: 42,
        center: 46,
        area: 50,
        in_focus: None,
        named: None,
    },
    Layout {
        min_len: 80,
        frame: 62,
        center: 66,
        area: 70,
        in_focus: Some(74),
        named: None,
    },
];

// The seven versions.
// kept: they share four layouts, so each has the index of its own, as in 01's table; what stands past the table is never read.
const VERSIONS: [Version; 7] = [
    Version {
        text: *b"0100",
        layout: 0,
    },
    Version {
        text: *b"0101",
        layout: 1,
    },
    Version {
        text: *b"0300",
        layout: 2,
    },
    Version {
        text: *b"0301",
        layout: 2,
    },
    Version {
        text: *b"0400",
        layout: 3,
    },
    Version {
        text: *b"0401",
        layout: 3,
    },
    Version {
        text: *b"0402",
        layout: 3,
    },
];

// What stands past the table of layouts.
const NO_LAYOUT: Layout = Layout {
    min_len: 0,
    frame: 0,
    center: 0,
    area: 0,
    in_focus: None,
    named: None,
};

// The layout at an index of the table.
fn layout_at(i: usize) -> Layout
    ensures { result ≡ get_or layouts i no_layout }
{
    LAYOUTS.get(i).copied().unwrap_or(NO_LAYOUT)
}

// The layout of the version that the first four bytes of a record name, if it is one of the seven.
fn layout_of(value: &[u8]) -> Option<Layout>
    ensures { result ≡ layout_of value.now }
{
    let start = numbers::io::head(value, 4);
    for version in &VERSIONS {
        if numbers::io::equals(start, &version.text) {
            return Some(layout_at(version.layout));
        }
    }
    None
}

// The area mode that bytes 4 and 5 of a record name: the detection method and the mode's code.
#[tactic(auto, unfolding(crate::specs::Record::area_mode_of))]
pub fn area_mode(detection: u8, code: u8) -> FocusAreaMode
    ensures { result ≡ area_mode_of detection code }
{
    match (detection, code) {
        (_, 193) | (0, 0) => FocusAreaMode::Single,
        (0, 5) => FocusAreaMode::Dynamic,
        (_, 197) | (0, 8) => FocusAreaMode::Auto,
        (0, 9) | (1 | 2, 207) => FocusAreaMode::Tracking,
        _ => FocusAreaMode::NoMode,
    }
}

// The in-focus byte, where the layout has one.
#[tactic(auto, unfolding(crate::specs::Record::by_byte))]
fn in_focus_at(value: &[u8], place: Option<usize>) -> InFocus
    ensures { result ≡ in_focus_of place value.now }
{
    let Some(at) = place else {
        return InFocus::Unrecorded;
    };
    match numbers::io::u8_at(value, at) {
        0 => InFocus::No,
        1 => InFocus::Yes,
        _ => InFocus::Unrecorded,
    }
}

// The points that a record names: the layout code of their numbers, the primary's number, and the mask of
// the points used, one bit each.
#[derive(Clone, Copy, PartialEq, Eq, Debug)]
pub struct NamedPoints {
    pub layout_code: u8,
    pub primary: u8,
    pub mask: u64,
}

// Seven bytes as one number, least significant first.
#[tactic(auto, unfolding(crate::specs::Record::mask_of))]
fn mask_of(s: &[u8]) -> u64
    ensures { result ≡ mask_of s.now }
{
    u64::from_le_bytes([
        numbers::io::u8_at(s, 0),
        numbers::io::u8_at(s, 1),
        numbers::io::u8_at(s, 2),
        numbers::io::u8_at(s, 3),
        numbers::io::u8_at(s, 4),
        numbers::io::u8_at(s, 5),
        numbers::io::u8_at(s, 6),
        0,
    ])
}

// The points that a record names, where the layout has names.
fn named_points(value: &[u8], place: Option<usize>) -> Option<NamedPoints>
    ensures { result ≡ named_of place value.now }
{
    let names = numbers::io::tail(value, place?);
    Some(NamedPoints {
        layout_code: numbers::io::u8_at(names, 0),
        primary: numbers::io::u8_at(names, 1),
        mask: mask_of(numbers::io::tail(names, 2)),
    })
}

// What a record says of the focus point.
#[derive(Clone, Copy, PartialEq, Eq, Debug)]
pub struct FocusRecord {
    pub frame: Size,
    pub center: Point,
    pub area: Size,
    pub in_focus: InFocus,
    pub area_mode: FocusAreaMode,
    pub named: Option<NamedPoints>,
}

// Why there is no record: there is no entry of its type, or its value cannot be used.
#[derive(Clone, Copy, PartialEq, Eq, Debug)]
pub enum RecordRefusal {
    NoRecord,
    BadRecord,
}

// The pair that starts at `at`.
// kept: the pair reader is handed the part of the value from there on, a form that 01 names.
fn shorts_at(value: &[u8], at: usize, order: ByteOrder) -> Pair
    ensures { result ≡ shorts_of order (drop at value.now) }
{
    numbers::io::shorts(numbers::io::tail(value, at), order)
}

#[tactic(auto, unfolding(crate::specs::Record::size_at))]
fn size_at(value: &[u8], at: usize, order: ByteOrder) -> Size
    ensures { result ≡ size_at order value.now at }
{
    let pair = shorts_at(value, at, order);
    Size {
        width: u32::from(pair.first),
        height: u32::from(pair.second),
    }
}

#[tactic(auto, unfolding(crate::specs::Record::record_in))]
fn record_in(value: &[u8], order: ByteOrder, layout: Layout) -> FocusRecord
    ensures { result ≡ record_in order value.now layout }
{
    let center = size_at(value, layout.center, order);
    FocusRecord {
        frame: size_at(value, layout.frame, order),
        center: Point {
            x: center.width,
            y: center.height,
        },
        area: size_at(value, layout.area, order),
        in_focus: in_focus_at(value, layout.in_focus),
        area_mode: area_mode(numbers::io::u8_at(value, 4), numbers::io::u8_at(value, 5)),
        named: named_points(value, layout.named),
    }
}

// What the value of a record says.
#[tactic(auto, unfolding(crate::specs::Record::record_of))]
pub fn af_info2_record(value: &[u8], order: ByteOrder) -> Result<FocusRecord, RecordRefusal>
    ensures { record_means result ≡ record_of order value.now }
{
    let layout = layout_of(value).ok_or(RecordRefusal::BadRecord)?;
    if value.len() < layout.min_len {
        return Err(RecordRefusal::BadRecord);
    }
    Ok(record_in(value, order, layout))
}
