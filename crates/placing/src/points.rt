// The table of a body's autofocus points: where each point that the body names by its number lies on its picture.
ghost use Rattle.std.specs.Prelude.{◌≡◌};
ghost use Rattle.placing.specs.Points.{table_of, points};

use reading::geometry::{Point, Size};

// A point of the table: its number as the camera writes it, the center of its box and the box's size, in the body's full-size frame.
#[derive(Clone, Copy, PartialEq, Eq, Debug)]
pub struct FocusLayoutPoint {
    pub number: u32,
    pub center: Point,
    pub size: Size,
}

// The tables of points, by body.
#[derive(Clone, Copy, PartialEq, Eq, Debug)]
pub enum PointTable {
    NikonD600,
}

// The size of every point's box.
const BOX: Size = Size {
    width: 164,
    height: 164,
};

// The layout code that the body writes beside a number of this table.
pub const LAYOUT_CODE: u8 = 3;

// The D600's 39 points, in number order.
const POINTS: [FocusLayoutPoint; 39] = [
    FocusLayoutPoint {
        number: 1,
        center: Point { x: 3008, y: 2007 },
        size: BOX,
    },
    FocusLayoutPoint {
        number: 2,
        center: Point { x: 3008, y: 1755 },
        size: BOX,
    },
    FocusLayoutPoint {
        number: 3,
        center: Point { x: 3008, y: 1503 },
        size: BOX,
    },
    FocusLayoutPoint {
        number: 4,
        center: Point { x: 3008, y: 2258 },
        size: BOX,
    },
    FocusLayoutPoint {
        number: 5,
        center: Point { x: 3008, y: 2510 },
        size: BOX,
    },
    FocusLayoutPoint {
        number: 6,
        center: Point { x: 3247, y: 2007 },
        size: BOX,
    },
    FocusLayoutPoint {
        number: 7,
        center: Point { x: 3247, y: 1755 },
        size: BOX,
    },
    FocusLayoutPoint {
        number: 8,
        center: Point { x: 3247, y: 1503 },
        size: BOX,
    },
    FocusLayoutPoint {
        number: 9,
        center: Point { x: 3247, y: 2258 },
        size: BOX,
    },
    FocusLayoutPoint {
        number: 10,
        center: Point { x: 3247, y: 2510 },
        size: BOX,
    },
    FocusLayoutPoint {
        number: 11,
        center: Point { x: 2768, y: 2007 },
        size: BOX,
    },
    FocusLayoutPoint {
        number: 12,
        center: Point { x: 2768, y: 1755 },
        size: BOX,
    },
    FocusLayoutPoint {
        number: 13,
        center: Point { x: 2768, y: 1503 },
        size: BOX,
    },
    FocusLayoutPoint {
        number: 14,
        center: Point { x: 2768, y: 2258 },
        size: BOX,
    },
    FocusLayoutPoint {
        number: 15,
        center: Point { x: 2768, y: 2510 },
        size: BOX,
    },
    FocusLayoutPoint {
        number: 16,
        center: Point { x: 3486, y: 2007 },
        size: BOX,
    },
    FocusLayoutPoint {
        number: 17,
        center: Point { x: 3486, y: 1705 },
        size: BOX,
    },
    FocusLayoutPoint {
        number: 18,
        center: Point { x: 3486, y: 2308 },
        size: BOX,
    },
    FocusLayoutPoint {
        number: 19,
        center: Point { x: 3724, y: 2007 },
        size: BOX,
    },
    FocusLayoutPoint {
        number: 20,
        center: Point { x: 3724, y: 1705 },
        size: BOX,
    },
    FocusLayoutPoint {
        number: 21,
        center: Point { x: 3724, y: 2308 },
        size: BOX,
    },
    FocusLayoutPoint {
        number: 22,
        center: Point { x: 3963, y: 2007 },
        size: BOX,
    },
    FocusLayoutPoint {
        number: 23,
        center: Point { x: 3963, y: 1705 },
        size: BOX,
    },
    FocusLayoutPoint {
        number: 24,
        center: Point { x: 3963, y: 2308 },
        size: BOX,
    },
    FocusLayoutPoint {
        number: 25,
        center: Point { x: 4203, y: 2007 },
        size: BOX,
    },
    FocusLayoutPoint {
        number: 26,
        center: Point { x: 4203, y: 1705 },
        size: BOX,
    },
    FocusLayoutPoint {
        number: 27,
        center: Point { x: 4203, y: 2308 },
        size: BOX,
    },
    FocusLayoutPoint {
        number: 28,
        center: Point { x: 2529, y: 2007 },
        size: BOX,
    },
    FocusLayoutPoint {
        number: 29,
        center: Point { x: 2529, y: 1705 },
        size: BOX,
    },
    FocusLayoutPoint {
        number: 30,
        center: Point { x: 2529, y: 2308 },
        size: BOX,
    },
    FocusLayoutPoint {
        number: 31,
        center: Point { x: 2289, y: 2007 },
        size: BOX,
    },
    FocusLayoutPoint {
        number: 32,
        center: Point { x: 2289, y: 1705 },
        size: BOX,
    },
    FocusLayoutPoint {
        number: 33,
        center: Point { x: 2289, y: 2308 },
        size: BOX,
    },
    FocusLayoutPoint {
        number: 34,
        center: Point { x: 2050, y: 2007 },
        size: BOX,
    },
    FocusLayoutPoint {
        number: 35,
        center: Point { x: 2050, y: 1705 },
        size: BOX,
    },
    FocusLayoutPoint {
        number: 36,
        center: Point { x: 2050, y: 2308 },
        size: BOX,
    },
    FocusLayoutPoint {
        number: 37,
        center: Point { x: 1812, y: 2007 },
        size: BOX,
    },
    FocusLayoutPoint {
        number: 38,
        center: Point { x: 1812, y: 1705 },
        size: BOX,
    },
    FocusLayoutPoint {
        number: 39,
        center: Point { x: 1812, y: 2308 },
        size: BOX,
    },
];

// The table of a model's points, if it has one: the whole name counts.
#[tactic(auto, unfolding(crate::specs::Points::table_of))]
pub fn find(model: &[u8]) -> Option<PointTable>
    ensures { result ≡ table_of model.now }
{
    numbers::io::equals(model, b"NIKON D600").then_some(PointTable::NikonD600)
}

// The D600's table, whole.
// kept: one constant table, a form that 01 names.
pub fn table() -> [FocusLayoutPoint; 39]
    ensures { result ≡ points }
{
    POINTS
}
