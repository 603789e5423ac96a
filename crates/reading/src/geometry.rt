// Sizes and positions in pixels: the types of geometry.rs, and when a rectangle lies in a frame.
ghost use Rattle.std.specs.Prelude.{◌≡◌};

// A width and a height.
#[derive(Clone, Copy, PartialEq, Eq, Debug, Default)]
pub struct Size {
    pub width: u32,
    pub height: u32,
}

// A part of a frame: its top left corner and its sides.
#[derive(Clone, Copy, PartialEq, Eq, Debug, Default)]
pub struct Rectangle {
    pub left: u32,
    pub top: u32,
    pub width: u32,
    pub height: u32,
}

impl Rectangle {
    ghost use Rattle.reading.specs.Geometry.{size_of, lies_in};

    // Its width and height.
    pub fn size(self) -> Size
        ensures { result ≡ size_of self }
    {
        Size {
            width: self.width,
            height: self.height,
        }
    }

    // Whether it has no zero side and does not pass the frame.
    #[tactic(auto, unfolding(crate::specs::Geometry::lies_in))]
    pub fn lies_in(self, frame: Size) -> bool
        ensures { result ≡ lies_in self frame }
    {
        0 < self.width
            && 0 < self.height
            && u64::from(self.left) + u64::from(self.width) <= u64::from(frame.width)
            && u64::from(self.top) + u64::from(self.height) <= u64::from(frame.height)
    }
}

// A distance from the left edge, and one from the top edge.
#[derive(Clone, Copy, PartialEq, Eq, Debug, Default)]
pub struct Point {
    pub x: u32,
    pub y: u32,
}
