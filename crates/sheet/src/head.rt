// What list and fit answer beside the points.
ghost use Rattle.std.specs.Prelude.{◌≡◌, ◌≤◌};
ghost use Rattle.sheet.specs.Head.{head_of};

use placing::load::FocusOrigin;
use reading::focus::FocusAreaMode;
use reading::geometry::Size;

// How many points a load may have.
pub const MOST_POINTS: usize = 39;

// What a listing says beside its points: their frame and number, and the primary's index among them.
#[derive(Clone, Copy, PartialEq, Eq, Debug)]
pub struct ListHead {
    pub frame: Size,
    pub count: usize,
    pub index: usize,
    pub mode: FocusAreaMode,
    pub origin: FocusOrigin,
    ghost counted: { count ≤ 39 },
    ghost placed: { index ≤ 39 },
}

impl ListHead {
    // What it says, in 01's numbers.
    #[tactic(auto, unfolding(crate::specs::Head::head_of))]
    pub fn numbers(self) -> [u32; 6]
        ensures { result ≡ head_of self.frame self.count self.index self.mode self.origin }
    {
        [
            self.frame.width,
            self.frame.height,
            self.count as u32,
            self.index as u32,
            u32::from(self.mode),
            u32::from(self.origin),
        ]
    }
}
