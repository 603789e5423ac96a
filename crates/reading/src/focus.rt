// What a record says of its point beside the place, and 01's numbers for it.
ghost use Rattle.std.specs.Prelude.{◌≡◌};
ghost use Rattle.reading.specs.Focus.{in_focus_number, mode_number};

// Whether the camera confirmed focus.
// kept: a case for 'unrecorded', which 01 numbers 0 beside the other two.
#[derive(Clone, Copy, PartialEq, Eq, Debug, Default)]
pub enum InFocus {
    #[default]
    Unrecorded,
    No,
    Yes,
}

// How the camera chose its points.
// kept: a case for 01's 'none', which it numbers 0 beside the other four.
#[derive(Clone, Copy, PartialEq, Eq, Debug)]
pub enum FocusAreaMode {
    NoMode,
    Single,
    Dynamic,
    Auto,
    Tracking,
}

// 01's number for what a point says of its focus.
impl From<InFocus> for u32 {
    ghost from_gives = { λ in_focus n. n ≡ in_focus_number in_focus };

    #[tactic(auto, unfolding(crate::specs::Focus::in_focus_number))]
    fn from(in_focus: InFocus) -> u32 {
        match in_focus {
            InFocus::Unrecorded => 0,
            InFocus::No => 1,
            InFocus::Yes => 2,
        }
    }
}

// 01's number for an area mode.
impl From<FocusAreaMode> for u32 {
    ghost from_gives = { λ mode n. n ≡ mode_number mode };

    #[tactic(auto, unfolding(crate::specs::Focus::mode_number))]
    fn from(mode: FocusAreaMode) -> u32 {
        match mode {
            FocusAreaMode::NoMode => 0,
            FocusAreaMode::Single => 1,
            FocusAreaMode::Dynamic => 2,
            FocusAreaMode::Auto => 3,
            FocusAreaMode::Tracking => 4,
        }
    }
}
