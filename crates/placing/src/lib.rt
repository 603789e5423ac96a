// From what reading tells of a note to a frame and focus points: one load.
// Every public function is total: it asks nothing of its caller.
// The modules carry the names of the source files that they port, but for load (of focus.rs), named and recorded (of nikon.rs).
#![tactic(auto)]

pub mod focus; // focus.rs: when a point fits a frame, and a point measured in another frame
pub mod load; // focus.rs, FocusPoints: the points of one load in 39 places, or why there are none
pub mod named; // nikon.rs: the points that a record names, placed from the table
pub mod nikon; // nikon.rs, focus: one load
pub mod points; // points/mod.rs and nikon_d600.rs: the table of the body's points
pub mod recorded; // nikon.rs, in_crop: a recorded position on the picture that a crop leaves
