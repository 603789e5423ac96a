// From a lent block to what the maker note says of focus: the four values, the record and the contents.
// Every public function is total: it asks nothing of its caller and reads nothing past a slice's end.
// The modules carry the names of the source files that they port, but for afinfo (the record, of nikon.rs) and note.
#![tactic(auto)]

pub mod afinfo; // nikon.rs, the AFInfo2 record: its versions and layouts, and what it says
pub mod focus; // focus.rs: how an area was chosen, and whether focus was confirmed
pub mod geometry; // geometry.rs: sizes and positions in pixels
pub mod ifd; // ifd.rs: the block, its directory, an entry and its value
pub mod nikon; // nikon.rs, the readers: the four values, the contents
pub mod note; // a note: its lent bytes with their byte order, given together
pub mod types; // types.rs: the field types and their sizes
