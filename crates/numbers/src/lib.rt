// Numbers in a byte order and parts of a lent slice.
// Every public function is total: it asks nothing of its caller and reads nothing past a slice's end.
#![tactic(auto)]

pub mod io; // io.rs: numbers in a byte order, and parts of a slice
