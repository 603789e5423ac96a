// What the programs that test or time the other crates share: standard input whole or in records of one length, the numbers of a record,
// the load in one, and what a call ended with, as text.
#![tactic(auto)]

pub mod edit; // edit.rt: an edit as records hold it
pub mod fields; // fields.rt: the numbers and sizes of a record
pub mod input; // input.rt: a reader's bytes whole, and in records of one length
pub mod load; // load.rt: a load as records hold it
pub mod text; // text.rt: what a call ended with, and what is said of a load, as text
