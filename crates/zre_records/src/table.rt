//! The command `table`: the table that a node shares over a group, from a capture of its journal.

mod gathering;
mod tabulator;
mod taking;
mod told;

pub use tabulator::Tabulator;
