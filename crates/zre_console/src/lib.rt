//! What programs share that run a node in a thread of its own, for one user or for several: the lines that are typed,
//! the job that reads them and puts their commands into the pipe, and the printer, which writes the lines of events;
//! how such a node is prepared, what each thread is given, and how all of it ends.
#![tactic(auto)]

pub mod entering;
pub mod finishing;
pub mod keeping;
pub mod lines;
pub mod places;
pub mod printer;
pub mod reader;
pub mod starting;
pub mod statuses;
pub mod table;
pub mod talk;
pub mod values;
