//! The command `show`: a line for each item of a stream, from the octets of one whole connection.

mod lines;
mod lister;
mod meaning;
mod texts;

pub use lister::Lister;
