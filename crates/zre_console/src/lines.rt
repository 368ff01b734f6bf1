//! What a user of `chat` types: lines, each of which is a command.

pub mod laws;
mod line;
mod typist;

pub use line::{LINE_OCTETS, order};
pub use typist::Typist;
