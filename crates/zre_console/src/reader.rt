//! The reader of a chat: a job that puts the commands of a source's lines into the command pipe.

mod ending;
mod job;
mod putting;
mod reading;

pub use ending::InputEnd;
pub use job::{ReaderDone, ReaderJob};
pub use putting::close;
