//! Schedules read from their texts.

mod fields;
mod line;
mod lines;
mod reader;
mod schedule;

pub use reader::MoveReader;
pub use schedule::{Schedule, check_schedule, read_schedule};
