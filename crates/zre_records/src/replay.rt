//! The command `replay`: the events of a node, from a capture of its journal.

mod event_lines;
mod head_replayer;
pub(crate) mod headed;
pub(crate) mod lives;
pub(crate) mod reading;
mod replayer;
mod taking;
pub(crate) mod waiting;

pub use head_replayer::HeadReplayer;
pub use replayer::Replayer;
