//! The loop under every command that reads a stream: a machine makes text of octets, and the pump reads a source
//! in pieces, feeds the machine, writes its text to a sink, and says how it ended.

mod lines;
mod machine;
mod pumping;
mod status;

pub use lines::{push_bad_line, push_bad_line_at};
pub use machine::{Going, Machine};
pub use pumping::pump;
pub use status::Status;
