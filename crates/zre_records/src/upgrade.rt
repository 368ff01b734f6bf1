//! The command `upgrade`: a capture of format 1 in format 2, with the settings of its node.

mod upgrader;
mod writing;

pub use upgrader::Upgrader;
