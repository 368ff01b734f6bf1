//! The command `chat`: a node in a thread of its own over the world, a reader in another that puts the commands of the
//! input's lines, and the caller's own thread, which writes the lines of what the node tells.
#![tactic(auto)]

mod chat;
mod threads;

pub use chat::Chat;
