//! Streams of ZMTP 3 with the NULL mechanism (RFC 23), and PING and PONG of ZMTP 3.1 (RFC 37): a reader that takes them
//! in any pieces, and what this node writes of them.
#![tactic(auto)]

mod across;
mod begun;
mod bodies;
mod command;
mod expected;
mod fault;
mod faults;
mod front;
mod greeted;
mod head;
mod header;
mod heads;
mod item;
mod laws;
mod lending;
mod looks;
mod opened;
mod partial;
mod ping;
mod progress;
mod reader;
mod turns;
mod want;
mod writing;

pub use bodies::{Bodies, Came, LentBodies};
pub use fault::{Fed, FeedFault, ZmtpFault, ZmtpWhy};
pub use front::Front;
pub use item::{Item, Items, What};
pub use laws::{handshakes_are_read, looks_are_few, messages_are_read};
pub use looks::{Steps, Store};
pub use ping::context_of;
pub use reader::Reader;
pub use want::Want;
pub use writing::{SocketType, greeting, pong, ready, write_message};
