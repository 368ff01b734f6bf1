//! Outgoing connections: a node speaks as a DEALER (RFC 23), and numbers the messages of ZRE that it puts on the link
//! (RFC 36). What comes back is read as the stream of a ROUTER: it tells how much may go out, and its PINGs are
//! answered (RFC 37).
#![tactic(auto)]

mod answers;
mod awaits;
mod fault;
mod hearing;
mod link;
mod putting;
mod queue;
mod replies;
mod tail;

pub use fault::{PushFault, ReplyFault};
pub use link::Link;
pub use queue::Queue;
pub use tail::Tail;
