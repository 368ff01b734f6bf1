//! Incoming connections: a ROUTER reads what its DEALERs say (RFC 23) as arrivals: the greeting, the identity of READY,
//! PINGs (RFC 37), and the messages of ZRE (RFC 36).
#![tactic(auto)]

mod arrival;
mod conn;
mod laws;
mod phase;
mod taking;

pub use arrival::{Arrival, Arrivals};
pub use conn::Conn;
pub use laws::{
    arrivals_are_in_order, completed_in_turn, identity_stays, just_whole_parts_are_heard,
    nothing_said, ready_introduces, talk_grows,
};
pub use taking::arrival_of;
