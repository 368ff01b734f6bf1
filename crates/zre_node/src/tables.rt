//! What a node keeps.

ghost use Rattle.std.specs.Prelude.{◌≡◌, ◌<◌};
ghost use Rattle.zre_node.specs.Stands.{is_above};

use std::alloc::Global;
use zre_group::Own;
use zre_journal::Config;
use zre_tables::{Conns, Peers};
use zre_values::Octets;

/// The tables of a node: the known peers by their links, which rise with their births, and the open connections by
/// their numbers.
#[derive(Drop)]
pub struct Tables {
    /// What its lists take their memory from.
    pub alloc: Global,
    /// Who the node is.
    pub config: Config,
    /// The endpoint that its HELLO names.
    pub mailbox: Octets,
    /// The greatest reading so far.
    pub clock: u64,
    /// How many peers were born, which is the number of the last link.
    pub births: u64,
    /// The greatest number of a connection that came.
    pub last: Option<u64>,
    /// The known peers, by their links.
    pub peers: Peers,
    /// The open connections, by their numbers.
    pub conns: Conns,
    /// The groups that the node is in, with its status.
    pub own: Own,
    /// Whether it has stopped, so that nothing has an effect any more.
    pub stopped: bool,
}

/// Whether this number is above the last one.
pub fn is_new(last: Option<u64>, conn: u64) -> bool
    ensures { result ≡ is_above last conn }
{
    match last {
        Some(last) => last < conn,
        None => true,
    }
}
