//! What is kept of an open connection.

ghost use Rattle.std.specs.Prelude.{◌≡◌, [], None, Some};
ghost use Rattle.zre_mailbox.specs.Conn.{conn_after};

use std::alloc::Global;
use zre_mailbox::Conn;
use zre_values::{PeerId, take_apart};

/// An open connection, by its number.
pub struct Connection {
    /// When it was opened or, where it is ignored, when it became so.
    pub since: u64,
    /// Whom its READY introduced.
    pub identity: Option<PeerId>,
    /// The link of the peer that it runs.
    pub run: Option<u64>,
    /// What reads it. Where it is ignored, nothing does.
    pub conn: Option<Conn>,
}

impl Drop for Connection {
    fn drop(self) {
        take_apart!(self, Connection: since, identity, run, conn);
    }
}

impl Connection {
    /// One that has just been opened.
    pub fn opened(alloc: Global, own: PeerId, now: u64) -> Self
        ensures { result ≡ record { since = now; identity = None; run = None; conn = Some (conn_after own []) } }
    {
        Connection {
            since: now,
            identity: None,
            run: None,
            conn: Some(Conn::accept(alloc, own)),
        }
    }

    // The connection is ignored from now on, and runs no peer.
    pub(crate) fn ignore_from(&mut self, now: u64)
        ensures { self.new ≡ record self.old { since = now; run = None; conn = None } }
    {
        self.since = now;
        self.run = None;
        self.conn = None;
    }
}
