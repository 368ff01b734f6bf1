//! What a connection says, read beside the node to which it is handed.

ghost use Rattle.std.specs.Prelude.{◌≡◌, ◌+◌, ◌++◌, ℕ, List, [], length, IfOk};
ghost use Rattle.zre_values.specs.declared.peer_id.PeerId.{PeerId as PeerIdValue};
ghost use Rattle.zre_mailbox.specs.Conn.{conn_after};
ghost use Rattle.zre_mailbox.specs.Talk.{completed};

use std::alloc::Global;
use zre_mailbox::{Arrivals, Conn};
use zre_values::{OutOfMemory, PeerId, take_apart};
use zre_zmtp::FeedFault;

/// The octets of a connection so far.
pub(crate) struct ReadSide {
    alloc: Global,
    conn: Conn,
}

impl Drop for ReadSide {
    fn drop(self) {
        take_apart!(self, ReadSide: alloc, conn);
    }
}

// So many arrivals, and a fault.
fn with_fault(arrivals: usize) -> Result<u64, OutOfMemory>
    ensures { IfOk result (λ n. n ≡ arrivals + 1) }
{
    match (arrivals as u64).checked_add(1) {
        Some(n) => Ok(n),
        None => Err(OutOfMemory),
    }
}

impl ReadSide {
    /// None has come to the node with this UUID.
    pub fn new(alloc: Global, own: PeerId) -> ReadSide
        ensures { result.conn ≡ conn_after own [] }
    {
        ReadSide {
            alloc,
            conn: Conn::accept(alloc, own),
        }
    }

    /// More octets come: how many arrivals are whole with them, where a fault counts as one.
    pub fn hear(&mut self, piece: &[u8]) -> Result<u64, OutOfMemory>
        ensures { (own : PeerIdValue) (o : List ℕ) → self.old.conn ≡ conn_after own o →
            IfOk result (λ n. (n ≡ length (completed own o piece.now))
            × (self.new.conn ≡ conn_after own (o ++ piece.now))) }
    {
        if self.conn.ignored() || self.conn.spent() {
            return Ok(0);
        }
        let mut out = Arrivals::new(self.alloc);
        let fed = self.conn.feed(piece, &mut out);
        let arrivals = out.len();
        drop(out);
        match fed {
            Ok(()) => Ok(arrivals as u64),
            Err(FeedFault::Zmtp(_)) => with_fault(arrivals),
            Err(FeedFault::OutOfMemory) => Err(OutOfMemory),
        }
    }
}
