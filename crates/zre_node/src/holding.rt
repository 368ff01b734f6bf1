//! How many octets the tables hold.

ghost use Rattle.std.specs.Prelude.{◌≡◌, ◌+◌, ℕ, length, sum_by};
ghost use Rattle.std.specs.List.{AllByRecursion};
ghost use Rattle.zre_journal.specs.Held.{header_octets};
ghost use Rattle.zre_tables.specs.Holding.{capped, conn_row_octets, peer_row_octets, IsReading, IsSending};
ghost use Rattle.zre_tables.specs.declared.connection.Connection.{Connection as ConnectionValue};
ghost use Rattle.zre_tables.specs.declared.peer.Peer.{Peer as PeerValue};

use crate::tables::Tables;
use zre_values::Pairs;

// Of the names and the values of the node's own headers.
fn pairs_octets(headers: &Pairs) -> u64
    ensures { result ≡ capped (header_octets headers.now) }
{
    let mut sum: u64 = 0;
    for header in headers.as_slice() {
        sum = sum
            .saturating_add(header.0.len() as u64)
            .saturating_add(header.1.len() as u64);
    }
    sum
}

impl Tables {
    // Of the node itself.
    fn own_octets(&self) -> u64
        ensures { result ≡ capped (length self.now.config.name + header_octets self.now.config.headers
            + sum_by length self.now.own.groups) }
    {
        (self.config.name.len() as u64)
            .saturating_add(pairs_octets(&self.config.headers))
            .saturating_add(self.own.octets())
    }

    /// How many octets the tables hold, or the greatest number where they are more.
    pub fn octets(&self) -> u64
        ensures { AllByRecursion (λ (e : ℕ × ConnectionValue). IsReading e.1.conn) self.now.conns →
            AllByRecursion (λ (e : ℕ × PeerValue). IsSending e.1) self.now.peers →
            result ≡ capped (sum_by (λ (e : ℕ × ConnectionValue). conn_row_octets e.1) self.now.conns
            + sum_by (λ (e : ℕ × PeerValue). peer_row_octets e.1) self.now.peers
            + (length self.now.config.name + header_octets self.now.config.headers
            + sum_by length self.now.own.groups)) }
    {
        self.conns
            .octets()
            .saturating_add(self.peers.octets())
            .saturating_add(self.own_octets())
    }
}
