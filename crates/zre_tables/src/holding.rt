//! How many octets rows hold.

ghost use Rattle.std.specs.Prelude.{◌≡◌, ℕ, length, sum_by};
ghost use Rattle.std.specs.List.{AllByRecursion};
ghost use Rattle.zre_journal.specs.Held.{header_octets, view_octets};
ghost use Rattle.zre_tables.specs.Holding.{capped, conn_row_octets, peer_row_octets, shown_octets};
ghost use Rattle.zre_tables.specs.Holding.{IsReading, IsSending};
ghost use Rattle.zre_tables.specs.Views.{view_of_row};
ghost use Rattle.zre_tables.specs.declared.connection.Connection.{Connection as ConnectionValue};
ghost use Rattle.zre_tables.specs.declared.peer.Peer.{Peer as PeerValue};

use crate::connection::Connection;
use crate::conns::Conns;
use crate::peer::Peer;
use crate::peers::Peers;
use zre_peer::View;

// Of the names and the values of a peer's headers.
fn headers_octets(view: &View) -> u64
    ensures { result ≡ capped (header_octets view.now.headers) }
{
    let mut sum: u64 = 0;
    for i in 0..view.headers_len() {
        let (name, value) = view.header(i);
        sum = sum
            .saturating_add(name.len() as u64)
            .saturating_add(value.len() as u64);
    }
    sum
}

// Of the names of a peer's groups.
fn groups_octets(view: &View) -> u64
    ensures { result ≡ capped (sum_by length view.now.groups) }
{
    let mut sum: u64 = 0;
    for i in 0..view.groups_len() {
        sum = sum.saturating_add(view.group(i).len() as u64);
    }
    sum
}

// Of all that a peer has told.
fn view_octets(view: &View) -> u64
    ensures { result ≡ capped (view_octets view.now) }
{
    (view.name().len() as u64)
        .saturating_add(view.endpoint().len() as u64)
        .saturating_add(headers_octets(view))
        .saturating_add(groups_octets(view))
}

// The octets of a peer's view, where it is entered.
fn shown_octets(peer: &Peer) -> u64
    ensures { result ≡ capped (shown_octets (view_of_row peer.now)) }
{
    match peer.view() {
        Some(view) => view_octets(view),
        None => 0,
    }
}

// Of the replies on a peer's link, of what waits there, and of what it has told.
fn peer_octets(peer: &Peer) -> u64
    ensures { IsSending peer.now → result ≡ capped (peer_row_octets peer.now) }
{
    peer.link
        .kept()
        .saturating_add(peer.link.unsent())
        .saturating_add(shown_octets(peer))
}

// Of an open connection: where it is ignored nothing is kept.
fn conn_octets(conn: &Connection) -> u64
    ensures { IsReading conn.now.conn → result ≡ conn_row_octets conn.now }
{
    match &conn.conn {
        Some(conn) => conn.kept(),
        None => 0,
    }
}

impl Peers {
    /// How many octets they hold, or the greatest number where they are more.
    pub fn octets(&self) -> u64
        ensures { AllByRecursion (λ (e : ℕ × PeerValue). IsSending e.1) self.now →
            result ≡ capped (sum_by (λ (e : ℕ × PeerValue). peer_row_octets e.1) self.now) }
    {
        let mut sum: u64 = 0;
        for (_, peer) in &self.rows.all {
            sum = sum.saturating_add(peer_octets(peer));
        }
        sum
    }
}

impl Conns {
    /// How many octets they hold, or the greatest number where they are more.
    pub fn octets(&self) -> u64
        ensures { AllByRecursion (λ (e : ℕ × ConnectionValue). IsReading e.1.conn) self.now →
            result ≡ capped (sum_by (λ (e : ℕ × ConnectionValue). conn_row_octets e.1) self.now) }
    {
        let mut sum: u64 = 0;
        for (_, conn) in &self.rows.all {
            sum = sum.saturating_add(conn_octets(conn));
        }
        sum
    }
}
