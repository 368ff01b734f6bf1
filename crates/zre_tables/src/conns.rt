//! The open connections.

ghost use Rattle.std.specs.Prelude.{◌≡◌, ℕ, List, [], Some, None, length, is_some, option_copied, OnOk, OnErr};
ghost use Rattle.std.specs.BTreeMap.{insert_entry};
ghost use Rattle.std.specs.Ordering.{nat_cmp};
ghost use Rattle.zre_tables.specs.Rows.{Changes, row_at, without_row};
ghost use Rattle.zre_tables.specs.declared.connection.Connection.{Connection as ConnectionValue};

use crate::connection::Connection;
use crate::rows::Rows;
use crate::searches::earlier_idle;
use std::alloc::Global;
use std::marker::Model;
use zre_values::{OutOfMemory, PeerId};

/// The open connections by their numbers. It is seen as the list of its rows.
///
/// Beside the rows stands a moment before which none of those that run no peer began to rest, so that they are gone
/// over only where one of them may have rested for too long.
#[derive(Drop)]
pub struct Conns {
    pub(crate) rows: Rows<Connection>,
    pub(crate) first: u64,
    pub(crate) alloc: Global,
}

impl Model for Conns {
    ghost use Rattle.std.specs.Prelude.{ℕ, List};
    ghost use Rattle.std.specs.List.Sorted.{IsStrictlySortedBy};
    ghost use Rattle.std.specs.Map.{keys_of};
    ghost use Rattle.std.specs.Ordering.{nat_cmp};
    ghost use Rattle.zre_tables.specs.IdleConnections.{AllIdleFrom};
    ghost use Rattle.zre_tables.specs.declared.connection.Connection.{Connection as ConnectionValue};

    ghost Value = { List (ℕ × ConnectionValue) };

    ghost view = { λ conns. conns.rows.all.items };

    ghost invariant = { λ conns. IsStrictlySortedBy nat_cmp (keys_of conns.rows.all.items)
        × AllIdleFrom conns.first conns.rows.all.items };
}

impl Conns {
    /// No connections. It takes no memory.
    pub fn new(alloc: Global) -> Self
        ensures { result ≡ [] }
    {
        Conns {
            rows: Rows::new(alloc),
            first: u64::MAX,
            alloc,
        }
    }

    /// How many there are.
    pub fn len(&self) -> usize
        ensures { result ≡ length self.now }
    {
        self.rows.all.len()
    }

    /// The connection with this number.
    pub fn get(&self, conn: u64) -> Option<&Connection>
        ensures value { option_copied result ≡ row_at conn self.now }
    {
        self.rows.get(conn)
    }

    /// Whether a connection with this number is open.
    pub fn contains(&self, conn: u64) -> bool
        ensures { result ≡ is_some (row_at conn self.now) }
    {
        self.rows.place(conn).is_some()
    }

    /// Lists a connection, or changes nothing where no memory is left.
    pub fn insert(&mut self, conn: u64, opened: Connection) -> Result<(), OutOfMemory>
        ensures ok { OnOk result (self.new ≡ insert_entry nat_cmp self.old conn opened) }
        ensures err { OnErr result (self.new ≡ self.old) }
    {
        self.first = earlier_idle(&opened, self.first);
        self.rows.insert(conn, opened)
    }

    /// Takes a connection out, if it is there.
    pub fn remove(&mut self, conn: u64)
        ensures { self.new ≡ without_row conn self.old }
    {
        self.rows.remove(conn);
    }

    /// READY introduced this peer on the connection.
    pub fn introduce(&mut self, conn: u64, peer: PeerId)
        ensures { Changes conn (λ (x : ConnectionValue). record x { identity = Some peer }) self.old self.new }
    {
        if let Some(at) = self.rows.place(conn) {
            self.rows.all[at].1.identity = Some(peer);
        }
    }

    /// The connection runs the peer of this link.
    pub fn carry(&mut self, conn: u64, link: u64)
        ensures { Changes conn (λ (x : ConnectionValue). record x { run = Some link }) self.old self.new }
    {
        if let Some(at) = self.rows.place(conn) {
            self.rows.all[at].1.run = Some(link);
        }
    }

    /// The connection is ignored from now on, and runs no peer.
    pub fn ignore(&mut self, conn: u64, now: u64)
        ensures { Changes conn (λ (x : ConnectionValue). record x { since = now; run = None; conn = None })
            self.old self.new }
    {
        if let Some(at) = self.rows.place(conn) {
            let found = &mut self.rows.all[at].1;
            found.ignore_from(now);
            self.first = earlier_idle(found, self.first);
        }
    }
}
