//! Pieces of connections.

ghost use Rattle.std.specs.Prelude.{◌≡◌, ◌≢◌, ℕ, List, [], ◌++◌, None, Some, Ok, IfOk, length, map, ◌+◌, ◌≤◌};
ghost use Rattle.zre_values.specs.declared.peer_id.PeerId.{PeerId as PeerIdValue};
ghost use Rattle.zre_zmtp.specs.Looks.{Looks};
ghost use Rattle.zre_mailbox.specs.Conn.{conn_after, held_of};
ghost use Rattle.zre_mailbox.specs.Talk.{Arrived, arrivals_in, completed, fault_said};
ghost use Rattle.zre_tables.specs.Rows.{row_at, with_row};
ghost use Rattle.zre_tables.specs.Holding.{reader_at};
ghost use Rattle.zre_tables.specs.Lending.{ConnTakes, RowTakes};
ghost use Rattle.zre_tables.specs.declared.connection.Connection.{Connection as ConnectionValue};

use crate::conns::Conns;
use std::sync::ledger::Ledger;
use zre_mailbox::Conn;
use zre_values::OutOfMemory;
use zre_zmtp::{Bodies, Came, FeedFault, Items, Steps, ZmtpFault};

// A connection is fed, and what it says is read into an empty list. After a fault it says nothing more.
fn read<L: Ledger>(
    conn: &mut Conn,
    bytes: &[u8],
    items: &mut Items,
    steps: &mut Steps<L>,
) -> Result<Option<ZmtpFault>, OutOfMemory>
    // What is read.
    requires { items.old ≡ [] }
    ensures heard { (own : PeerIdValue) (o : List ℕ) → conn.old ≡ conn_after own o →
        IfOk result (λ fault. (conn.new ≡ conn_after own (o ++ bytes.now))
        × (map (λ a. Arrived a) (arrivals_in items.new) ++ fault_said fault ≡ completed own o bytes.now)) }
    // How many octets are looked at.
    ensures once { steps.new ≤ steps.old + length bytes.now }
    ensures looks { (own : PeerIdValue) (o : List ℕ) → conn.old ≡ conn_after own o →
        Looks steps.old steps.new (held_of conn.old) (held_of conn.new) (length bytes.now) result }
{
    if conn.ignored() {
        return Ok(None);
    }
    if conn.spent() {
        return Ok(None);
    }
    match conn.feed_items(bytes, items, steps) {
        Ok(()) => Ok(None),
        Err(FeedFault::Zmtp(fault)) => Ok(Some(fault)),
        Err(FeedFault::OutOfMemory) => Err(OutOfMemory),
    }
}

// A connection takes a piece where it lies, if it may. After a fault it says nothing more.
#[inline(always)]
fn lend<'a, L: Ledger>(
    conn: &mut Conn,
    bytes: &'a [u8],
    bodies: &'a mut Bodies,
    steps: &mut Steps<L>,
) -> Result<Came<'a>, OutOfMemory>
    // What the connection takes, and what it says with it.
    ensures taken { (own : PeerIdValue) (o : List ℕ) → conn.old ≡ conn_after own o →
        IfOk result (λ came. ConnTakes came own o bytes.now conn.old conn.new) }
    ensures other { result ≡ Ok Came.Other → (conn.new ≡ conn.old) × (steps.new ≡ steps.old) }
    // How many octets are looked at.
    ensures once { steps.new ≤ steps.old + length bytes.now }
    ensures looks { (own : PeerIdValue) (o : List ℕ) → conn.old ≡ conn_after own o → result ≢ Ok Came.Other →
        Looks steps.old steps.new (held_of conn.old) (held_of conn.new) (length bytes.now) result }
{
    if conn.ignored() || conn.spent() {
        return Ok(Came::Other);
    }
    conn.take(bytes, bodies, steps)
}

impl Conns {
    /// A piece of an open connection is taken where it lies, if it ends a message of one or two frames or is a part of
    /// a frame. Another piece, or one of a connection that is ignored, changes nothing.
    #[inline(always)]
    pub fn take<'a, L: Ledger>(
        &mut self,
        conn: u64,
        bytes: &'a [u8],
        bodies: &'a mut Bodies,
        steps: &mut Steps<L>,
    ) -> Result<Came<'a>, OutOfMemory>
        // What a reader takes, and what it completes.
        ensures live { (x : ConnectionValue) (own : PeerIdValue) (o : List ℕ) → row_at conn self.old ≡ Some x
            → x.conn ≡ Some (conn_after own o) →
            IfOk result (λ came. RowTakes came conn x own o bytes.now self.old self.new) }
        ensures other { result ≡ Ok Came.Other → (self.new ≡ self.old) × (steps.new ≡ steps.old) }
        // How many octets are looked at.
        ensures once { steps.new ≤ steps.old + length bytes.now }
        ensures looks { (own : PeerIdValue) (o : List ℕ) → reader_at conn self.old ≡ Some (conn_after own o)
            → result ≢ Ok Came.Other →
            Looks steps.old steps.new (held_of (conn_after own o)) (held_of (conn_after own (o ++ bytes.now)))
            (length bytes.now) result }
        // A connection without a reader.
        ensures no_reader { reader_at conn self.old ≡ None →
            (self.new ≡ self.old) × (result ≡ Ok Came.Other) × (steps.new ≡ steps.old) }
    {
        let Some(at) = self.rows.place(conn) else {
            return Ok(Came::Other);
        };
        let Some(conn) = &mut self.rows.all[at].1.conn else {
            return Ok(Came::Other);
        };
        lend(conn, bytes, bodies, steps)
    }

    /// The octets of an open connection are read, unless it is ignored: what becomes whole with them goes into an
    /// empty list.
    pub fn feed<L: Ledger>(
        &mut self,
        conn: u64,
        bytes: &[u8],
        items: &mut Items,
        steps: &mut Steps<L>,
    ) -> Result<Option<ZmtpFault>, OutOfMemory>
        // The list is empty.
        requires { items.old ≡ [] }
        // What a reader takes, and what it completes.
        ensures live { (x : ConnectionValue) (own : PeerIdValue) (o : List ℕ) → row_at conn self.old ≡ Some x
            → x.conn ≡ Some (conn_after own o) →
            IfOk result (λ fault. (self.new
            ≡ with_row conn (record x { conn = Some (conn_after own (o ++ bytes.now)) }) self.old)
            × (map (λ a. Arrived a) (arrivals_in items.new) ++ fault_said fault ≡ completed own o bytes.now)) }
        // How many octets are looked at.
        ensures once { steps.new ≤ steps.old + length bytes.now }
        ensures looks { (own : PeerIdValue) (o : List ℕ) → reader_at conn self.old ≡ Some (conn_after own o) →
            Looks steps.old steps.new (held_of (conn_after own o)) (held_of (conn_after own (o ++ bytes.now)))
            (length bytes.now) result }
        // A connection without a reader.
        ensures no_reader { reader_at conn self.old ≡ None →
            (self.new ≡ self.old) × (items.new ≡ []) × (result ≡ Ok None) × (steps.new ≡ steps.old) }
    {
        let Some(at) = self.rows.place(conn) else {
            return Ok(None);
        };
        let Some(conn) = &mut self.rows.all[at].1.conn else {
            return Ok(None);
        };
        read(conn, bytes, items, steps)
    }
}
