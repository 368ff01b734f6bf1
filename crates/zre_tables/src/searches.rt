//! Searches among rows.

ghost use Rattle.std.specs.Prelude.{◌≡◌, ◌-◌, nat_le, option_copied, IfOk, MatchOption};
ghost use Rattle.std.specs.Prelude.{ℕ, ◌≤◌, ◌^◌, ◌==◌, Bool, true, false, List, Some};
ghost use Rattle.std.specs.Fn.{FnReturnsAt};
ghost use Rattle.std.specs.List.{filter, list_any};
ghost use Rattle.std.specs.List.Sorted.{IsStrictlyIncreasing, IsStrictlySortedBy};
ghost use Rattle.std.specs.Map.{keys_of};
ghost use Rattle.std.specs.Ordering.{nat_cmp};
ghost use Rattle.zre_journal.specs.Connections.{is_same as same_peer};
ghost use Rattle.zre_tables.specs.Agreement.{AreHeard};
ghost use Rattle.zre_tables.specs.IdleConnections.{AllIdleFrom, IdleFrom};
ghost use Rattle.zre_tables.specs.Rows.{numbers_of, passes_at, row_at};
ghost use Rattle.zre_tables.specs.Searches.{link_among, other_among, row_evasive, row_silent, row_stale};
ghost use Rattle.zre_tables.specs.Views.{ids_entered, row_in, view_among};
ghost use Rattle.zre_tables.specs.declared.peer.Peer.{Peer as PeerValue};

use crate::connection::Connection;
use crate::conns::Conns;
use crate::peer::Peer;
use crate::peers::{Ids, Links, Peers};
use crate::rows::Rows;
use std::alloc::Global;
use zre_peer::View;
use zre_timers::Timers;
use zre_values::{Keys, OutOfMemory, PeerId};

// Whether this peer was introduced.
fn is_same(id: PeerId, introduced: Option<PeerId>) -> bool
    ensures { result ≡ same_peer id introduced }
{
    match introduced {
        Some(other) => id == other,
        None => false,
    }
}

// Whether a peer has told that it is in the group.
fn is_in(peer: &Peer, group: &[u8]) -> bool
    ensures { result ≡ row_in group.now peer.now }
{
    match peer.view() {
        Some(view) => view.in_group(group),
        None => false,
    }
}

// Whether so much time has gone by since then.
fn has_passed(limit: u64, now: u64, since: u64) -> bool
    ensures { result ≡ nat_le limit (now - since) }
{
    now.saturating_sub(since) >= limit
}

// Whether a peer was silent for so long.
fn is_silent(peer: &Peer, limit: u64, now: u64) -> bool
    ensures { result ≡ row_silent limit now peer.now }
{
    has_passed(limit, now, peer.active)
}

// Whether an entered peer was silent for so long, but not so long that it has expired.
fn is_evasive(peer: &Peer, evasive: u64, expired: u64, now: u64) -> bool
    ensures { result ≡ row_evasive evasive expired now peer.now }
{
    peer.run.is_some() && !is_silent(peer, expired, now) && is_silent(peer, evasive, now)
}

// Whether a connection runs no peer, and has rested for so long.
fn is_stale(conn: &Connection, limit: u64, now: u64) -> bool
    ensures { result ≡ row_stale limit now conn.now }
{
    conn.run.is_none() && has_passed(limit, now, conn.since)
}

// The numbers of those of these connections that are stale, rising.
fn stale_among(
    alloc: Global,
    rows: &Rows<Connection>,
    limit: u64,
    now: u64,
) -> Result<Keys, OutOfMemory>
    ensures { IfOk result (λ numbers. numbers ≡ numbers_of (row_stale limit now) rows.now.all.items) }
{
    let mut numbers = Keys::new(alloc);
    for (number, conn) in &rows.all {
        if is_stale(conn, limit, now) {
            numbers.push(*number)?;
        }
    }
    Ok(numbers)
}

// The earlier of a moment and that at which a connection began to rest, if it runs no peer.
pub(crate) fn earlier_idle(conn: &Connection, first: u64) -> u64
    ensures before { result ≤ first }
    ensures rests { IdleFrom result conn.now }
{
    if conn.run.is_none() && conn.since < first {
        conn.since
    } else {
        first
    }
}

// A moment before which none of these connections that run no peer began to rest.
fn first_idle(rows: &Rows<Connection>) -> u64
    ensures { AllIdleFrom result rows.now.all.items }
{
    let mut first = u64::MAX;
    for (_, conn) in &rows.all {
        first = earlier_idle(conn, first);
    }
    first
}

// Those of these links whose peers pass a test, in order.
fn among<F: Fn(&Peer) -> bool>(
    alloc: Global,
    rows: &Rows<Peer>,
    links: &[u64],
    passes: F,
) -> Result<Keys, OutOfMemory>
    requires rising { IsStrictlySortedBy nat_cmp (keys_of rows.now.all.items) }
    requires call { F.IsAlwaysCallable passes }
    ensures { (test : PeerValue → Bool) → ((x : PeerValue) (b : Bool) → FnReturnsAt F.Fn passes x b → b ≡ test x) →
        IfOk result (λ found. found ≡ filter (passes_at test rows.now.all.items) links.now) }
{
    let mut found = Keys::new(alloc);
    for link in links {
        let Some(peer) = rows.get(*link) else {
            continue;
        };
        if passes(peer) {
            found.push(*link)?;
        }
    }
    Ok(found)
}

// The links of all that are entered and evasive now, rising, by a walk over the rows.
fn evasive_rows(
    alloc: Global,
    rows: &Rows<Peer>,
    evasive: u64,
    expired: u64,
    now: u64,
) -> Result<Keys, OutOfMemory>
    ensures { IfOk result (λ found. found ≡ numbers_of (row_evasive evasive expired now) rows.now.all.items) }
{
    let mut found = Keys::new(alloc);
    for (link, peer) in &rows.all {
        if is_evasive(peer, evasive, expired, now) {
            found.push(*link)?;
        }
    }
    Ok(found)
}

// Whether so many of the rows are due that a walk over all of them costs less than a look-up for each that is due.
pub(crate) fn are_many(due: &[u64], rows: &Rows<Peer>) -> bool {
    due.len() > rows.all.len() / 8
}

// When a peer last showed that it is there.
fn active_of(peer: &Peer) -> u64
    ensures active { result ≡ peer.now.active }
    ensures fits { result ≤ 2 ^ 64 - 1 }
{
    peer.active
}

// The moment of a link, brought up to date with the row of its peer, where that has shown after `latest` that it is
// there. Any other is due, and stays so.
fn update_one(heard: &mut Timers, link: u64, peer: &Peer, latest: u64) -> Result<(), OutOfMemory>
    ensures { (rows : List (ℕ × PeerValue)) (r : Bool) → Some peer.now ≡ row_at link rows →
        AreHeard rows heard.old r → AreHeard rows heard.new r }
{
    let active = active_of(peer);
    if active > latest {
        heard.touch(link, active)?;
    }
    Ok(())
}

// The moments of these links, which rise, brought up to date: of many by a walk over the rows, since that is cheaper.
fn update(
    rows: &Rows<Peer>,
    heard: &mut Timers,
    links: &[u64],
    latest: u64,
) -> Result<(), OutOfMemory>
    requires { IsStrictlySortedBy nat_cmp (keys_of rows.now.all.items) }
    ensures { (r : Bool) → AreHeard rows.now.all.items heard.old r → AreHeard rows.now.all.items heard.new r }
{
    if !are_many(links, rows) {
        for due in links {
            if let Some(peer) = rows.get(*due) {
                update_one(heard, *due, peer, latest)?;
            }
        }
        return Ok(());
    }
    let mut next = 0;
    for (link, peer) in &rows.all {
        if next < links.len() && links[next] == *link {
            next += 1;
            update_one(heard, *link, peer, latest)?;
        }
    }
    Ok(())
}

// The last moment at which a peer that has been silent for so long may have shown that it is there. None where that
// was before all moments.
fn latest_of(span: u64, now: u64) -> Option<u64>
    ensures { MatchOption result ((active : ℕ) → nat_le span (now - active) ≡ false)
        (λ latest. (active m : ℕ) → nat_le span (now - active) ≡ true → m ≤ active → m ≤ 2 ^ 64 - 1 → m ≤ latest) }
{
    if span == 0 {
        return Some(u64::MAX);
    }
    now.checked_sub(span)
}

impl Peers {
    /// The link of the peer with this id.
    pub fn link_of(&self, id: PeerId) -> Option<u64>
        ensures { result ≡ link_among id self.now }
    {
        for (link, peer) in &self.rows.all {
            if id == peer.id {
                return Some(*link);
            }
        }
        None
    }

    /// The view of the peer with this id, where it is entered.
    pub fn view_of(&self, id: PeerId) -> Option<&View>
        ensures { option_copied result ≡ view_among id self.now }
    {
        for (_, peer) in &self.rows.all {
            if id == peer.id {
                return peer.view();
            }
        }
        None
    }

    /// The links of all, rising.
    pub fn links(&self) -> Result<Links, OutOfMemory>
        ensures { IfOk result (λ links. links ≡ keys_of self.now) }
    {
        Ok(Links::from_vec(self.rows.numbers(self.alloc)?))
    }

    /// The ids of those that are entered, by their links.
    pub fn entered(&self) -> Result<Ids, OutOfMemory>
        ensures { IfOk result (λ ids. ids ≡ ids_entered self.now) }
    {
        let mut ids = Ids::new(self.alloc);
        for (_, peer) in &self.rows.all {
            if peer.is_entered() {
                ids.push(peer.id)?;
            }
        }
        Ok(ids)
    }

    /// The links of those that have told that they are in the group, rising.
    pub fn members(&self, group: &[u8]) -> Result<Keys, OutOfMemory>
        ensures { IfOk result (λ links. links ≡ numbers_of (row_in group.now) self.now) }
    {
        let mut found = Keys::new(self.alloc);
        for (link, peer) in &self.rows.all {
            if is_in(peer, group) {
                found.push(*link)?;
            }
        }
        Ok(found)
    }

    // The links of the peers whose moments lie a span or more back, rising: all that were silent for so long are among
    // them. Their moments are brought up to date.
    fn due_links(&mut self, span: u64, now: u64) -> Result<Keys, OutOfMemory>
        ensures rising { IfOk result IsStrictlyIncreasing }
        ensures all { IfOk result (λ links. (link : ℕ) (x : PeerValue) → row_at link self.old ≡ Some x
            → row_silent span now x ≡ true → list_any (λ l. l == link) links ≡ true) }
        ensures rows { self.new ≡ self.old }
    {
        if self.rewound {
            return self.links();
        }
        let Some(latest) = latest_of(span, now) else {
            return Ok(Keys::new(self.alloc));
        };
        let back = u64::MAX - latest;
        let due = self.heard.due(u64::MAX, back, back)?;
        let links = due.expired.as_slice();
        update(&self.rows, &mut self.heard, links, latest)?;
        Ok(due.expired)
    }

    /// The links of those that were silent for so long, rising. It looks at those that weren't heard since it last came
    /// to them, or for so long.
    pub fn silent(&mut self, limit: u64, now: u64) -> Result<Keys, OutOfMemory>
        ensures found { IfOk result (λ links. links ≡ numbers_of (row_silent limit now) self.old) }
        ensures rows { self.new ≡ self.old }
    {
        let links = self.due_links(limit, now)?;
        among(
            self.alloc,
            &self.rows,
            links.as_slice(),
            |peer| is_silent(peer, limit, now),
        )
    }

    /// The links of those that are entered and evasive now, rising. It looks at those that weren't heard since it last
    /// came to them, or for so long, and where these are or were many, at all.
    pub fn evasive(&mut self, evasive: u64, expired: u64, now: u64) -> Result<Keys, OutOfMemory>
        ensures found { IfOk result (λ links. links ≡ numbers_of (row_evasive evasive expired now) self.old) }
        ensures rows { self.new ≡ self.old }
    {
        if !self.many {
            let links = self.due_links(evasive, now)?;
            let due = links.as_slice();
            if !are_many(due, &self.rows) {
                return among(self.alloc, &self.rows, due, |peer| {
                    is_evasive(peer, evasive, expired, now)
                });
            }
        }
        let found = evasive_rows(self.alloc, &self.rows, evasive, expired, now)?;
        self.many = are_many(found.as_slice(), &self.rows);
        Ok(found)
    }
}

impl Conns {
    /// Another connection on which this peer was introduced.
    pub fn other_with(&self, id: PeerId, conn: u64) -> Option<u64>
        ensures { result ≡ other_among id conn self.now }
    {
        for (number, found) in &self.rows.all {
            if conn != *number && is_same(id, found.identity) {
                return Some(*number);
            }
        }
        None
    }

    /// The numbers of all, rising.
    pub fn numbers(&self) -> Result<Keys, OutOfMemory>
        ensures { IfOk result (λ numbers. numbers ≡ keys_of self.now) }
    {
        Ok(Keys::from_vec(self.rows.numbers(self.alloc)?))
    }

    /// The numbers of those that run no peer, and have rested for so long, rising. It looks at none of them where none
    /// began to rest so long ago.
    pub fn stale(&mut self, limit: u64, now: u64) -> Result<Keys, OutOfMemory>
        ensures found { IfOk result (λ numbers. numbers ≡ numbers_of (row_stale limit now) self.old) }
        ensures rows { self.new ≡ self.old }
    {
        if !has_passed(limit, now, self.first) {
            return Ok(Keys::new(self.alloc));
        }
        self.first = first_idle(&self.rows);
        stale_among(self.alloc, &self.rows, limit, now)
    }
}
