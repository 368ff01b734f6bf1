ghost use Rattle.std.specs.Prelude.{◌≡◌, ◌<◌, ℕ, [], List, length, Some, IfOk, OnOk};
ghost use Rattle.std.specs.List.{list_all, list_any};
ghost use Rattle.zre_net.specs.History.{Happening};
ghost use Rattle.zre_net.specs.Numbers.{conns, routes};
ghost use Rattle.zre_net.specs.Lists.{nth as nth_of};
ghost use Rattle.zre_net.specs.Rows.{running_at, fits_owner, is_owner, is_at, Owns, with_running};
ghost use Rattle.zre_net.specs.Running.{HasRun, StandsAfter, Receives, Sends};

use crate::running::nth::nth;
use crate::running::rows::{Carrier, Owner, SentBeacon, Started, Way};
use crate::running::said::SaidEvents;
use std::alloc::Global;
use zre_values::{List, OutOfMemory, PeerId, take_apart};

/// Nodes in one process, and what goes between them, move by move ([`Network::take`]). It keeps what a later move may
/// name: beacons, links with their messages, and connections with what they have yet to hand in.
pub struct Network {
    pub(crate) alloc: Global,
    /// What the nodes have told, but for so many events that were handed out.
    pub(crate) said: SaidEvents,
    pub(crate) handed: u64,
    /// The starts, and which of them runs at each node.
    pub(crate) started: Vec<Started>,
    pub(crate) running: Vec<Option<u64>>,
    /// Whose IDs the numbers of nodes have, each once.
    pub(crate) owners: List<Owner>,
    /// Beacons, links and connections.
    pub(crate) beacons: List<SentBeacon>,
    pub(crate) links: List<Way>,
    pub(crate) conns: Vec<Carrier>,
    /// The octets of all messages, and those that connections have yet to hand in.
    pub(crate) queued: u64,
    pub(crate) pending: u64,
}

impl Drop for Network {
    fn drop(self) {
        take_apart!(self, Network:
            alloc, said, handed, started, running, owners, beacons, links, conns, queued, pending);
    }
}

// Whether an ID belongs to this node and to no other, as far as one owner knows.
fn fits_owner(owner: Owner, node: u8, id: PeerId) -> bool
    ensures { result ≡ fits_owner node id owner }
{
    if owner.node == node {
        owner.id == id
    } else {
        owner.id != id
    }
}

// Whether this node has this ID.
fn is_owner(owner: Owner, node: u8, id: PeerId) -> bool
    ensures { result ≡ is_owner node id owner }
{
    if owner.node == node {
        owner.id == id
    } else {
        false
    }
}

// Whether one of these is that owner.
fn has_owner(owners: &[Owner], node: u8, id: PeerId) -> bool
    ensures { result ≡ list_any (is_owner node id) owners.now }
{
    for owner in owners {
        if is_owner(*owner, node, id) {
            return true;
        }
    }
    false
}

/// From now on this node has this ID. However often it starts, it is one owner.
pub(crate) fn add_owner(owners: &mut List<Owner>, node: u8, id: PeerId) -> Result<(), OutOfMemory>
    ensures { OnOk result (Owns owners.old node id owners.new) }
{
    if has_owner(owners.as_slice(), node, id) {
        return Ok(());
    }
    owners.push(Owner { node, id })
}

/// Whether a node may have this ID: it had no other, and no other node had it.
pub(crate) fn may_have(owners: &[Owner], node: u8, id: PeerId) -> bool
    ensures { result ≡ list_all (fits_owner node id) owners.now }
{
    for owner in owners {
        if !fits_owner(*owner, node, id) {
            return false;
        }
    }
    true
}

// Which start runs at a node.
fn running_at(rows: &[Option<u64>], node: u8) -> Option<u64>
    ensures { result ≡ running_at node rows.now }
{
    match rows.get(node as usize) {
        Some(row) => *row,
        None => None,
    }
}

impl Network {
    /// Nothing has come about.
    pub fn new(alloc: Global) -> Result<Network, OutOfMemory>
        ensures { IfOk result (HasRun []) }
    {
        let running = Vec::from_array(alloc, [None; 17])?;
        Ok(Network {
            alloc,
            said: SaidEvents::new(alloc),
            handed: 0,
            started: Vec::new(alloc),
            running,
            owners: List::new(alloc),
            beacons: List::new(alloc),
            links: List::new(alloc),
            conns: Vec::new(alloc),
            queued: 0,
            pending: 0,
        })
    }

    /// The start that runs at a node.
    pub(crate) fn runner(&self, node: u8) -> Option<u64>
        ensures { result ≡ running_at node self.now.running.items }
    {
        running_at(self.running.as_slice(), node)
    }

    // Whether a start still runs at its node.
    fn is_there(&self, start: u64) -> bool
        ensures { result ≡ is_at start (nth_of start self.now.started.items) self.now.running.items }
    {
        let Some(started) = nth(self.started.as_slice(), start) else {
            return false;
        };
        self.runner(started.node) == Some(start)
    }

    /// The start at which a connection opened, where it still runs.
    pub(crate) fn receiver(&self, conn: u64) -> Option<u64>
        ensures { (H : List Happening) → StandsAfter H self.now → Receives H (nth_of conn (conns H)) result }
    {
        let Some(carrier) = nth(self.conns.as_slice(), conn) else {
            return None;
        };
        if self.is_there(carrier.to) {
            Some(carrier.to)
        } else {
            None
        }
    }

    /// The start of the node of a link, where it still runs, and the link's number there.
    pub(crate) fn sender(&self, link: u64) -> Option<Way>
        ensures { (H : List Happening) → StandsAfter H self.now → Sends H (nth_of link (routes H)) result }
    {
        let Some(way) = nth(self.links.as_slice(), link) else {
            return None;
        };
        if self.is_there(way.start) {
            Some(*way)
        } else {
            None
        }
    }
}

// Makes room for the row at this place. Nothing runs in a row that is new.
fn make_room(rows: &mut Vec<Option<u64>>, place: usize) -> Result<(), OutOfMemory>
    ensures unchanged { (node : ℕ) → running_at node rows.new.items ≡ running_at node rows.old.items }
    ensures there_is_a_place { OnOk result (place < length rows.new.items) }
{
    'room: while rows.len() <= place {
        rows.push(None)?;
    }
    Ok(())
}

/// From now on this start runs at a node, or none.
pub(crate) fn set_running(
    rows: &mut Vec<Option<u64>>,
    node: u8,
    start: Option<u64>,
) -> Result<(), OutOfMemory>
    ensures { OnOk result (with_running node start rows.old.items rows.new.items) }
{
    let place = node as usize;
    make_room(rows, place)?;
    rows[place] = start;
    Ok(())
}
