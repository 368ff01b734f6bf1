//! The links, and the tries to make those that don't stand.

use crate::beacons::address;
use crate::entry_source::{EntrySource, token_of};
use crate::link::{Due, TcpLink};
use crate::source_queue::{SourceQueue, Weight};
use mio::net::TcpStream;
use mio::{Interest, Registry};
use std::alloc::Global;
use std::collections::{BTreeMap, VecDeque};
use std::net::Net;
use zre_values::{Endpoint, OutOfMemory};

/// So many links are dialed at the same time.
const DIALS: usize = 32;

/// So many links one address has at most.
const LINKS: usize = 128;

/// Of the links to one address so many are tried again. A further one is tried once, so that beacons which name one
/// address again and again don't fill the node with peers that can't be reached.
const RETRIED: usize = 32;

/// So many milliseconds a try takes at most: where others wait for their turn, and else.
const CROWDED: u64 = 500;

const ALONE: u64 = 3000;

/// The reading at which a link is asked for, and that from which on it may be dialed.
#[derive(Clone, Copy)]
pub(crate) struct Times {
    pub(crate) at: u64,
    pub(crate) due: u64,
}

/// The links by their numbers.
#[derive(Drop)]
pub(crate) struct Links {
    links: BTreeMap<u64, TcpLink>,
    // Those that didn't stand when they were last looked at, each at least once.
    pending: VecDeque<u64>,
    // A number of this node's own.
    salt: u64,
}

/// What a call of `dial` gave.
enum Dialed {
    Begun(TcpStream),
    Refused,
    /// The poll has no name for the link.
    Hopeless,
}

fn dial<R: Net>(rt: &R, registry: &Registry, link: u64, to: Endpoint) -> Dialed {
    let Some(token) = token_of(EntrySource::Link(link)) else {
        return Dialed::Hopeless;
    };
    let Ok(mut stream) = TcpStream::connect(rt, address(to.addr, to.port)) else {
        return Dialed::Refused;
    };
    // Without this, small messages are held back for 40 milliseconds.
    let _ = stream.set_nodelay(true);
    let both = Interest::READABLE | Interest::WRITABLE;
    if registry.register(&mut stream, token, both).is_err() {
        drop(stream);
        return Dialed::Refused;
    }
    Dialed::Begun(stream)
}

// A number that other nodes and other tries don't share. It stands for chance, since the node has no source of that.
fn mixed(salt: u64, link: u64, at: u64) -> u64 {
    let sum = salt.wrapping_add(link).wrapping_mul(0x9E37_79B9_7F4A_7C15);
    let mixed = (sum ^ at).wrapping_mul(0xBF58_476D_1CE4_E5B9);
    mixed >> 32
}

impl Links {
    pub(crate) fn new(alloc: Global, own: Endpoint) -> Self {
        let addr = u32::from_be_bytes(own.addr) as u64;
        Links {
            links: BTreeMap::new(alloc),
            pending: VecDeque::new(alloc),
            salt: addr * 65536 + own.port as u64,
        }
    }

    /// A number for this link at this reading.
    pub(crate) fn chance(&self, link: u64, at: u64) -> u64 {
        mixed(self.salt, link, at)
    }

    pub(crate) fn get_mut(&mut self, link: u64) -> Option<&mut TcpLink> {
        self.links.get_mut(&link)
    }

    // How many links go to an address, and how many of them don't stand.
    fn crowd(&self, addr: [u8; 4]) -> (usize, usize) {
        let (mut all, mut pending) = (0usize, 0usize);
        for link in self.links.values() {
            if link.to.addr == addr {
                all = all.saturating_add(1);
                if !link.stands() {
                    pending = pending.saturating_add(1);
                }
            }
        }
        (all, pending)
    }

    /// A link to be dialed from a reading on. One too many for its address has failed.
    pub(crate) fn open(
        &mut self,
        number: u64,
        to: Endpoint,
        times: Times,
        queue: &mut SourceQueue,
    ) -> Result<(), OutOfMemory> {
        let (all, pending) = self.crowd(to.addr);
        let link = TcpLink::new(to, times.at, times.due, pending >= RETRIED);
        self.pending.push_back(number)?;
        drop(self.links.insert(number, link)?);
        if all >= LINKS {
            self.give_up(number, queue)?;
        }
        Ok(())
    }

    /// Closes a link and forgets it. The result is where it went.
    pub(crate) fn close(&mut self, link: u64) -> Option<Endpoint> {
        let link = self.links.remove(&link)?;
        Some(link.to)
    }

    fn due(&self, link: u64, at: u64, limit: u64) -> Due {
        match self.links.get(&link) {
            Some(link) => link.due(at, limit),
            None => Due::Nothing,
        }
    }

    // How many are being dialed.
    fn dials(&self, at: u64, limit: u64) -> usize {
        let mut dials = 0usize;
        for link in &self.pending {
            if matches!(self.due(*link, at, limit), Due::Dials | Due::Cut) {
                dials = dials.saturating_add(1);
            }
        }
        dials
    }

    /// Begins, cuts off and gives up what is due.
    pub(crate) fn turn<R: Net>(
        &mut self,
        rt: &R,
        registry: &Registry,
        at: u64,
        queue: &mut SourceQueue,
    ) -> Result<(), OutOfMemory> {
        let count = self.pending.len();
        let limit = if count > DIALS { CROWDED } else { ALONE };
        let mut dials = self.dials(at, limit);
        for _ in 0..count {
            let Some(link) = self.pending.pop_front() else {
                break;
            };
            let due = self.due(link, at, limit);
            match due {
                Due::Nothing => continue,
                Due::Dial if dials < DIALS => {
                    dials = dials.saturating_add(1);
                    self.begin(rt, registry, link, at, queue)?;
                }
                Due::Waits | Due::Dials | Due::Dial => {}
                Due::Cut => {
                    dials = dials.saturating_sub(1);
                    self.fail(link, at, queue)?;
                }
                Due::GiveUp => self.give_up(link, queue)?,
            }
            self.pending.push_back(link)?;
        }
        Ok(())
    }

    fn begin<R: Net>(
        &mut self,
        rt: &R,
        registry: &Registry,
        link: u64,
        at: u64,
        queue: &mut SourceQueue,
    ) -> Result<(), OutOfMemory> {
        let Some(to) = self.links.get(&link).map(|link| link.to) else {
            return Ok(());
        };
        match dial(rt, registry, link, to) {
            Dialed::Begun(stream) => {
                match self.links.get_mut(&link) {
                    Some(link) => link.dialed(stream, at),
                    None => drop(stream),
                }
                Ok(())
            }
            Dialed::Refused => self.fail(link, at, queue),
            Dialed::Hopeless => self.give_up(link, queue),
        }
    }

    fn fail(&mut self, number: u64, at: u64, queue: &mut SourceQueue) -> Result<(), OutOfMemory> {
        let chance = self.chance(number, at);
        let has_failed = match self.links.get_mut(&number) {
            Some(link) => link.failed(at, chance),
            None => false,
        };
        if has_failed {
            self.give_up(number, queue)
        } else {
            Ok(())
        }
    }

    fn give_up(&mut self, number: u64, queue: &mut SourceQueue) -> Result<(), OutOfMemory> {
        queue.reserve()?;
        if let Some(link) = self.links.get_mut(&number) {
            link.give_up();
            if !link.is_queued {
                link.is_queued = true;
                queue.push(EntrySource::Link(number), Weight::Light)?;
            }
        }
        Ok(())
    }
}
