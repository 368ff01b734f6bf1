//! Worlds over loopback. Each process takes addresses of its own out of 127.0.0.0/8, so that tests which run at the
//! same time don't meet. No time that a test waits for is tight.

mod flows;
mod turns;

use std::alloc::Global;
use zre_fabric::RealWorld;
use zre_outside::{Act, Addresses, Input, Start, Turn, World};
use zre_values::{Endpoint, Octets, OutOfMemory, take_apart};

const MAILBOX_PORT: u16 = 29170;

const BEACON_PORT: u16 = 29171;

/// So many turns a test waits for what is to come: some 40 seconds, where all of them are looks.
const TURNS: u32 = 2000;

/// An entry: its kind, the number of its connection or link, or the last octet of its sender's address, and its
/// octets, or the count of what was taken.
#[derive(Drop)]
struct SeenEntry {
    kind: &'static str,
    number: u64,
    count: u64,
    bytes: Octets,
}

impl SeenEntry {
    fn is(&self, kind: &str, number: u64, count: u64, bytes: &[u8]) -> bool {
        let is_such = self.kind == kind && self.number == number && self.count == count;
        is_such && self.bytes.as_slice() == bytes
    }
}

fn with_bytes(kind: &'static str, number: u64, bytes: Octets) -> SeenEntry {
    SeenEntry {
        kind,
        number,
        count: 0,
        bytes,
    }
}

fn with_count(alloc: Global, kind: &'static str, number: u64, count: u64) -> SeenEntry {
    SeenEntry {
        kind,
        number,
        count,
        bytes: Octets::new(alloc),
    }
}

fn see(alloc: Global, input: Input) -> SeenEntry {
    match input {
        Input::Datagram { from, bytes } => with_bytes("Datagram", u64::from(from[3]), bytes),
        Input::Opened { conn } => with_count(alloc, "Opened", conn, 0),
        Input::Piece { conn, bytes } => with_bytes("Piece", conn, bytes),
        Input::Shut { conn } => with_count(alloc, "Shut", conn, 0),
        Input::Linked { link } => with_count(alloc, "Linked", link, 0),
        Input::Reply { link, bytes } => with_bytes("Reply", link, bytes),
        Input::Unlinked { link } => with_count(alloc, "Unlinked", link, 0),
        Input::Took { link, count } => with_count(alloc, "Took", link, count),
        Input::Tick => with_count(alloc, "Tick", 0, 0),
        Input::Do(_) => with_count(alloc, "Do", 0, 0),
        Input::End => with_count(alloc, "End", 0, 0),
    }
}

/// Three addresses of loopback that are this process's.
fn hosts(process: u32) -> [[u8; 4]; 3] {
    let [_, _, high, low] = process.to_be_bytes();
    let high = 64 + high % 128;
    [
        [127, high, low, 1],
        [127, high, low, 2],
        [127, high, low, 3],
    ]
}

/// A start at this address, whose Ticks are rare.
fn start_at(alloc: Global, host: [u8; 4], to: &[[u8; 4]]) -> Result<Start, OutOfMemory> {
    let mut addresses = Addresses::new(alloc);
    for address in to {
        addresses.push(*address)?;
    }
    Ok(Start {
        host,
        port: MAILBOX_PORT,
        listen: host,
        beacon_port: BEACON_PORT,
        to: addresses,
        interval: 60000,
    })
}

fn mailbox_of(host: [u8; 4]) -> Endpoint {
    Endpoint {
        addr: host,
        port: MAILBOX_PORT,
    }
}

// To be started in a thread, a world may move there.
fn moved<T: Send>(value: T) -> T {
    value
}

/// A world, and the first thing that wasn't as it should be, or nothing. After it nothing more is waited for.
struct Watched {
    alloc: Global,
    world: RealWorld<HostRuntime>,
    missed: &'static str,
}

impl Drop for Watched {
    fn drop(self) {
        take_apart!(self, Watched: alloc, world, missed);
    }
}

impl Watched {
    /// A world that isn't started.
    fn new(rt: HostRuntime) -> Self {
        Watched {
            alloc: rt.alloc(),
            world: moved(RealWorld::new(rt, rt.alloc())),
            missed: "",
        }
    }

    /// A world at this address.
    fn at(rt: HostRuntime, host: [u8; 4], to: &[[u8; 4]]) -> Self {
        let mut watched = Watched::new(rt);
        watched.start(host, to);
        watched
    }

    fn note(&mut self, what: &'static str, is_so: bool) {
        if !is_so && self.missed.is_empty() {
            self.missed = what;
        }
    }

    fn start(&mut self, host: [u8; 4], to: &[[u8; 4]]) {
        let is_started = match start_at(self.alloc, host, to) {
            Ok(start) => self.world.start(&start).is_ok(),
            Err(OutOfMemory) => false,
        };
        self.note("start", is_started);
    }

    fn act(&mut self, act: &Act) {
        let done = self.world.act(act);
        self.note("act", done.is_ok());
    }

    fn answer(&mut self, conn: u64, bytes: Octets) {
        self.act(&Act::Answer { conn, bytes });
    }

    fn connect(&mut self, link: u64, host: [u8; 4]) {
        let to = mailbox_of(host);
        self.act(&Act::Connect { link, to });
    }

    fn offer(&mut self, link: u64, bytes: &[u8]) {
        let done = self.world.offer(link, bytes);
        self.note("offer", done.is_ok());
    }

    // The entry of the next turn. None where it is a look.
    fn turn(&mut self) -> Option<SeenEntry> {
        match self.world.next(None) {
            Ok(Turn::Entry(entry)) => Some(see(self.alloc, entry.input)),
            Ok(Turn::Look) => None,
            Err(_) => {
                self.note("next", false);
                None
            }
        }
    }

    // The next entry but Ticks, or none within the turns.
    fn entry(&mut self) -> Option<SeenEntry> {
        for _ in 0..TURNS {
            if let Some(seen) = self.turn() {
                if seen.kind != "Tick" {
                    return Some(seen);
                }
            }
        }
        None
    }

    /// The next entry but Ticks is this one.
    fn expect(&mut self, kind: &'static str, number: u64, count: u64, bytes: &[u8]) {
        if self.missed.is_empty() {
            let is_so = match self.entry() {
                Some(seen) => seen.is(kind, number, count, bytes),
                None => false,
            };
            self.note(kind, is_so);
        }
    }

    // Whether three looks come with no entry between them but Ticks.
    fn is_quiet(&mut self) -> bool {
        let mut looks = 0u32;
        for _ in 0..TURNS {
            if looks == 3 {
                return true;
            }
            match self.turn() {
                Some(seen) if seen.kind == "Tick" => {}
                Some(_) => return false,
                None => looks = looks.saturating_add(1),
            }
        }
        false
    }

    /// Three looks come with no entry between them but Ticks.
    fn expect_quiet(&mut self) {
        let is_quiet = self.missed.is_empty() && self.is_quiet();
        self.note("quiet", is_quiet);
    }
}
