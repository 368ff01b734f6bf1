//! The open sockets, and those of them that may have something to say.

ghost use Rattle.std.specs.Prelude.{◌≡◌, ◌+◌, IfOk, IfSome, MatchOption};
ghost use Rattle.zre_fabric.specs.Looking.{octets_in};
ghost use Rattle.zre_fabric.specs.Origins.{IsOpening, IsOfMailbox, IsOfLink};
ghost use Rattle.zre_fabric.specs.Pieces.{IsShort, StepIsShort};

use crate::arrivals::{Arrival, Arrivals};
use crate::beacons::BeaconSocket;
use crate::conn::TcpConn;
use crate::entry_source::{EntrySource, token_of};
use crate::errors::{ErrorClass, class_of, once_ready};
use crate::links::{Links, Times};
use crate::network_fault::{NetworkFault, SystemPart, failed, no_memory};
use crate::polled::Polled;
use crate::prepared::{Reserved, listen};
use crate::read_buffer::ReadBuffer;
use crate::shares::Shares;
use crate::source_queue::{SourceQueue, Weight};
use mio::net::{TcpListener, TcpStream};
use mio::{Interest, Registry, Token};
use std::alloc::Global;
use std::collections::BTreeMap;
use std::io;
use std::net::{Net, SocketAddr};
use std::os::unix::net::UnixStream;
use zre_outside::{Input, Start};
use zre_values::{Endpoint, OutOfMemory, take_apart};

/// A connection or a link that gave so many octets since it last had nothing is a heavy source.
const HEAVY: u64 = 16384;

/// A source stands in the queue once, where `is_queued` says so, and keeps a place until a look at it finds nothing.
/// One that is closed leaves it at its turn. So the queue is no longer than there are sockets, and each has its turn.
pub(crate) struct Sockets {
    pub(crate) beacons: BeaconSocket,
    pub(crate) listener: TcpListener,
    listens_at: Endpoint,
    listener_is_queued: bool,
    opened: u64,
    conns: BTreeMap<u64, TcpConn>,
    links: Links,
    arrivals: Arrivals,
    shares: Shares,
    queue: SourceQueue,
    buffer: ReadBuffer,
    // The last reading of the clock.
    at: u64,
    // Something was read and not given, and there may be more.
    has_dropped: bool,
}

impl Drop for Sockets {
    fn drop(self) {
        take_apart!(self, Sockets:
            beacons, listener, listens_at, listener_is_queued, opened, conns, links, arrivals, shares, queue, buffer,
            at, has_dropped);
    }
}

// The octets that an entry brings from a socket.
pub(crate) fn octets_of(input: &Input) -> u64
    ensures { result ≡ octets_in input.now }
{
    match input {
        Input::Datagram { bytes, .. } | Input::Piece { bytes, .. } | Input::Reply { bytes, .. } => {
            bytes.len() as u64
        }
        _ => 0,
    }
}

impl Sockets {
    /// Binds the socket for beacons and the listener, unless that was reserved.
    pub(crate) fn open<R: Net>(
        rt: &R,
        alloc: Global,
        s: &Start,
        reserved: Option<Reserved>,
    ) -> Result<Self, NetworkFault> {
        let beacons = match BeaconSocket::open(rt, alloc, s) {
            Ok(beacons) => beacons,
            Err(network_fault) => {
                drop(reserved);
                return Err(network_fault);
            }
        };
        let listens_at = Endpoint {
            addr: s.host,
            port: s.port,
        };
        let listener = match listen_with_room(rt, listens_at, reserved) {
            Ok(listener) => listener,
            Err(error) => {
                drop(beacons);
                return Err(failed(SystemPart::Mailbox(listens_at), error));
            }
        };
        Sockets::over(alloc, beacons, listener, listens_at)
    }

    // No connection came yet, and there is no link.
    fn over(
        alloc: Global,
        beacons: BeaconSocket,
        listener: TcpListener,
        listens_at: Endpoint,
    ) -> Result<Self, NetworkFault> {
        let (Ok(buffer), Ok(shares)) = (ReadBuffer::new(alloc), Shares::new(alloc)) else {
            drop(beacons);
            drop(listener);
            return Err(NetworkFault::OutOfMemory);
        };
        Ok(Sockets {
            beacons,
            listener,
            listens_at,
            listener_is_queued: false,
            opened: 0,
            conns: BTreeMap::new(alloc),
            links: Links::new(alloc, listens_at),
            arrivals: Arrivals::new(alloc),
            shares,
            queue: SourceQueue::new(alloc),
            buffer,
            at: 0,
            has_dropped: false,
        })
    }

    /// The clock was read.
    pub(crate) fn set_time(&mut self, at: u64) {
        self.at = at;
    }

    /// Whether there may be an entry without a word of the poll.
    pub(crate) fn is_busy(&self) -> bool {
        self.has_dropped || self.queue.has_light()
    }

    /// The poll told of a source. One that is gone by now is left out.
    pub(crate) fn hear(
        &mut self,
        source: EntrySource,
        is_writable: bool,
    ) -> Result<(), OutOfMemory> {
        if let EntrySource::Link(link) = source {
            if let Some(link) = self.links.get_mut(link) {
                link.hear(is_writable);
            }
        }
        self.rouse(source)
    }

    // The mark of a source that is there.
    fn mark_of(&mut self, source: EntrySource) -> Option<&mut bool> {
        match source {
            EntrySource::Beacons => Some(&mut self.beacons.is_queued),
            EntrySource::Mailbox => Some(&mut self.listener_is_queued),
            EntrySource::Bell => None,
            EntrySource::Conn(conn) => Some(&mut self.conns.get_mut(&conn)?.is_queued),
            EntrySource::Link(link) => Some(&mut self.links.get_mut(link)?.is_queued),
        }
    }

    fn rouse(&mut self, source: EntrySource) -> Result<(), OutOfMemory> {
        self.queue.reserve()?;
        match self.mark_of(source) {
            Some(is_queued) if !*is_queued => *is_queued = true,
            _ => return Ok(()),
        }
        self.queue.push(source, Weight::Light)
    }

    /// The next entry of a source that may have one. Each is looked at once.
    pub(crate) fn next(&mut self, registry: &Registry) -> Result<Option<Input>, NetworkFault>
        ensures { IfOk result (λ input. IfSome input (λ i. IsShort i)) }
    {
        self.has_dropped = false;
        if let Some(input) = self.admit_waiting(registry).map_err(no_memory)? {
            return Ok(Some(input));
        }
        for _ in 0..self.queue.len() {
            let Some(source) = self.queue.pop() else {
                break;
            };
            if let Some(input) = self.look_at(source, registry)? {
                return Ok(Some(input));
            }
        }
        Ok(None)
    }

    fn look_at(
        &mut self,
        source: EntrySource,
        registry: &Registry,
    ) -> Result<Option<Input>, NetworkFault>
        ensures { IfOk result (λ input. IfSome input (λ i. IsShort i)) }
    {
        match self.step(source, registry)? {
            Polled::More(input) => match self.keep(source, octets_of(&input)) {
                Ok(()) => Ok(Some(input)),
                Err(network_fault) => {
                    drop(input);
                    Err(network_fault)
                }
            },
            Polled::Last(input) => {
                self.close(source);
                Ok(Some(input))
            }
            Polled::Again => {
                self.queue.push(source, Weight::Heavy).map_err(no_memory)?;
                Ok(None)
            }
            Polled::Dropped => {
                self.has_dropped = true;
                self.queue.push(source, Weight::Heavy).map_err(no_memory)?;
                Ok(None)
            }
            Polled::Rest => {
                self.rest(source);
                Ok(None)
            }
        }
    }

    // The count of octets of a source that has one.
    fn used_by(&mut self, source: EntrySource) -> Option<&mut u64> {
        match source {
            EntrySource::Conn(conn) => Some(&mut self.conns.get_mut(&conn)?.used),
            EntrySource::Link(link) => Some(&mut self.links.get_mut(link)?.used),
            EntrySource::Beacons | EntrySource::Mailbox | EntrySource::Bell => None,
        }
    }

    // A source has given so many octets, and may have more.
    fn keep(&mut self, source: EntrySource, octets: u64) -> Result<(), NetworkFault> {
        let weight = match self.used_by(source) {
            Some(used) => {
                *used = used.saturating_add(octets);
                if *used < HEAVY {
                    Weight::Light
                } else {
                    Weight::Heavy
                }
            }
            None => Weight::Light,
        };
        self.queue.push(source, weight).map_err(no_memory)
    }

    // A source has nothing.
    fn rest(&mut self, source: EntrySource) {
        if let Some(is_queued) = self.mark_of(source) {
            *is_queued = false;
        }
        if let Some(used) = self.used_by(source) {
            *used = 0;
        }
    }

    /// Closes a connection or a link, and forgets it.
    pub(crate) fn close(&mut self, source: EntrySource) {
        match source {
            EntrySource::Conn(conn) => {
                if let Some(conn) = self.conns.remove(&conn) {
                    self.shares.leave(conn.addr);
                }
            }
            EntrySource::Link(link) => {
                if let Some(to) = self.links.close(link) {
                    let chance = self.links.chance(link, self.at);
                    self.shares.closed(to, self.at, chance);
                }
            }
            EntrySource::Beacons | EntrySource::Mailbox | EntrySource::Bell => {}
        }
    }

    fn step(&mut self, source: EntrySource, registry: &Registry) -> Result<Polled, NetworkFault>
        ensures { IfOk result (λ step. StepIsShort step) }
    {
        match source {
            EntrySource::Beacons => {
                self.beacons
                    .step(&mut self.buffer, &mut self.shares, self.at)
            }
            EntrySource::Mailbox => self.accept(registry),
            EntrySource::Bell => Ok(Polled::Rest),
            EntrySource::Conn(number) => match self.conns.get_mut(&number) {
                Some(conn) => conn.step(number, &mut self.buffer).map_err(no_memory),
                None => Ok(Polled::Rest),
            },
            EntrySource::Link(number) => self.step_link(number).map_err(no_memory),
        }
    }

    fn step_link(&mut self, number: u64) -> Result<Polled, OutOfMemory>
        ensures short { IfOk result (λ step. StepIsShort step) }
        ensures own { IfOk result (λ step. IsOfLink number step) }
    {
        let chance = self.links.chance(number, self.at);
        let Some(link) = self.links.get_mut(number) else {
            return Ok(Polled::Rest);
        };
        let stood = link.stands();
        let step = link.step(number, self.at, chance, &mut self.buffer)?;
        if !stood && link.stands() {
            let addr = link.to.addr;
            self.shares.stood(addr, self.at);
        }
        Ok(step)
    }

    fn accept(&mut self, registry: &Registry) -> Result<Polled, NetworkFault>
        ensures short { IfOk result (λ step. StepIsShort step) }
        ensures own { IfOk result (λ step. IsOfMailbox self.old.opened self.new.opened step) }
    {
        match self.listener.accept() {
            Ok((stream, from)) => self.arrive(stream, from, registry).map_err(no_memory),
            Err(error) => match class_of(&error) {
                ErrorClass::NotReady => Ok(Polled::Rest),
                ErrorClass::Transient => Ok(Polled::Again),
                ErrorClass::Fatal => Err(failed(SystemPart::Mailbox(self.listens_at), error)),
            },
        }
    }

    // The listener is bound to an address of IPv4, so that no others come.
    fn arrive(
        &mut self,
        stream: TcpStream,
        from: SocketAddr,
        registry: &Registry,
    ) -> Result<Polled, OutOfMemory>
        ensures short { IfOk result (λ step. StepIsShort step) }
        ensures own { IfOk result (λ step. IsOfMailbox self.old.opened self.new.opened step) }
    {
        let SocketAddr::V4(from) = from else {
            drop(stream);
            return Ok(Polled::Dropped);
        };
        let came = Arrival {
            stream,
            addr: from.ip().octets(),
            at: self.at,
        };
        let Some(came) = self.arrivals.arrive(came, &mut self.shares, self.at)? else {
            return Ok(Polled::Dropped);
        };
        match self.admit(came, registry)? {
            Some(input) => Ok(Polled::More(input)),
            None => Ok(Polled::Dropped),
        }
    }

    // One that waited, where it may be given now.
    fn admit_waiting(&mut self, registry: &Registry) -> Result<Option<Input>, OutOfMemory>
        ensures short { IfOk result (λ input. IfSome input (λ i. IsShort i)) }
        ensures own { IfOk result (λ input. MatchOption input (self.new.opened ≡ self.old.opened)
            (λ i. IsOpening self.old.opened i × (self.new.opened ≡ self.old.opened + 1))) }
    {
        match self.arrivals.next(&mut self.shares, self.at) {
            Some(came) => self.admit(came, registry),
            None => Ok(None),
        }
    }

    // The number of the next connection, and its token.
    fn next_conn(&self) -> Option<(u64, Token)>
        ensures { IfSome result (λ next. next.0 ≡ self.now.opened + 1) }
    {
        let conn = self.opened.checked_add(1)?;
        Some((conn, token_of(EntrySource::Conn(conn))?))
    }

    // A connection that the poll has no place for is closed.
    fn admit(&mut self, came: Arrival, registry: &Registry) -> Result<Option<Input>, OutOfMemory>
        ensures short { IfOk result (λ input. IfSome input (λ i. IsShort i)) }
        ensures own { IfOk result (λ input. MatchOption input (self.new.opened ≡ self.old.opened)
            (λ i. IsOpening self.old.opened i × (self.new.opened ≡ self.old.opened + 1))) }
    {
        let Some((conn, token)) = self.next_conn() else {
            drop(came);
            return Err(OutOfMemory);
        };
        let Arrival {
            mut stream,
            addr,
            ..
        } = came;
        let _ = stream.set_nodelay(true);
        if registry
            .register(&mut stream, token, Interest::READABLE)
            .is_err()
        {
            drop(stream);
            self.shares.leave(addr);
            return Ok(None);
        }
        drop(self.conns.insert(conn, TcpConn::new(stream, addr))?);
        self.opened = conn;
        Ok(Some(Input::Opened { conn }))
    }

    /// Begins to open a link, at once or when its endpoint may be dialed again. Where that fails for good, the link
    /// says so when it is looked at.
    pub(crate) fn connect<R: Net>(
        &mut self,
        rt: &R,
        registry: &Registry,
        link: u64,
        to: Endpoint,
    ) -> Result<(), OutOfMemory> {
        let times = Times {
            at: self.at,
            due: self.shares.redial_due(to),
        };
        self.links.open(link, to, times, &mut self.queue)?;
        self.turn_links(rt, registry)
    }

    /// Does what is due for links that don't stand.
    pub(crate) fn turn_links<R: Net>(
        &mut self,
        rt: &R,
        registry: &Registry,
    ) -> Result<(), OutOfMemory> {
        self.links.turn(rt, registry, self.at, &mut self.queue)
    }

    pub(crate) fn answer(&mut self, number: u64, bytes: &[u8]) -> Result<(), OutOfMemory> {
        if let Some(conn) = self.conns.get_mut(&number) {
            if conn.answer(bytes) {
                self.rouse(EntrySource::Conn(number))?;
            }
        }
        Ok(())
    }

    pub(crate) fn offer(&mut self, number: u64, bytes: &[u8]) -> Result<(), OutOfMemory> {
        if let Some(link) = self.links.get_mut(number) {
            if link.offer(bytes) {
                self.rouse(EntrySource::Link(number))?;
            }
        }
        Ok(())
    }
}

// A listener, where two more sockets can be had besides it, for a connection and a link. With fewer a node can't enter
// anybody.
fn listen_with_room<R: Net>(
    rt: &R,
    at: Endpoint,
    reserved: Option<Reserved>,
) -> io::Result<TcpListener> {
    let listener = listen(rt, at, reserved)?;
    once_ready(listener, try_two(rt))
}

fn try_two<R: Net>(rt: &R) -> io::Result<()> {
    let (one, other) = UnixStream::pair(rt)?;
    drop(one);
    drop(other);
    Ok(())
}
