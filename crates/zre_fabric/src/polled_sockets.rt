ghost use Rattle.std.specs.Prelude.{IfOk, IfSome};
ghost use Rattle.zre_fabric.specs.Pieces.{IsShort};

use crate::bell::Bell;
use crate::entry_source::{EntrySource, source_of, token_of};
use crate::network_fault::{NetworkFault, SystemPart, failed, no_memory};
use crate::pace::Pace;
use crate::prepared::Prepared;
use crate::sockets::Sockets;
use mio::event::Source as Watched;
use mio::{Events, Interest, Poll, Registry};
use std::alloc::Global;
use std::io::{self, ErrorKind};
use std::net::Net;
use std::time::Duration;
use zre_outside::{Act, Input, Start};
use zre_values::{OutOfMemory, take_apart};

/// So many events one poll tells at most. The others come with the next.
const EVENTS: usize = 256;

/// A node's sockets under one poll.
pub(crate) struct PolledSockets {
    poll: Poll,
    events: Events,
    sockets: Sockets,
    pace: Pace,
    // A look was given since the last poll.
    is_due_to_poll: bool,
}

impl Drop for PolledSockets {
    fn drop(self) {
        take_apart!(self, PolledSockets: poll, events, sockets, pace, is_due_to_poll);
    }
}

fn watch<S: Watched>(
    registry: &Registry,
    socket: &mut S,
    source: EntrySource,
) -> Result<(), NetworkFault> {
    let Some(token) = token_of(source) else {
        return Err(failed(SystemPart::Poll, io::Error::from(ErrorKind::InvalidInput)));
    };
    match registry.register(socket, token, Interest::READABLE) {
        Ok(()) => Ok(()),
        Err(error) => Err(failed(SystemPart::Poll, error)),
    }
}

fn new_poll<R: Net>(rt: &R, alloc: Global) -> Result<(Poll, Events), NetworkFault> {
    let poll = match Poll::new(rt) {
        Ok(poll) => poll,
        Err(error) => return Err(failed(SystemPart::Poll, error)),
    };
    let Ok(events) = Events::with_capacity(alloc, EVENTS) else {
        drop(poll);
        return Err(NetworkFault::OutOfMemory);
    };
    Ok((poll, events))
}

impl PolledSockets {
    /// Binds both sockets, or takes the listener that was reserved, and has the poll watch them, and the bell.
    pub(crate) fn open<R: Net>(
        rt: &R,
        alloc: Global,
        s: &Start,
        at: u64,
        prepared: &mut Prepared,
    ) -> Result<Self, NetworkFault> {
        let (poll, events) = new_poll(rt, alloc)?;
        let sockets = match Sockets::open(rt, alloc, s, prepared.mailbox.take()) {
            Ok(sockets) => sockets,
            Err(network_fault) => {
                drop(poll);
                drop(events);
                return Err(network_fault);
            }
        };
        let mut network = PolledSockets {
            poll,
            events,
            sockets,
            pace: Pace::new(s.interval, at),
            is_due_to_poll: true,
        };
        match network.watch_all(&mut prepared.bell) {
            Ok(()) => Ok(network),
            Err(network_fault) => {
                drop(network);
                Err(network_fault)
            }
        }
    }

    fn watch_all(&mut self, bell: &mut Option<Bell>) -> Result<(), NetworkFault> {
        let registry = self.poll.registry();
        watch(
            registry,
            &mut self.sockets.beacons.socket,
            EntrySource::Beacons,
        )?;
        watch(registry, &mut self.sockets.listener, EntrySource::Mailbox)?;
        match bell {
            Some(bell) => watch(registry, &mut bell.stream, EntrySource::Bell),
            None => Ok(()),
        }
    }

    pub(crate) fn gave_look(&mut self, at: u64) {
        self.pace.gave_look(at);
        self.is_due_to_poll = true;
    }

    pub(crate) fn gave_command(&mut self, at: u64) {
        self.sockets.set_time(at);
        self.pace.look_now(at);
    }

    /// An entry that is there without waiting. The poll is asked after each look, so that sources which always have
    /// something don't keep the others out.
    pub(crate) fn find<R: Net>(
        &mut self,
        rt: &R,
        at: u64,
        bell: &mut Option<Bell>,
    ) -> Result<Option<Input>, NetworkFault>
        ensures { IfOk result (λ input. IfSome input (λ i. IsShort i)) }
    {
        self.sockets.set_time(at);
        if self.is_due_to_poll {
            self.gather(rt, at, Duration::ZERO, bell)?;
        }
        if self.pace.tick(at) {
            return Ok(Some(Input::Tick));
        }
        self.sockets.next(self.poll.registry())
    }

    /// Waits until something comes, the bell is rung, a Tick is due, or a look is.
    pub(crate) fn wait<R: Net>(
        &mut self,
        rt: &R,
        at: u64,
        bell: &mut Option<Bell>,
    ) -> Result<(), NetworkFault> {
        let timeout = if self.sockets.is_busy() {
            Duration::ZERO
        } else {
            self.pace.wait(at)
        };
        self.gather(rt, at, timeout, bell)
    }

    // After a ring a look is due at once.
    fn gather<R: Net>(
        &mut self,
        rt: &R,
        at: u64,
        timeout: Duration,
        bell: &mut Option<Bell>,
    ) -> Result<(), NetworkFault> {
        self.is_due_to_poll = false;
        if let Err(error) = self.poll.poll(&mut self.events, Some(timeout)) {
            return Err(failed(SystemPart::Poll, error));
        }
        for event in &self.events {
            let source = source_of(event.token());
            if let EntrySource::Bell = source {
                self.pace.look_now(at);
                if let Some(bell) = bell {
                    bell.hear();
                }
            } else {
                self.sockets
                    .hear(source, event.is_writable())
                    .map_err(no_memory)?;
            }
        }
        self.sockets
            .turn_links(rt, self.poll.registry())
            .map_err(no_memory)
    }

    pub(crate) fn act<R: Net>(&mut self, rt: &R, act: &Act) -> Result<(), OutOfMemory> {
        match act {
            Act::Connect { link, to } => {
                self.sockets.connect(rt, self.poll.registry(), *link, *to)
            }
            Act::CloseLink { link } => {
                self.sockets.close(EntrySource::Link(*link));
                Ok(())
            }
            Act::CloseConn { conn } => {
                self.sockets.close(EntrySource::Conn(*conn));
                Ok(())
            }
            Act::Answer { conn, bytes } => self.sockets.answer(*conn, bytes.as_slice()),
            Act::Offer { .. } => Ok(()),
            Act::Beacon { bytes } => {
                self.sockets.beacons.send(bytes);
                Ok(())
            }
        }
    }

    pub(crate) fn offer(&mut self, link: u64, bytes: &[u8]) -> Result<(), OutOfMemory> {
        self.sockets.offer(link, bytes)
    }
}
