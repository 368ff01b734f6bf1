ghost use Rattle.std.specs.Prelude.{◌≡◌, ◌≤◌, nat_le, true, None, Some, IfOk, IfSome, OnErr};
ghost use Rattle.zre_outside.specs.Worlds.{IsTurn, is_look};
ghost use Rattle.zre_fabric.specs.Pieces.{IsShort, TurnIsShort};
ghost use Rattle.zre_fabric.specs.Readings.{IsReadAt};
ghost use Rattle.zre_fabric.specs.Looking.{is_full, entries_after, commands_after, octets_after};

use crate::bell::Bell;
use crate::network_fault::{NetworkFault, SystemPart, failed};
use crate::polled_sockets::PolledSockets;
use crate::prepared::Prepared;
use crate::since_look::SinceLook;
use crate::sockets::octets_of;
use crate::stopwatch::Stopwatch;
use std::alloc::Global;
use std::io::{self, ErrorKind};
use std::net::Net;
use std::rt::Clock;
use zre_outside::{Act, Command, Entry, Input, Start, Turn};
use zre_values::{Endpoint, OutOfMemory, take_apart};

/// The clock, and the network once it was started.
pub(crate) struct Fabric<R> {
    rt: R,
    alloc: Global,
    stopwatch: Stopwatch,
    since_look: SinceLook,
    prepared: Prepared,
    network: Option<PolledSockets>,
}

impl<R: Drop> Drop for Fabric<R> {
    fn drop(self) {
        take_apart!(self, Fabric: rt, alloc, stopwatch, since_look, prepared, network);
    }
}

impl<R> Fabric<R> {
    pub(crate) fn new(rt: R, alloc: Global, bell: Option<Bell>) -> Self
        ensures clock { result.stopwatch.last ≡ 0 }
        ensures since_look { (result.since_look.entries ≡ 0) × (result.since_look.commands ≡ 0) }
        ensures octets { result.since_look.octets ≡ 0 }
    {
        Fabric {
            rt,
            alloc,
            stopwatch: Stopwatch::new(),
            since_look: SinceLook::default(),
            prepared: Prepared {
                bell,
                mailbox: None,
            },
            network: None,
        }
    }
}

impl<R: Net> Fabric<R> {
    /// Listens from now on at the place that the world is to be started at. Where that can't be done, the start says
    /// so.
    pub(crate) fn reserve(&mut self, at: Endpoint)
        ensures unchanged { self.new ≡ record self.old { prepared = self.new.prepared } }
    {
        self.prepared.reserve(&self.rt, at);
    }
}

// The entry with what was found, or a look where that is nothing.
fn turn_of(
    input: Option<Input>,
    at: u64,
    network: &mut PolledSockets,
    since_look: &mut SinceLook,
) -> Turn
    // The turn.
    ensures short { IfSome input (λ i. IsShort i) → TurnIsShort result }
    ensures reading { IsReadAt at result }
    ensures look { input ≡ None → is_look result ≡ true }
    // What is counted since the last look.
    ensures since_look { (since_look.new.entries ≡ entries_after since_look.old.entries result)
        × (since_look.new.commands ≡ commands_after since_look.old.commands None result) }
    ensures octets { since_look.new.octets ≡ octets_after since_look.old.octets result }
{
    match input {
        Some(input) => {
            since_look.gave_entry(octets_of(&input));
            Turn::Entry(Entry { at, input })
        }
        None => {
            network.gave_look(at);
            since_look.gave_look();
            Turn::Look
        }
    }
}

impl<R: Net + Clock> Fabric<R> {
    /// What was open before is closed first, since the same ports may be asked for.
    pub(crate) fn start(&mut self, s: &Start) -> Result<(), NetworkFault>
        ensures later { self.old.stopwatch.last ≤ self.new.stopwatch.last }
        ensures since_look { (self.new.since_look.entries ≡ 0) × (self.new.since_look.commands ≡ 0) }
        ensures octets { self.new.since_look.octets ≡ 0 }
    {
        drop(self.network.take());
        self.since_look = SinceLook::default();
        let at = self.stopwatch.read(&self.rt)?;
        let network = PolledSockets::open(&self.rt, self.alloc, s, at, &mut self.prepared)?;
        drop(self.network.replace(network));
        Ok(())
    }

    pub(crate) fn next(&mut self, command: Option<Command>) -> Result<Turn, NetworkFault>
        // The turn.
        ensures turn { IfOk result (λ t. IsTurn command t) }
        ensures short { IfOk result (λ t. TurnIsShort t) }
        ensures reading { IfOk result (λ t. IsReadAt self.new.stopwatch.last t) }
        // The clock never goes back.
        ensures later { self.old.stopwatch.last ≤ self.new.stopwatch.last }
        // When it must look.
        ensures look { command ≡ None → is_full self.old.since_look.entries self.old.since_look.commands ≡ true
            → IfOk result (λ t. is_look t ≡ true) }
        ensures long { command ≡ None → nat_le 65536 self.old.since_look.octets ≡ true
            → IfOk result (λ t. is_look t ≡ true) }
        // What is counted since the last look.
        ensures since_look { IfOk result (λ t.
            (self.new.since_look.entries ≡ entries_after self.old.since_look.entries t)
            × (self.new.since_look.commands ≡ commands_after self.old.since_look.commands command t)) }
        ensures octets { IfOk result (λ t. self.new.since_look.octets ≡ octets_after self.old.since_look.octets t) }
        ensures unchanged { OnErr result (self.new.since_look ≡ self.old.since_look) }
    {
        match command {
            Some(command) => self.obey(command),
            None => {
                self.tell_bell();
                self.go_on()
            }
        }
    }

    // The last turn was a look, after which no command was found: the bell's other end may wait for that.
    fn tell_bell(&mut self)
        ensures unchanged { self.new ≡ record self.old { prepared = self.new.prepared } }
    {
        if self.since_look.has_looked()
            && let Some(bell) = &mut self.prepared.bell
        {
            bell.found_none();
        }
    }

    fn obey(&mut self, command: Command) -> Result<Turn, NetworkFault>
        // The turn.
        ensures turn { IfOk result (λ t. IsTurn (Some command) t) }
        ensures short { IfOk result (λ t. TurnIsShort t) }
        ensures reading { IfOk result (λ t. IsReadAt self.new.stopwatch.last t) }
        // The clock never goes back.
        ensures later { self.old.stopwatch.last ≤ self.new.stopwatch.last }
        // What is counted since the last look.
        ensures since_look { IfOk result (λ t.
            (self.new.since_look.entries ≡ entries_after self.old.since_look.entries t)
            × (self.new.since_look.commands ≡ commands_after self.old.since_look.commands (Some command) t)) }
        ensures octets { IfOk result (λ t. self.new.since_look.octets ≡ octets_after self.old.since_look.octets t) }
        ensures unchanged { OnErr result (self.new.since_look ≡ self.old.since_look) }
    {
        let at = match self.stopwatch.read(&self.rt) {
            Ok(at) => at,
            Err(network_fault) => {
                drop(command);
                return Err(network_fault);
            }
        };
        if let Some(network) = &mut self.network {
            network.gave_command(at);
        }
        self.since_look.gave_command();
        Ok(Turn::Entry(Entry {
            at,
            input: Input::Do(command),
        }))
    }

    // A look where one is due, or an entry that is there, or else one that comes within the wait, or else a look.
    fn go_on(&mut self) -> Result<Turn, NetworkFault>
        // The turn.
        ensures short { IfOk result (λ t. TurnIsShort t) }
        ensures reading { IfOk result (λ t. IsReadAt self.new.stopwatch.last t) }
        // The clock never goes back.
        ensures later { self.old.stopwatch.last ≤ self.new.stopwatch.last }
        // When it must look.
        ensures look { is_full self.old.since_look.entries self.old.since_look.commands ≡ true
            → IfOk result (λ t. is_look t ≡ true) }
        ensures long { nat_le 65536 self.old.since_look.octets ≡ true → IfOk result (λ t. is_look t ≡ true) }
        // What is counted since the last look.
        ensures since_look { IfOk result (λ t.
            (self.new.since_look.entries ≡ entries_after self.old.since_look.entries t)
            × (self.new.since_look.commands ≡ commands_after self.old.since_look.commands None t)) }
        ensures octets { IfOk result (λ t. self.new.since_look.octets ≡ octets_after self.old.since_look.octets t) }
        ensures unchanged { OnErr result (self.new.since_look ≡ self.old.since_look) }
    {
        let at = self.stopwatch.read(&self.rt)?;
        let Some(network) = &mut self.network else {
            return Err(failed(SystemPart::Poll, io::Error::from(ErrorKind::NotConnected)));
        };
        if self.since_look.is_full() || self.since_look.is_long() {
            return Ok(turn_of(None, at, network, &mut self.since_look));
        }
        let there = network.find(&self.rt, at, &mut self.prepared.bell)?;
        if there.is_some() {
            return Ok(turn_of(there, at, network, &mut self.since_look));
        }
        network.wait(&self.rt, at, &mut self.prepared.bell)?;
        let at = self.stopwatch.read(&self.rt)?;
        let come = network.find(&self.rt, at, &mut self.prepared.bell)?;
        Ok(turn_of(come, at, network, &mut self.since_look))
    }

    pub(crate) fn act(&mut self, act: &Act) -> Result<(), OutOfMemory>
        ensures clock { self.new.stopwatch ≡ self.old.stopwatch }
        ensures since_look { self.new.since_look ≡ self.old.since_look }
    {
        match &mut self.network {
            Some(network) => network.act(&self.rt, act),
            None => Ok(()),
        }
    }

    pub(crate) fn offer(&mut self, link: u64, bytes: &[u8]) -> Result<(), OutOfMemory>
        ensures clock { self.new.stopwatch ≡ self.old.stopwatch }
        ensures since_look { self.new.since_look ≡ self.old.since_look }
    {
        match &mut self.network {
            Some(network) => network.offer(link, bytes),
            None => Ok(()),
        }
    }
}
