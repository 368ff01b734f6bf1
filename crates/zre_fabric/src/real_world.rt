ghost use Rattle.std.specs.Prelude.{◌≡◌, ◌≤◌, nat_le, false, true, None, option_map, IsSome, IfOk};
ghost use Rattle.std.specs.Prelude.{OnOk, OnErr};
ghost use Rattle.zre_outside.specs.declared.deed.Deed.{Deed as DeedValue};
ghost use Rattle.zre_outside.specs.Causes.{Rose, raised};
ghost use Rattle.zre_outside.specs.Worlds.{with_start, IsTurn, is_look, after_turn, with_deed};
ghost use Rattle.zre_fabric.specs.Pieces.{TurnIsShort};
ghost use Rattle.zre_fabric.specs.Readings.{IsReadAt};
ghost use Rattle.zre_fabric.specs.Looking.{is_full, entries_after, commands_after, octets_after};
ghost use Rattle.zre_fabric.specs.NetworkFaults.{fault_of};

use crate::bell::Bell;
use crate::fabric::Fabric;
use crate::network_fault::{NetworkFault, Reason};
use std::alloc::Global;
use std::net::Net;
use std::rt::Clock;
use zre_outside::{Act, Command, NextFault, Start, Turn, World};
use zre_values::{Endpoint, OutOfMemory, take_apart};

/// The real network. It tells nothing of what it gave, since no contract says what a system answers.
pub struct RealWorld<R> {
    fabric: Fabric<R>,
    looked: bool,
    faults: u64,
    reason: Option<Reason>,
}

impl<R: Drop> Drop for RealWorld<R> {
    fn drop(self) {
        take_apart!(self, RealWorld: fabric, looked, faults, reason);
    }
}

impl<R> RealWorld<R> {
    ghost use Rattle.zre_fabric.specs.RealWorlds.{has_looked, faults_of, reason_of, reading_of, entries_of};
    ghost use Rattle.zre_fabric.specs.RealWorlds.{commands_of, octets_of};

    /// A world that isn't started yet. It takes no memory and opens nothing.
    pub fn new(rt: R, alloc: Global) -> Self
        // Nothing came about yet.
        ensures looked { has_looked result ≡ false }
        ensures faults { faults_of result ≡ 0 }
        ensures clock { reading_of result ≡ 0 }
        ensures since_look { (entries_of result ≡ 0) × (commands_of result ≡ 0) }
        ensures octets { octets_of result ≡ 0 }
    {
        RealWorld::with_bell(rt, alloc, None)
    }

    /// A world with a bell: a look is due at once where it is rung.
    pub fn with_bell(rt: R, alloc: Global, bell: Option<Bell>) -> Self
        // Nothing came about yet.
        ensures looked { has_looked result ≡ false }
        ensures faults { faults_of result ≡ 0 }
        ensures clock { reading_of result ≡ 0 }
        ensures since_look { (entries_of result ≡ 0) × (commands_of result ≡ 0) }
        ensures octets { octets_of result ≡ 0 }
    {
        RealWorld {
            fabric: Fabric::new(rt, alloc, bell),
            looked: false,
            faults: 0,
            reason: None,
        }
    }

    /// What failed in the last call that did, and why as the system says it; none where that was memory.
    pub fn reason(&self) -> Option<Reason>
        ensures { result ≡ reason_of self.now }
    {
        self.reason
    }

    // A call ended early.
    fn note(&mut self, network_fault: NetworkFault) -> NextFault
        // What the fault is told as.
        ensures fault { result ≡ fault_of network_fault }
        // Which counts rise.
        ensures later { faults_of self.old ≤ faults_of self.new }
        ensures failed { result ≡ NextFault.Failed → Rose (faults_of self.old) (faults_of self.new) }
        ensures other { result ≡ NextFault.OutOfMemory → faults_of self.new ≡ faults_of self.old }
        ensures one { result ≡ NextFault.Failed → faults_of self.new ≡ raised (faults_of self.old) }
        // The reason.
        ensures reason { result ≡ NextFault.Failed → IsSome (reason_of self.new) }
        ensures unchanged { (self.new.fabric ≡ self.old.fabric) × (self.new.looked ≡ self.old.looked) }
    {
        let fault = network_fault.fault();
        self.faults = raise(self.faults, fault);
        self.reason = network_fault.reason();
        fault
    }
}

// One more fault, where the outside failed and not with OutOfMemory.
fn raise(faults: u64, fault: NextFault) -> u64
    // No count falls.
    ensures later { faults ≤ result }
    // The count of this fault rises by one, the others stay.
    ensures failed { fault ≡ NextFault.Failed → Rose faults result }
    ensures other { fault ≡ NextFault.OutOfMemory → result ≡ faults }
    ensures one { fault ≡ NextFault.Failed → result ≡ raised faults }
{
    match fault {
        NextFault::Failed => faults.saturating_add(1),
        NextFault::OutOfMemory => faults,
    }
}

impl<R: Net> RealWorld<R> {
    ghost use Rattle.zre_fabric.specs.RealWorlds.{reason_of, IsAsBefore};

    /// Listens from now on at the address and the port of the mailbox that the world is to be started with. Where that
    /// can't be done nothing is said: the start tries again, and fails where it still can't.
    pub fn reserve(&mut self, at: Endpoint)
        ensures unchanged { IsAsBefore self.old self.new }
        ensures reason { reason_of self.new ≡ reason_of self.old }
    {
        self.fabric.reserve(at);
    }
}

impl<R: Net + Clock> World for RealWorld<R> {
    ghost use Rattle.zre_fabric.specs.RealWorlds.{told_of, has_looked, faults_of, CountsFault};
    ghost use Rattle.zre_fabric.specs.RealWorlds.{reading_of, entries_of, commands_of, octets_of, IsAsBefore};

    ghost told = { told_of };

    ghost looked = { has_looked };

    ghost faults = { faults_of };

    /// Binds UDP at `listen` and the port of beacons, for sending to broadcast addresses too, and TCP at `host` and
    /// `port`. It fails where one of them can't be bound. What was started before is closed in any case.
    fn start(&mut self, s: &Start) -> Result<(), NextFault>
        // What it tells.
        ensures told { OnOk result (told_of self.new ≡ option_map (with_start s.now) (told_of self.old)) }
        ensures refused { OnErr result (told_of self.new ≡ told_of self.old) }
        ensures looked { has_looked self.new ≡ has_looked self.old }
        ensures faults { CountsFault result self.old self.new }
        // The clock, and what is counted since the last look.
        ensures clock { reading_of self.old ≤ reading_of self.new }
        ensures since_look { (entries_of self.new ≡ 0) × (commands_of self.new ≡ 0) }
        ensures octets { octets_of self.new ≡ 0 }
    {
        match self.fabric.start(s) {
            Ok(()) => Ok(()),
            Err(network_fault) => Err(self.note(network_fault)),
        }
    }

    /// Waits for 20 milliseconds at most. It fails where the world isn't started, and where the clock, the poll, the
    /// UDP socket or the listener fails.
    fn next(&mut self, command: Option<Command>) -> Result<Turn, NextFault>
        requires { IsSome command → has_looked self.old ≡ true }
        // The turn, and what the world tells of it.
        ensures turn { IfOk result (λ t. IsTurn command t) }
        ensures told { IfOk result (λ t. told_of self.new ≡ option_map (after_turn command t) (told_of self.old)) }
        ensures looked { IfOk result (λ t. has_looked self.new ≡ is_look t) }
        ensures short { IfOk result (λ t. TurnIsShort t) }
        // The clock.
        ensures clock { reading_of self.old ≤ reading_of self.new }
        ensures reading { IfOk result (λ t. IsReadAt (reading_of self.new) t) }
        // A look comes again after each command at once, unless 64 came in a row, and after 64 entries or 65,536 octets
        // at most.
        ensures look { command ≡ None → is_full (entries_of self.old) (commands_of self.old) ≡ true
            → IfOk result (λ t. is_look t ≡ true) }
        ensures long { command ≡ None → nat_le 65536 (octets_of self.old) ≡ true → IfOk result (λ t. is_look t ≡ true) }
        ensures octets { IfOk result (λ t. octets_of self.new ≡ octets_after (octets_of self.old) t) }
        ensures since_look { IfOk result (λ t. (entries_of self.new ≡ entries_after (entries_of self.old) t)
            × (commands_of self.new ≡ commands_after (commands_of self.old) command t)) }
        // A call that is refused.
        ensures refused { OnErr result ((told_of self.new ≡ told_of self.old)
            × (has_looked self.new ≡ has_looked self.old)) }
        ensures faults { CountsFault result self.old self.new }
        ensures unchanged { OnErr result ((entries_of self.new ≡ entries_of self.old)
            × (commands_of self.new ≡ commands_of self.old) × (octets_of self.new ≡ octets_of self.old)) }
    {
        match self.fabric.next(command) {
            Ok(turn) => {
                self.looked = matches!(turn, Turn::Look);
                Ok(turn)
            }
            Err(network_fault) => Err(self.note(network_fault)),
        }
    }

    /// Begins what the act asks for, and waits for nothing. An act on a link or connection that is gone does nothing.
    fn act(&mut self, act: &Act) -> Result<(), OutOfMemory>
        ensures ok { OnOk result (told_of self.new ≡ option_map (with_deed (DeedValue.Done act.now))
            (told_of self.old)) }
        ensures err { OnErr result (told_of self.new ≡ told_of self.old) }
        ensures unchanged { IsAsBefore self.old self.new }
    {
        self.fabric.act(act)
    }

    fn offer(&mut self, link: u64, bytes: &[u8]) -> Result<(), OutOfMemory>
        ensures ok { OnOk result (told_of self.new ≡ option_map (with_deed (DeedValue.Offered link bytes.now))
            (told_of self.old)) }
        ensures err { OnErr result (told_of self.new ≡ told_of self.old) }
        ensures unchanged { IsAsBefore self.old self.new }
    {
        self.fabric.offer(link, bytes)
    }
}
