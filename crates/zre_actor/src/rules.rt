//! The rule of the command pipe, and what each of its steps tells.
ghost use Rattle.std.specs.Prelude.{◌≡◌, ◌++◌, ◌∷◌, [], ⊤};
ghost use Rattle.zre_actor.specs.Commands.{placed, first, without_one, one_caller, joined, nobody, wrote, Reads};
ghost use Rattle.zre_actor.specs.Commands.{Accounts};

use crate::Told;
use crate::views::{CommandView, EventView, Placed};
use crossbeam_channel::{RuledReceiver, RuledSender, protocol as channel};
use crossbeam_queue::RuledArrayQueue;
use crossbeam_queue::protocol::{Join, Lesson, Outcome, Protocol, Split};
use zre_outside::Command;

pub(crate) struct InOrder;

impl Protocol<Command, CommandView> for InOrder {
    ghost use Rattle.zre_actor.specs.Commands.{first, Rule};

    ghost holds = { Rule };

    ghost first = { first };
}

/// A caller of its own is made of an unused number.
pub(crate) struct SplitOff;

impl Split<CommandView> for SplitOff {
    ghost left = { without_one };

    ghost right = { one_caller };
}

/// A pass takes in what another's callers put.
pub(crate) struct TakeIn;

impl Join<CommandView> for TakeIn {
    ghost both = { joined };

    ghost spent = { nobody };
}

pub(crate) struct PutsCommand;

impl Outcome<Command, CommandView> for PutsCommand {
    ghost then = { λ v x w. w ≡ wrote v x };
}

impl Lesson<Command, CommandView> for PutsCommand {
    ghost fact = { λ v items. ⊤ };
}

pub(crate) struct PopsCommand;

impl Outcome<Command, CommandView> for PopsCommand {
    ghost then = { Reads };
}

impl Lesson<Command, CommandView> for PopsCommand {
    ghost fact = { λ v items. ⊤ };
}

/// What a pass with every number learns.
pub(crate) struct Total;

impl Lesson<Command, CommandView> for Total {
    ghost fact = { Accounts };
}

pub(crate) type CommandQueue = RuledArrayQueue<Command, CommandView, InOrder>;

pub(crate) struct EventsInOrder;

impl channel::Protocol<Told, EventView> for EventsInOrder {
    ghost use Rattle.zre_actor.specs.Events.{first_hearing, EventRule};

    ghost holds = { EventRule };

    ghost first = { first_hearing };
}

/// The taker's pass is cut from the actor's.
pub(crate) struct TwoEnds;

impl channel::Split<EventView> for TwoEnds {
    ghost use Rattle.zre_actor.specs.Events.{actors, takers};

    ghost left = { actors };

    ghost right = { takers };
}

impl channel::Join<EventView> for TwoEnds {
    ghost use Rattle.zre_actor.specs.Events.{met, deaf};

    ghost both = { met };

    ghost spent = { deaf };
}

pub(crate) struct Raises;

impl channel::Outcome<Told, EventView> for Raises {
    ghost use Rattle.std.specs.Prelude.{◌≡◌};
    ghost use Rattle.zre_actor.specs.Events.{sent};

    ghost then = { λ v m w. w ≡ sent v m };
}

impl channel::Lesson<Told, EventView> for Raises {
    ghost fact = { λ v items. ⊤ };
}

pub(crate) struct HearsEvent;

impl channel::Outcome<Told, EventView> for HearsEvent {
    ghost use Rattle.std.specs.Prelude.{◌≡◌, None};
    ghost use Rattle.zre_actor.specs.Events.{heard};

    ghost then = { λ v m w. (v.last ≡ None) × (w ≡ heard v m) };
}

impl channel::Lesson<Told, EventView> for HearsEvent {
    ghost fact = { λ v items. ⊤ };
}

/// What the two ends learn, once Last was taken.
pub(crate) struct AllTaken;

impl channel::Lesson<Told, EventView> for AllTaken {
    ghost use Rattle.zre_actor.specs.Events.{AllHeard};

    ghost fact = { λ v items. AllHeard v };
}

pub(crate) type EventPass = crossbeam_channel::Pass<Told, EventView>;

pub(crate) type EventSender = RuledSender<Told, EventView, EventsInOrder>;

pub(crate) type EventReceiver = RuledReceiver<Told, EventView, EventsInOrder>;
