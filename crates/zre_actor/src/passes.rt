//! The pipes and the passes to them. Only this module and its children can write a pass.
ghost use Rattle.std.specs.Prelude.{◌≡◌, false, true, [], ◌∷◌};
ghost use Rattle.crossbeam_queue.specs.Passes.{view, ruled_capacity};
ghost use Rattle.crossbeam_channel.specs.Claims as channel;
ghost use Rattle.crossbeam_channel.specs.Ends.{sends_on, receives_on};
ghost use Rattle.zre_actor.specs.Commands.{IsActor, IsCaller};

use crate::rules::{CommandQueue, EventPass, EventReceiver, EventSender};
use crate::views::CommandView;
use crossbeam_queue::Pass;
use std::alloc::Global;
use zre_outside::Command;

mod actor;
mod callers;
mod events;
mod finish;
mod make;
mod put;

pub use finish::Finished;

/// The two pipes.
#[derive(Drop)]
pub struct Pipes {
    pub(crate) alloc: Global,
    commands: CommandQueue,
    events_in: EventSender,
    events_out: EventReceiver,
    ghost one_channel: { receives_on events_out ≡ sends_on events_in },
    ghost room: { ruled_capacity commands ≡ 1024 },
}

/// The right to put commands under a number.
#[derive(Drop)]
pub struct CallerPass {
    commands: Pass<Command, CommandView>,
    fulls: u64,
    ghost is_caller: { IsCaller (view commands) },
}

/// The right to pop commands and to raise events.
#[derive(Drop)]
pub struct ActorPass {
    commands: Pass<Command, CommandView>,
    events: EventPass,
    empties: u64,
    ghost is_actor: { IsActor (view commands) },
    ghost raises: { (channel.view events).raises ≡ true },
}

/// The right to take events.
#[derive(Drop)]
pub struct TakerPass {
    events: EventPass,
    ghost takes: { (channel.view events).takes ≡ true },
}

/// The passes of the callers: those not taken yet, and those given back.
#[derive(Drop)]
pub struct CallerPasses {
    fresh: Vec<CallerPass>,
    given: Vec<CallerPass>,
}

/// What `Pipes::make` makes.
#[derive(Drop)]
pub struct Made {
    pub pipes: Pipes,
    pub actor: ActorPass,
    pub callers: CallerPasses,
    pub taker: TakerPass,
}

/// The pipe held its most commands at some moment of the call.
#[derive(Drop)]
pub struct Full {
    pub pass: CallerPass,
    pub command: Command,
}
