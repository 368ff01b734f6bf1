//! What the actor does with the pipes.
ghost use Rattle.std.specs.Prelude.{◌≡◌, None};
ghost use Rattle.crossbeam_channel.specs.Claims as channel;
ghost use Rattle.zre_actor.specs.Events.{sent};
ghost use Rattle.zre_actor.specs.Passes.{IsActorOf, popped_by, unused_by, raised_by, ending_of, IsPopped};

use super::{ActorPass, Pipes};
use crate::Told;
use crate::rules::PopsCommand;
use std::sync::Wait;
use zre_outside::Command;

impl Pipes {
    // A command, or nothing where the pipe was empty at one moment of the call.
    pub(crate) fn pop<R: Wait + Copy>(&self, rt: R, pass: ActorPass) -> (ActorPass, Option<Command>)
        requires { IsActorOf self.now pass }
        // The pass.
        ensures pipes { IsActorOf self.now result.0 }
        // What was popped.
        ensures popped { IsPopped pass result.1 result.0 }
        ensures unused { unused_by result.0 ≡ unused_by pass }
        ensures events { (raised_by result.0 ≡ raised_by pass) × (ending_of result.0 ≡ ending_of pass) }
    {
        let ActorPass {
            mut commands,
            events,
            mut empties,
        } = pass;
        let found = self.commands.pop_as::<PopsCommand, R>(&rt, &mut commands);
        if found.is_none() {
            empties = empties.saturating_add(1);
        }
        let pass = ActorPass {
            commands,
            events,
            empties,
        };
        (pass, found)
    }

    // Pushes an event, or Last.
    pub(crate) fn push<R: Wait + Copy>(&self, rt: R, pass: ActorPass, message: Told) -> ActorPass
        // What a caller knows.
        requires pipes { IsActorOf self.now pass }
        requires open { ending_of pass ≡ None }
        // What the pass knows after the event was raised.
        ensures pipes { IsActorOf self.now result }
        ensures told { channel.view result.events ≡ sent (channel.view pass.events) message }
        ensures commands { (popped_by result ≡ popped_by pass) × (result.empties ≡ pass.empties)
            × (unused_by result ≡ unused_by pass) }
    {
        let ActorPass {
            commands,
            mut events,
            empties,
        } = pass;
        self.tell(rt, &mut events, message);
        ActorPass {
            commands,
            events,
            empties,
        }
    }
}
