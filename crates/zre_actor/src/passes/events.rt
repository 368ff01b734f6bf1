//! Events are pushed and taken.
ghost use Rattle.std.specs.Prelude.{◌≡◌, true, None, MatchOption};
ghost use Rattle.crossbeam_channel.specs.Claims.{view, IsSeatAt};
ghost use Rattle.crossbeam_channel.specs.Ends.{sends_on};
ghost use Rattle.zre_actor.specs.Events.{sent};
ghost use Rattle.zre_actor.specs.Passes.{IsTakerOf, taken_by, last_of, IsTold};

use super::{Pipes, TakerPass};
use crate::Told;
use crate::rules::{EventPass, HearsEvent, Raises};
use std::sync::Wait;

impl Pipes {
    /// The next event, or Last. It waits until there is one.
    pub fn take<R: Wait + Copy>(&self, rt: R, pass: TakerPass) -> (TakerPass, Told)
        // What a caller knows.
        requires pipes { IsTakerOf self.now pass }
        requires open { last_of pass ≡ None }
        // What the pass knows after the event was taken.
        ensures pipes { IsTakerOf self.now result.0 }
        ensures told { IsTold pass result.1 result.0 }
    {
        let TakerPass { mut events } = pass;
        for _ in rt.forever() {
            if let Ok(told) = self.events_out.recv_as::<HearsEvent, R>(&rt, &mut events) {
                return (TakerPass { events }, told);
            }
        }
        unreachable!()
    }

    /// The next event, or Last, or nothing where the pipe was empty at one moment of the call. So a caller can do
    /// what it put off, such as to write, before it waits in [`Pipes::take`].
    pub fn try_take<R: Wait + Copy>(&self, rt: R, pass: TakerPass) -> (TakerPass, Option<Told>)
        // What a caller knows.
        requires pipes { IsTakerOf self.now pass }
        requires open { last_of pass ≡ None }
        // What the pass knows after the event was taken, if there was one.
        ensures pipes { IsTakerOf self.now result.0 }
        ensures told { MatchOption result.1 ((taken_by result.0 ≡ taken_by pass) × (last_of result.0 ≡ last_of pass))
            (λ told. IsTold pass told result.0) }
    {
        let TakerPass { mut events } = pass;
        let told = self
            .events_out
            .try_recv_as::<HearsEvent, R>(&rt, &mut events)
            .ok();
        (TakerPass { events }, told)
    }

    // Pushes an event, or Last. It waits while the pipe is full.
    pub(super) fn tell<R: Wait + Copy>(&self, rt: R, events: &mut EventPass, message: Told)
        // The seat is that of the pipe of events, which is open.
        requires pipes { IsSeatAt (sends_on self.now.events_in) events.old }
        requires open { ((view events.old).raises ≡ true) × ((view events.old).ended_by ≡ None) }
        // What is pushed.
        ensures pipes { IsSeatAt (sends_on self.now.events_in) events.new }
        ensures told { view events.new ≡ sent (view events.old) message }
    {
        let mut message = message;
        for _ in rt.forever() {
            match self.events_in.send_as::<Raises, R>(&rt, events, message) {
                Ok(()) => return,
                Err(back) => message = back.into_inner(),
            }
        }
        unreachable!()
    }
}
