//! What is known when all passes are back.
ghost use Rattle.std.specs.Prelude.{◌≡◌, ◌≤◌, ◌+◌, ◌++◌, ◌∷◌, [], List, ℕ, length, All, IsSome};
ghost use mathlib.Core.List.{IsPrefix};
ghost use Rattle.zre_actor.specs.declared.views.Placed.{Placed};
ghost use Rattle.zre_actor.specs.Commands.{times, under};
ghost use Rattle.zre_actor.specs.Passes.{IsActorOf, IsTakerOf, AreCallersOf, given_of, popped_by, raised_by};
ghost use Rattle.zre_actor.specs.Passes.{ending_of, taken_by, last_of, put_by, puts_of, live_of, AllBack};

use super::{ActorPass, CallerPass, CallerPasses, Pipes, TakerPass};
use crate::rules::{AllTaken, TakeIn, Total, TwoEnds};
use std::sync::Wait;

/// What is left in the command pipe.
#[derive(Clone, Copy)]
pub struct Finished {
    pub left: u32,
}

impl Pipes {
    /// Compares what the passes know, when all are back and Last was taken.
    pub fn finish<R: Wait + Copy>(
        &self,
        rt: R,
        actor: ActorPass,
        callers: CallerPasses,
        taker: TakerPass,
    ) -> Finished
        // All passes are back.
        requires pipes { IsActorOf self.now actor × AreCallersOf self.now (given_of callers)
            × IsTakerOf self.now taker }
        requires back { AllBack actor (given_of callers) }
        requires last { IsSome (last_of taker) }
        // The commands.
        ensures put { All (λ p. (n : ℕ) → 1 ≤ times n (live_of p)
            → IsPrefix (under n (popped_by actor)) (under n (put_by p))) (given_of callers) }
        ensures fronts { (n : ℕ) → IsPrefix (under n (popped_by actor)) (under n (puts_of (given_of callers))) }
        ensures left { result.left + length (popped_by actor) ≡ length (puts_of (given_of callers)) }
        ensures ended { (before : List Placed) (last : Placed) (n : ℕ) → popped_by actor ≡ before ++ last ∷ []
            → 1 ≤ times n last.ended → under n (popped_by actor) ≡ under n (puts_of (given_of callers)) }
        // The events.
        ensures taken { (taken_by taker ≡ raised_by actor) × (last_of taker ≡ ending_of actor) }
    {
        let ActorPass {
            mut commands,
            mut events,
            empties: _,
        } = actor;
        let CallerPasses { fresh: _, given } = callers;
        for pass in given {
            let CallerPass {
                commands: others,
                fulls: _,
            } = pass;
            self.commands.absorb::<TakeIn>(&mut commands, others);
        }
        let left = self.commands.len_as::<Total, R>(&rt, &mut commands);
        let TakerPass { events: others } = taker;
        self.events_in.absorb::<TwoEnds>(&mut events, others);
        self.events_in.learn_as::<AllTaken>(&mut events);
        Finished { left: left as u32 }
    }
}
