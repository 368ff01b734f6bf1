//! The end of the pipes.

ghost use Rattle.std.specs.Prelude.{◌≡◌, ◌≤◌, ℕ, List, [], ◌∷◌, ◌++◌, IsSome};
ghost use Rattle.std.specs.Arc.{arc_value};
ghost use mathlib.Core.List.{IsPrefix};
ghost use Rattle.zre_actor.specs.declared.views.Placed.{Placed};
ghost use Rattle.zre_actor.specs.Commands.{under, times};
ghost use Rattle.zre_actor.specs.Passes.{IsActorOf, IsCallerOf, IsTakerOf, AllBack, given_of, room_of, popped_by};
ghost use Rattle.zre_actor.specs.Passes.{puts_of, raised_by, taken_by, last_of};
ghost use Rattle.zre_console.specs.Statuses.{least, of_print, of_work, of_thread};

use crate::statuses::status_of;
use crate::talk::Talk;
use std::sync::Wait;
use zre_actor::{CallerPass, CallerPasses, Worked};
use zre_commands::pump::Status;

/// How a call ended, and what was handed in, as it was left.
#[derive(Debug, Drop)]
pub struct Ended<I, W, R> {
    pub status: Status,
    pub input: I,
    pub world: W,
    pub rec: R,
}

/// What is left of who reads.
#[derive(Drop)]
pub struct Read<I> {
    /// What was read, as it was left.
    pub input: I,
    /// The pass with all that was put.
    pub pass: CallerPass,
    /// What the end of the reading comes to.
    pub status: Status,
}

/// Gives both callers' passes back, ends the pipes, and says how all of it ended.
pub fn settle<I, W, R, T: Wait + Copy>(
    rt: T,
    mut callers: CallerPasses,
    talk: Talk<Read<I>>,
    worked: Worked<W, R>,
) -> Ended<I, W, R>
    // All passes are back, Last was taken, and there is room to absorb two.
    requires given { given_of callers ≡ [] }
    requires room { 2 ≤ room_of callers }
    requires pipes { IsActorOf (arc_value talk.pipes) worked.pass
        × IsTakerOf (arc_value talk.pipes) talk.printed.taker }
    requires callers { IsCallerOf (arc_value talk.pipes) talk.done.pass
        × IsCallerOf (arc_value talk.pipes) talk.printed.pass }
    requires back { AllBack worked.pass (talk.done.pass ∷ talk.printed.pass ∷ []) }
    requires last { IsSome (last_of talk.printed.taker) }
    // The status, and what comes back.
    ensures status { result.status ≡ least (talk.done.status ∷ of_print talk.printed.fault
        ∷ of_work worked.ending ∷ of_thread talk.refused ∷ []) }
    ensures same { (result.input ≡ talk.done.input) × (result.world ≡ worked.world) × (result.rec ≡ worked.rec) }
    // What was popped of each caller, and what was taken.
    ensures fronts { (n : ℕ)
        → IsPrefix (under n (popped_by worked.pass)) (under n (puts_of (talk.done.pass ∷ talk.printed.pass ∷ []))) }
    ensures ended { (before : List Placed) (end : Placed) (n : ℕ) → popped_by worked.pass ≡ before ++ end ∷ []
        → 1 ≤ times n end.ended
        → under n (popped_by worked.pass) ≡ under n (puts_of (talk.done.pass ∷ talk.printed.pass ∷ [])) }
    ensures taken { taken_by talk.printed.taker ≡ raised_by worked.pass }
{
    let Talk {
        pipes,
        done,
        printed,
        refused,
    } = talk;
    let status = status_of(done.status, printed.fault, worked.ending, refused);
    callers.give(done.pass);
    callers.give(printed.pass);
    pipes.finish(rt, worked.pass, callers, printed.taker);
    Ended {
        status,
        input: done.input,
        world: worked.world,
        rec: worked.rec,
    }
}
