//! The pipes are made.
ghost use Rattle.std.specs.Prelude.{◌≡◌, ◌≤◌, ◌<◌, ◌+◌, ◌-◌, true, [], length, IfOk, OnOk, None, All};
ghost use Rattle.crossbeam_queue.specs.Passes.{view, IsPassOf, IsSamePass};
ghost use Rattle.zre_actor.specs.Passes.{IsCallerOf, IsActorOf, IsTakerOf, AreCallersOf, numbers_of, fresh_of};
ghost use Rattle.zre_actor.specs.Passes.{given_of, room_of, IsNew, popped_by, unused_by, raised_by, ending_of};
ghost use Rattle.zre_actor.specs.Passes.{taken_by, last_of};
ghost use Rattle.zre_actor.specs.Commands.{view as known, first, row, without_one, one_caller};

use super::{ActorPass, CallerPass, CallerPasses, Made, Pipes, TakerPass};
use crate::Told;
use crate::rules::{CommandQueue, EventsInOrder, SplitOff, TwoEnds};
use crate::views::{CommandView, EventView};
use crossbeam_channel::bounded_with;
use crossbeam_queue::Pass;
use std::alloc::Global;
use zre_outside::Command;
use zre_values::OutOfMemory;

// How many commands, or events, a pipe holds.
const ROOM: usize = 1024;

impl Pipes {
    /// The pipes, and the passes of the actor, of the callers and of the taker.
    pub fn make(alloc: Global, callers: u8) -> Result<Made, OutOfMemory>
        // There are callers, and not too many.
        requires { (1 ≤ callers) × (callers ≤ 16) }
        // Whose the passes are.
        ensures pipes { IfOk result (λ m. IsActorOf m.pipes m.actor × IsTakerOf m.pipes m.taker
            × AreCallersOf m.pipes (fresh_of m.callers)) }
        ensures numbers { IfOk result (λ m. numbers_of (fresh_of m.callers) ≡ row 1 callers) }
        // Nothing went through the pipes yet.
        ensures new { IfOk result (λ m. All IsNew (fresh_of m.callers)) }
        ensures unused { IfOk result (λ m. length (unused_by m.actor) + callers ≡ 16) }
        ensures given { IfOk result (λ m. (given_of m.callers ≡ []) × (callers ≤ room_of m.callers)) }
        ensures popped { IfOk result (λ m. (popped_by m.actor ≡ []) × (m.actor.empties ≡ 0)) }
        ensures events { IfOk result (λ m. (raised_by m.actor ≡ []) × (ending_of m.actor ≡ None)
            × (taken_by m.taker ≡ []) × (last_of m.taker ≡ None)) }
    {
        let (commands, mut actor) = CommandQueue::ruled(alloc, ROOM)?;
        let Ok(callers) = new_callers(alloc, callers, &commands, &mut actor) else {
            drop(actor);
            drop(commands);
            return Err(OutOfMemory);
        };
        let Ok((events_in, events_out, mut events)) = bounded_with::<
            Told,
            EventView,
            EventsInOrder,
            Global,
        >(alloc, ROOM) else {
            drop(callers);
            drop(actor);
            drop(commands);
            return Err(OutOfMemory);
        };
        let taker = events_in.another::<TwoEnds>(&mut events);
        Ok(Made {
            pipes: Pipes {
                alloc,
                commands,
                events_in,
                events_out,
            },
            actor: ActorPass {
                commands: actor,
                events,
                empties: 0,
            },
            callers,
            taker: TakerPass { events: taker },
        })
    }
}

// So many callers, with the first numbers.
fn new_callers(
    alloc: Global,
    count: u8,
    commands: &CommandQueue,
    actor: &mut Pass<Command, CommandView>,
) -> Result<CallerPasses, OutOfMemory>
    // What a caller knows.
    requires few { count ≤ 16 }
    requires queue { IsPassOf commands.now actor.old }
    requires first { view actor.old ≡ first }
    // Whose the passes are.
    ensures queue { OnOk result (IsPassOf commands.now actor.new) }
    ensures actor { OnOk result (view actor.new ≡ known true [] [] [] (row (1 + count) (16 - count)) []) }
    ensures callers { IfOk result (λ c. All (λ p. IsPassOf commands.now p.commands) (fresh_of c)) }
    // Their numbers, and that nothing was put under them.
    ensures numbers { IfOk result (λ c. numbers_of (fresh_of c) ≡ row 1 count) }
    ensures new { IfOk result (λ c. All IsNew (fresh_of c)) }
    ensures given { IfOk result (λ c. (given_of c ≡ []) × (count ≤ room_of c)) }
{
    let mut fresh = Vec::with_capacity(alloc, usize::from(count))?;
    let Ok(given) = Vec::with_capacity(alloc, usize::from(count)) else {
        drop(fresh);
        return Err(OutOfMemory);
    };
    for number in 0..count {
        prove!(number < 16);
        fresh.push_reserved(new_caller(commands, actor));
    }
    Ok(CallerPasses { fresh, given })
}

// A caller with the first unused number.
fn new_caller(commands: &CommandQueue, actor: &mut Pass<Command, CommandView>) -> CallerPass
    // What a caller knows.
    requires queue { IsPassOf commands.now actor.old }
    requires unused { 1 ≤ length (view actor.old).unused }
    // Whose the pass is.
    ensures queue { IsSamePass actor.old actor.new × IsPassOf commands.now result.commands }
    ensures actor { view actor.new ≡ without_one (view actor.old) }
    ensures caller { view result.commands ≡ one_caller (view actor.old) }
    ensures fulls { result.fulls ≡ 0 }
{
    let caller = commands.another::<SplitOff>(actor);
    CallerPass {
        commands: caller,
        fulls: 0,
    }
}
