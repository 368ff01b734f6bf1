//! All that is made before the threads are started.

ghost use Rattle.std.specs.Prelude.{◌≡◌, ℕ, IfOk, map, length, All};
ghost use Rattle.std.specs.Arc.{arc_value};
ghost use Rattle.zre_actor.specs.Commands.{times};
ghost use Rattle.zre_actor.specs.Passes.{AreCallersOf, IsNew, fresh_of, given_of, room_of, numbers_of};
ghost use Rattle.zre_console.specs.Tables.{AreCallerArgs, IsLaid as IsBase, HasMore};
ghost use Rattle.zre_gate.specs.Tables.{IsUnused, caller_number};

use std::alloc::Global;
use std::collections::VecDeque;
use std::sync::Arc;
use std::sync::atomic::AtomicBool;
use zre_actor::{CallerPasses, Pipes};
use zre_console::places::{CallerArgs, caller_args};
use zre_console::table::Table as Base;
use zre_values::OutOfMemory;

/// What the threads of a gate start with: the pipes with their passes, what each client's thread puts commands with,
/// and a list with room for the clients.
#[derive(Drop)]
pub(crate) struct GateThreads<C> {
    pub base: Base,
    pub all_args: VecDeque<CallerArgs>,
    pub left: Vec<C>,
}

// What a thread puts commands with, for each pass that wasn't taken yet.
fn caller_args_for(
    alloc: Global,
    pipes: &Arc<Pipes, Global>,
    over: &Arc<AtomicBool, Global>,
    callers: &mut CallerPasses,
    many: u8,
) -> Result<VecDeque<CallerArgs>, OutOfMemory>
    // So many callers are new.
    requires many { length (fresh_of callers.old) ≡ many }
    requires pipes { AreCallersOf (arc_value pipes.now) (fresh_of callers.old) }
    requires new { All IsNew (fresh_of callers.old) }
    // Each has its place, under its own number.
    ensures all_args { IfOk result (λ all_args. All (AreCallerArgs (arc_value pipes.now)) all_args.items) }
    ensures many { IfOk result (λ all_args. length all_args.items ≡ many) }
    ensures numbers { (n : ℕ) → IfOk result (λ all_args. times n (map caller_number all_args.items)
        ≡ times n (numbers_of (fresh_of callers.old))) }
    // Nothing else changes.
    ensures given { (given_of callers.new ≡ given_of callers.old) × (room_of callers.new ≡ room_of callers.old) }
{
    let mut all_args = VecDeque::with_capacity(alloc, usize::from(many))?;
    'each: for _ in 0..many {
        let Some(pass) = callers.take() else {
            unreachable!();
        };
        all_args.push_back(caller_args(pipes, over, pass)?)?;
    }
    Ok(all_args)
}

impl<C: Drop> GateThreads<C> {
    /// Gives each of so many clients what its thread puts commands with.
    pub fn new(alloc: Global, mut base: Base, many: u8) -> Result<GateThreads<C>, OutOfMemory>
        // The pipes are new, with passes for the clients.
        requires unused { IsBase many base }
        requires more { HasMore many base }
        // Each client has its place; the node's is as it was.
        ensures unused { IfOk result (IsUnused many) }
        ensures node_args { IfOk result (λ t. t.base.node_args ≡ base.node_args) }
    {
        let left = Vec::with_capacity(alloc, usize::from(many))?;
        let all_args = caller_args_for(
            alloc,
            &base.others.printer.pipes,
            &base.others.printer.over,
            &mut base.others.callers,
            many,
        )?;
        Ok(GateThreads {
            base,
            all_args,
            left,
        })
    }
}
