//! What each thread is given.

ghost use Rattle.std.specs.Prelude.{◌≡◌, ◌≤◌, [], ◌∷◌, ◌++◌, length, All, IfOk};
ghost use Rattle.std.specs.Arc.{arc_value};
ghost use Rattle.zre_actor.specs.declared.passes.Pipes.{Pipes as PipesValue};
ghost use Rattle.zre_actor.specs.Passes.{AreCallersOf, IsCallerOf, IsNew, fresh_of, given_of, room_of};

use std::alloc::Global;
use std::sync::Arc;
use std::sync::atomic::AtomicBool;
use zre_actor::{ActorPass, CallerPass, CallerPasses, Pipes, TakerPass};
use zre_node::Node;
use zre_values::OutOfMemory;

/// What the node's thread is given beside the world and the recorder.
#[derive(Drop)]
pub struct NodeArgs {
    /// Where it pops commands, and raises events.
    pub pipes: Arc<Pipes, Global>,
    /// The node, before any entry.
    pub node: Node,
    /// By which it pops and raises.
    pub pass: ActorPass,
}

/// What the node works with, and how far.
#[derive(Drop)]
pub struct NodeWork<W, R> {
    /// Where its turns come from and its acts go to.
    pub world: W,
    /// Where its entries are kept.
    pub rec: R,
    /// Whether they are kept.
    pub keep: bool,
    /// The most turns of the world, and the most octets that are read of an input.
    pub limit: u64,
}

/// The pipes for the caller's own thread and for the node's, and the sign that nothing more is to be put.
#[derive(Drop)]
pub struct Shares {
    /// Of the caller's own thread.
    pub pipes: Arc<Pipes, Global>,
    /// Of the node's thread.
    pub pipes_of_node: Arc<Pipes, Global>,
    /// Whether nothing more is to be put: not yet.
    pub over: Arc<AtomicBool, Global>,
}

/// Shares the pipes.
pub fn share(alloc: Global, pipes: Pipes) -> Result<Shares, OutOfMemory>
    ensures { IfOk result (λ shares. (arc_value shares.pipes ≡ pipes) × (arc_value shares.pipes_of_node ≡ pipes)) }
{
    let pipes = Arc::new(alloc, pipes)?;
    let pipes_of_node = Arc::try_clone(&pipes)?;
    let over = Arc::new(alloc, AtomicBool::new(false))?;
    Ok(Shares {
        pipes,
        pipes_of_node,
        over,
    })
}

/// What a thread that puts commands is given.
#[derive(Drop)]
pub struct CallerArgs {
    /// Where it puts commands.
    pub pipes: Arc<Pipes, Global>,
    /// Whether nothing more is to be put.
    pub over: Arc<AtomicBool, Global>,
    /// By which it puts, under a number of its own.
    pub pass: CallerPass,
}

/// What a thread is given that puts commands under this pass: shares of the pipes and of the sign. OutOfMemory comes
/// where no further share can be made.
pub fn caller_args(
    pipes: &Arc<Pipes, Global>,
    over: &Arc<AtomicBool, Global>,
    pass: CallerPass,
) -> Result<CallerArgs, OutOfMemory>
    ensures pipes { IfOk result (λ args. arc_value args.pipes ≡ arc_value pipes.now) }
    ensures pass { IfOk result (λ args. args.pass ≡ pass) }
{
    Ok(CallerArgs {
        pipes: Arc::try_clone(pipes)?,
        over: Arc::try_clone(over)?,
        pass,
    })
}

/// Two of the passes that weren't taken yet: of who puts last, and of who asks the node to stop.
pub fn take_two(callers: &mut CallerPasses) -> (CallerPass, CallerPass)
    // Two are left.
    requires { 2 ≤ length (fresh_of callers.old) }
    // The last two are taken, new and of the same pipes.
    ensures taken { fresh_of callers.old ≡ (fresh_of callers.new ++ result.1 ∷ []) ++ result.0 ∷ [] }
    ensures pipes { (pipes : PipesValue) → AreCallersOf pipes (fresh_of callers.old)
        → AreCallersOf pipes (fresh_of callers.new) × IsCallerOf pipes result.0 × IsCallerOf pipes result.1 }
    ensures new { All IsNew (fresh_of callers.old)
        → All IsNew (fresh_of callers.new) × IsNew result.0 × IsNew result.1 }
    // Nothing else changes.
    ensures given { (given_of callers.new ≡ given_of callers.old) × (room_of callers.new ≡ room_of callers.old) }
{
    let Some(last) = callers.take() else {
        unreachable!();
    };
    let Some(asker) = callers.take() else {
        unreachable!();
    };
    (last, asker)
}

/// What the caller's own thread is given: it prints, and asks the node to stop where it has to.
#[derive(Drop)]
pub struct PrinterArgs {
    /// Where it takes events, and puts a quit.
    pub pipes: Arc<Pipes, Global>,
    /// Whether nothing more is to be put.
    pub over: Arc<AtomicBool, Global>,
    /// By which it asks the node to stop, under a number of its own.
    pub asker: CallerPass,
    /// By which it takes events.
    pub taker: TakerPass,
}
