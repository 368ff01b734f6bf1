//! The node's thread is started.

ghost use Rattle.std.specs.Prelude.{◌≡◌, ◌≤◌, true, None, IfOk, IfErr, OnOk, OnErr};
ghost use Rattle.std.specs.Arc.{arc_value};
ghost use Rattle.zre_outside.specs.Causes.{Rose};
ghost use Rattle.zre_outside.specs.Spawners.{job_of};
ghost use Rattle.zre_actor.specs.Passes.{IsActorOf, ending_of};
ghost use Rattle.zre_console.specs.Tables.{parts};

use crate::places::{NodeArgs, NodeWork};
use zre_actor::ActorJob;
use zre_outside::{Recorder, Refused, Running, Spawner, World};

/// Starts the node's thread, or hands the world and the recorder back.
pub fn start_node<W, R, P>(
    spawner: &mut P,
    node_args: NodeArgs,
    work: NodeWork<W, R>,
) -> Result<Running<ActorJob<W, R>>, (W, R)>
where
    W: World + Send + Drop + 'static,
    R: Recorder + Send + Drop + 'static,
    P: Spawner,
    // Nothing was done with the pass, and the capture is begun where one is kept.
    requires pipes { IsActorOf (arc_value node_args.pipes) node_args.pass }
    requires open { ending_of node_args.pass ≡ None }
    requires room { node_args.pass.empties ≡ 0 }
    requires begun { work.keep ≡ true → R.begun work.rec ≡ true }
    // What the thread is started with, or all of it back.
    ensures started { IfOk result (λ running. let j = job_of running in
        parts j.pipes j.world j.node j.pass j.rec j.keep j.limit
        ≡ parts node_args.pipes work.world node_args.node node_args.pass work.rec work.keep work.limit) }
    ensures refused { IfErr result (λ back. back ≡ (work.world, work.rec)) }
    // The spawner's count rises where the start is refused.
    ensures later { P.faults spawner.old ≤ P.faults spawner.new }
    ensures failed { OnErr result (Rose (P.faults spawner.old) (P.faults spawner.new)) }
    ensures counts { OnOk result (P.faults spawner.new ≡ P.faults spawner.old) }
{
    let job = ActorJob {
        pipes: node_args.pipes,
        world: work.world,
        node: node_args.node,
        pass: node_args.pass,
        rec: work.rec,
        keep: work.keep,
        limit: work.limit,
    };
    match spawner.start(job) {
        Ok(running) => Ok(running),
        Err(refused) => {
            let Refused { job } = refused;
            Err((job.world, job.rec))
        }
    }
}
