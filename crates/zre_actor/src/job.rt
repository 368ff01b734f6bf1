//! The actor's work, for a thread of its own.

ghost use Rattle.std.specs.Prelude.{◌≡◌, ◌<◌, ◌+◌, ◌^◌, true, None};
ghost use Rattle.std.specs.Arc.{arc_value};
ghost use Rattle.zre_actor.specs.Passes.{IsActorOf, ending_of};

use crate::{ActorPass, Pipes, Worked};
use std::alloc::Global;
use std::sync::{Arc, Wait};
use zre_node::Node;
use zre_outside::{Job, Recorder, Task, World};

/// The work of [`Pipes::work`] as a job, with the pipes shared. The fields are its arguments.
#[derive(Drop)]
pub struct ActorJob<W: World, R: Recorder> {
    pub pipes: Arc<Pipes, Global>,
    pub world: W,
    pub node: Node,
    pub pass: ActorPass,
    pub rec: R,
    pub keep: bool,
    pub limit: u64,
    ghost of_pipes: { IsActorOf (arc_value pipes) pass },
    ghost open: { ending_of pass ≡ None },
    ghost begun: { keep ≡ true → R.begun rec ≡ true },
    ghost room: { pass.empties + limit < 2 ^ 64 },
}

impl<W: World + Send + Drop + 'static, R: Recorder + Send + Drop + 'static> Task
    for ActorJob<W, R> {
    ghost use Rattle.std.specs.Prelude.{◌≡◌, List, false, Some};
    ghost use Rattle.std.specs.Arc.{arc_value};
    ghost use Rattle.std.specs.Io.KnownBytes.{Keeps};
    ghost use Rattle.zre_outside.specs.declared.entry.Entry.{Entry};
    ghost use Rattle.zre_outside.specs.Refusals.{refused_after};
    ghost use Rattle.zre_values.specs.declared.settings.Settings.{Settings as Config};
    ghost use Rattle.zre_node.specs.Journal.{StandsFor};
    ghost use Rattle.zre_actor.specs.Passes.{IsActorOf, unused_by, ending_of};
    ghost use Rattle.zre_actor.specs.Work.{IsWork, scene, is_world_fault, is_record_fault};

    type Out = Worked<W, R>;

    ghost means = { λ job out. IsActorOf (arc_value job.pipes) out.pass × (unused_by out.pass ≡ unused_by job.pass)
        × (ending_of out.pass ≡ Some out.ending)
        × (job.keep ≡ false → out.rec ≡ job.rec)
        × (R.begun out.rec ≡ R.begun job.rec)
        × Keeps (R.named job.rec) (R.named out.rec)
        × ((g : Config) (K : List Entry) → StandsFor g K job.node → IsWork g K job.keep job.limit
        (scene (W.told job.world) (W.looked job.world) (W.faults job.world)
        (R.kept job.rec) (R.faults job.rec) job.pass)
        (scene (W.told out.world) (W.looked out.world) (W.faults out.world)
        (R.kept out.rec) (R.faults out.rec) out.pass)
        out.node out.ending)
        × (W.refused out.world ≡ refused_after (is_world_fault out.ending) (W.refused job.world))
        × (R.refused out.rec ≡ refused_after (is_record_fault out.ending) (R.refused job.rec)) };
}

impl<T: Wait + Copy, W: World + Send + Drop + 'static, R: Recorder + Send + Drop + 'static> Job<T>
    for ActorJob<W, R> {
    fn run(self, rt: T) -> Worked<W, R> {
        let ActorJob {
            pipes,
            world,
            node,
            pass,
            rec,
            keep,
            limit,
        } = self;
        pipes.work(rt, world, node, pass, rec, keep, limit)
    }
}
