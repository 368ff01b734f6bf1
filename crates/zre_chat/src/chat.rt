//! The command `chat`: the order in which the capture, the network and the threads are started.

ghost use Rattle.std.specs.Prelude.{◌≡◌, ◌≢◌, ◌≤◌, [], true, None, IfSome, IfOk, IfErr, OnOk};
ghost use Rattle.std.specs.Str.{is_utf8};
ghost use Rattle.zre_outside.specs.Causes.{Rose};
ghost use Rattle.zre_values.specs.Settings.{is_valid};
ghost use Rattle.zre_node.specs.Journal.{StandsFor};
ghost use Rattle.zre_commands.specs.declared.pump.status.Status.TheVariants.{ReadFault, WriteFault, WorldFault};
ghost use Rattle.zre_console.specs.Stages.{HasOpened, Unprepared};
ghost use Rattle.zre_console.specs.Statuses.{Yields};
ghost use Rattle.zre_console.specs.Tables.{IsLaid, HasMore};
ghost use Rattle.zre_chat.specs.Outcome.{ChatOutcome};
ghost use Rattle.zre_chat.specs.Views.{handed, stream_views, views};

use crate::threads::ChatThreads;
use std::alloc::Global;
use std::sync::Wait;
use std::thread::Threads;
use zre_commands::pump::Status;
use zre_console::entering::enter;
use zre_console::finishing::Ended;
use zre_console::keeping::begin;
use zre_console::places::NodeWork;
use zre_console::table::Table;
use zre_console::values::are_values;
use zre_journal::Config;
use zre_outside::{Recorder, Sink, Source, Spawner, Start, World};
use zre_values::Octets;

/// The arguments of the command `chat`.
#[derive(Drop)]
pub struct Chat {
    /// The node's settings.
    pub config: Config,
    /// How it goes on the network.
    pub start: Start,
    /// The name of the file for a capture, of format 2, of its journal; `None`: no capture is recorded.
    pub capture: Option<Octets>,
}

impl Chat {
    /// Begins the capture, if one is recorded, and goes on the network. Then starts the node's thread and the
    /// reader's, prints the node's events until it ends, and waits for both threads. At most `limit` octets are read
    /// and `limit` turns of the world taken.
    pub fn run<I, W, O, R, P, T>(
        self,
        rt: T,
        alloc: Global,
        input: I,
        world: W,
        out: &mut O,
        rec: R,
        spawner: &mut P,
        limit: u64,
    ) -> Ended<I, W, R>
    where
        I: Source + Send + Drop + 'static,
        W: World + Send + Drop + 'static,
        O: Sink,
        R: Recorder + Send + Drop + 'static,
        P: Spawner,
        T: Wait + Threads + Copy,
        // The settings and the name are valid.
        requires valid { is_valid self.config ≡ true }
        requires text { IfSome self.capture (λ name. is_utf8 name ≡ true) }
        // What was read, given, done, written and recorded, and the status.
        ensures { ChatOutcome (views (stream_views I.left I.taken I.faults O.written O.faults) W.told W.faults
            R.kept R.named R.faults P.faults) self limit result.status (handed input world out.old rec spawner.old)
            (handed result.input result.world out.new result.rec spawner.new) (I.refused input)
            (I.refused result.input) (O.refused out.new ≡ O.refused out.old)
            (R.refused result.rec ≡ R.refused rec) (W.refused result.world ≡ W.refused world) }
    {
        are_values(&self.config);
        let keep = self.capture.is_some();
        let (mut world, mut rec) = (world, rec);
        match prepare(alloc, self, &mut world, &mut rec) {
            Ok(base) => {
                let work = node_work(world, rec, keep, limit);
                ChatThreads { base, input }.converse(rt, alloc, work, out, spawner)
            }
            Err(status) => unstarted(status, input, world, rec),
        }
    }
}

// What the node works with.
fn node_work<W, R>(world: W, rec: R, keep: bool, limit: u64) -> NodeWork<W, R>
    ensures { result ≡ record { world = world; rec = rec; keep = keep; limit = limit } }
{
    NodeWork {
        world,
        rec,
        keep,
        limit,
    }
}

// How a chat ended before its threads were started.
fn unstarted<I, W, R>(status: Status, input: I, world: W, rec: R) -> Ended<I, W, R>
    ensures { result ≡ record { status = status; input = input; world = world; rec = rec } }
{
    Ended {
        status,
        input,
        world,
        rec,
    }
}

// Begins the capture, if one is recorded, goes on the network, and makes what the threads need.
fn prepare<W: World, R: Recorder>(
    alloc: Global,
    chat: Chat,
    world: &mut W,
    rec: &mut R,
) -> Result<Table, Status>
    // The settings and the name are valid.
    requires valid { is_valid chat.config ≡ true }
    requires text { IfSome chat.capture (λ name. is_utf8 name ≡ true) }
    // The pipes are new, the node is new, the capture is begun and the world started.
    ensures unused { IfOk result (λ table. IsLaid 0 table × HasMore 0 table) }
    ensures node { IfOk result (λ table. StandsFor chat.config [] table.node_args.node) }
    ensures opened { OnOk result (HasOpened chat.config chat.start chat.capture (R.begun rec.new)
        (W.told world.old) (W.told world.new) (R.kept rec.old) (R.kept rec.new) (R.named rec.old) (R.named rec.new)) }
    // Without a capture the recorder stays as it was; counts of faults never fall.
    ensures unrecorded { chat.capture ≡ None → rec.new ≡ rec.old }
    ensures faults { (W.faults world.old ≤ W.faults world.new) × (R.faults rec.old ≤ R.faults rec.new) }
    // After an error: what was done before it, and which call failed.
    ensures refused { IfErr result (λ status. Unprepared chat.config chat.start chat.capture status
        (W.told world.old) (W.told world.new) (R.kept rec.old) (R.kept rec.new) (R.named rec.old) (R.named rec.new)
        ⊥ (Rose (W.faults world.old) (W.faults world.new)) (Rose (R.faults rec.old) (R.faults rec.new))) }
    // If the world or the recorder refused a call, the status says so, unless memory ran out.
    ensures counts { OnOk result ((W.refused world.new ≡ W.refused world.old)
        × (R.refused rec.new ≡ R.refused rec.old)) }
    ensures first { IfErr result (λ status. Yields status WorldFault (W.refused world.new ≡ W.refused world.old)
        × Yields status WriteFault (R.refused rec.new ≡ R.refused rec.old)) }
    ensures unread { IfErr result (λ status. status ≢ ReadFault) }
{
    let Chat {
        config,
        start,
        capture,
    } = chat;
    begin(alloc, rec, &config, &capture)?;
    enter(alloc, config, &start, world, 0)
}
