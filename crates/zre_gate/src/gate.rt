//! The command `gate`: the order in which the capture, the desk, the network and the threads are started.

ghost use Rattle.std.specs.Prelude.{◌≡◌, ◌≤◌, [], true, None, IfSome, IfOk, IfErr, OnOk};
ghost use Rattle.std.specs.Str.{is_utf8};
ghost use Rattle.zre_outside.specs.Causes.{Rose};
ghost use Rattle.zre_values.specs.Settings.{is_valid};
ghost use Rattle.zre_node.specs.Journal.{StandsFor};
ghost use Rattle.zre_commands.specs.declared.pump.status.Status.TheVariants.{WriteFault, WorldFault, DeskFault};
ghost use Rattle.zre_console.specs.Stages.{HasOpened, Unprepared};
ghost use Rattle.zre_console.specs.Statuses.{IsFirst, Yields};
ghost use Rattle.zre_gate.specs.Clients.{seen_client};
ghost use Rattle.zre_gate.specs.Gate.{HasGated, seen_without_clients};
ghost use Rattle.zre_gate.specs.Stages.{HasGiven, HasGivenAll};
ghost use Rattle.zre_gate.specs.Tables.{IsUnused};

use crate::arrivals::take_clients;
use crate::table::GateThreads;
use std::alloc::Global;
use std::marker::Brand;
use std::sync::Wait;
use std::thread::Threads;
use zre_commands::pump::Status;
use zre_console::entering::enter;
use zre_console::finishing::Ended;
use zre_console::keeping::begin;
use zre_console::places::NodeWork;
use zre_console::values::are_values;
use zre_journal::Config;
use zre_outside::{Desk, Failed, Recorder, Sink, Spawner, Start, World};
use zre_values::{Endpoint, Octets, OutOfMemory};

/// The arguments of the command `gate`.
#[derive(Drop)]
pub struct Gate {
    /// The node's settings.
    pub config: Config,
    /// How it goes on the network.
    pub start: Start,
    /// The name of the file for a capture, of format 2, of its journal; `None`: no capture is recorded.
    pub capture: Option<Octets>,
    /// The address and port at which clients connect.
    pub local: Endpoint,
    /// The number of clients, 1 to 14.
    pub clients: u8,
}

/// How a gate ended, what was handed in, as it was left, and the clients that the desk gave, in order.
#[derive(Drop)]
pub struct GateEnded<D: Desk, W, R> {
    pub status: Status,
    pub desk: D,
    pub clients: Vec<D::Client>,
    pub world: W,
    pub rec: R,
}

impl Gate {
    /// Begins the capture, if one is recorded, waits for all clients, and goes on the network. Then starts the node's
    /// thread, one for each client and the closer's, prints the node's events until it ends, and waits for all. At
    /// most `limit` octets are read of each client and `limit` turns of the world taken.
    pub fn run<D, W, O, R, P, T>(
        self,
        rt: T,
        alloc: Global,
        desk: D,
        world: W,
        out: &mut O,
        rec: R,
        spawner: &mut P,
        limit: u64,
    ) -> GateEnded<D, W, R>
    where
        D: Desk + Drop,
        W: World + Send + Drop + 'static,
        O: Sink,
        R: Recorder + Send + Drop + 'static,
        P: Spawner,
        T: Wait + Threads + Copy,
        // The settings and the name are valid, and there are one to fourteen clients.
        requires valid { is_valid self.config ≡ true }
        requires text { IfSome self.capture (λ name. is_utf8 name ≡ true) }
        requires client_count { (1 ≤ self.clients) × (self.clients ≤ 14) }
        // What was read, given, done, written and recorded, and the status.
        ensures gate { HasGated (seen_client D.Client.left D.Client.taken D.Client.faults D.Client.refused) self limit
            (D.told desk) (D.told result.desk)
            (seen_without_clients (W.told world) (W.faults world) (O.written out.old) (O.faults out.old)
            (R.kept rec) (R.named rec) (R.faults rec) (P.faults spawner.old))
            (seen_without_clients (W.told result.world) (W.faults result.world) (O.written out.new) (O.faults out.new)
            (R.kept result.rec) (R.named result.rec) (R.faults result.rec) (P.faults spawner.new))
            (Rose (D.faults desk) (D.faults result.desk)) result.clients.items result.status }
        // The status is the first of what occurred.
        ensures first { IsFirst result.status (O.refused out.new ≡ O.refused out.old)
            (R.refused result.rec ≡ R.refused rec) (W.refused result.world ≡ W.refused world)
            (P.faults spawner.new ≡ P.faults spawner.old)
            × Yields result.status DeskFault (D.refused result.desk ≡ D.refused desk) }
        // Without a capture the recorder comes back as it was; counts of faults never fall.
        ensures unrecorded { self.capture ≡ None → result.rec ≡ rec }
        ensures faults { (O.faults out.old ≤ O.faults out.new) × (P.faults spawner.old ≤ P.faults spawner.new) }
    {
        are_values(&self.config);
        let keep = self.capture.is_some();
        let (mut desk, mut world, mut rec) = (desk, world, rec);
        let mut clients = Vec::new(alloc);
        match self.prepare(alloc, &mut desk, &mut clients, &mut world, &mut rec) {
            Ok(table) => {
                let work = NodeWork {
                    world,
                    rec,
                    keep,
                    limit,
                };
                let served = table.serve::<W, O, R, P, T, Brand>(
                    rt, alloc, clients, work, out, spawner,
                );
                ended(desk, served)
            }
            Err(status) => GateEnded {
                status,
                desk,
                clients,
                world,
                rec,
            },
        }
    }

    // Begins the capture, if one is recorded, waits for the clients, goes on the network, and makes what the threads
    // need.
    fn prepare<D: Desk, W: World, R: Recorder>(
        self,
        alloc: Global,
        desk: &mut D,
        clients: &mut Vec<D::Client>,
        world: &mut W,
        rec: &mut R,
    ) -> Result<GateThreads<D::Client>, Status>
        // The settings and the name are valid, there are one to fourteen clients, and none has come.
        requires valid { is_valid self.config ≡ true }
        requires text { IfSome self.capture (λ name. is_utf8 name ≡ true) }
        requires client_count { (1 ≤ self.clients) × (self.clients ≤ 14) }
        requires none { clients.old.items ≡ [] }
        // The pipes are new, and so is the node.
        ensures unused { IfOk result (λ table. IsUnused self.clients table
            × StandsFor self.config [] table.base.node_args.node) }
        // The clients have come, the capture is begun and the world started.
        ensures given { HasGiven self.local (D.told desk.old) (D.told desk.new) clients.new.items }
        ensures all_given { OnOk result
            (HasGivenAll self.local self.clients (D.told desk.old) (D.told desk.new) clients.new.items) }
        ensures opened { OnOk result (HasOpened self.config self.start self.capture (R.begun rec.new)
            (W.told world.old) (W.told world.new) (R.kept rec.old) (R.kept rec.new)
            (R.named rec.old) (R.named rec.new)) }
        // Without a capture the recorder stays as it was; counts of faults never fall.
        ensures unrecorded { self.capture ≡ None → rec.new ≡ rec.old }
        ensures faults { (W.faults world.old ≤ W.faults world.new) × (R.faults rec.old ≤ R.faults rec.new) }
        // After an error: what was done before it, and which call failed.
        ensures refused { IfErr result (λ status. Unprepared self.config self.start self.capture status
            (W.told world.old) (W.told world.new) (R.kept rec.old) (R.kept rec.new) (R.named rec.old) (R.named rec.new)
            (Rose (D.faults desk.old) (D.faults desk.new)) (Rose (W.faults world.old) (W.faults world.new))
            (Rose (R.faults rec.old) (R.faults rec.new))) }
        // If the recorder, the world or the desk refused a call, the status says so, unless memory ran out.
        ensures counts { OnOk result ((R.refused rec.new ≡ R.refused rec.old)
            × (W.refused world.new ≡ W.refused world.old) × (D.refused desk.new ≡ D.refused desk.old)) }
        ensures first { IfErr result (λ status. Yields status WriteFault (R.refused rec.new ≡ R.refused rec.old)
            × Yields status WorldFault (W.refused world.new ≡ W.refused world.old)
            × Yields status DeskFault (D.refused desk.new ≡ D.refused desk.old)) }
    {
        let Gate {
            config,
            start,
            capture,
            local,
            clients: many,
        } = self;
        if clients.reserve(usize::from(many)).is_err() {
            return Err(Status::OutOfMemory);
        }
        begin(alloc, rec, &config, &capture)?;
        if let Err(Failed) = take_clients(desk, local, many, clients) {
            return Err(Status::DeskFault);
        }
        let base = enter(alloc, config, &start, world, many)?;
        match GateThreads::new(alloc, base, many) {
            Ok(table) => Ok(table),
            Err(OutOfMemory) => Err(Status::OutOfMemory),
        }
    }
}

// How a gate ended, with its desk.
fn ended<D: Desk, W, R>(desk: D, served: Ended<Vec<D::Client>, W, R>) -> GateEnded<D, W, R>
    ensures { result ≡ record {
      status = served.status;
      desk = desk;
      clients = served.input;
      world = served.world;
      rec = served.rec;
    } }
{
    GateEnded {
        status: served.status,
        desk,
        clients: served.input,
        world: served.world,
        rec: served.rec,
    }
}
