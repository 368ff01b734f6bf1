//! The second top call, `gate`: a node that several local programs share.

ghost use Rattle.std.specs.Prelude.{◌≡◌, ◌≤◌, [], None, Some, option_and_then};
ghost use Rattle.zre_outside.specs.Causes.{Rose};
ghost use Rattle.zre_console.specs.Statuses.{IsFirst, Yields};
ghost use Rattle.zre_commands.specs.declared.pump.status.Status.TheVariants.{DeskFault};
ghost use Rattle.zre_gate.specs.Clients.{seen_client};
ghost use Rattle.zre_gate.specs.Gate.{seen_without_clients};
ghost use Rattle.zre_app.specs.Complete.{CompletesGate};
ghost use Rattle.zre_app.specs.DoesGate.{DoesGate};
ghost use Rattle.zre_app.specs.GateWords.{gate_of};

use crate::gate_words::gate_of;
use crate::plain_commands::usage;
use std::alloc::Global;
use std::sync::Wait;
use std::thread::Threads;
use zre_commands::pump::Status;
use zre_gate::GateEnded;
use zre_outside::{Desk, Recorder, Sink, Spawner, World};
use zre_values::{Frames, OutOfMemory};

/// Is a node with the settings of the words, which are those of `chat` and two more, and serves the clients that come
/// to the desk. Reads at most `limit` octets of each client, and takes at most as many turns of the world. What is
/// handed in comes back as it was left.
pub fn gate<T, D, W, O, R, P>(
    rt: T,
    alloc: Global,
    words: &Frames,
    desk: D,
    world: W,
    out: &mut O,
    rec: R,
    spawner: &mut P,
    limit: u64,
) -> GateEnded<D, W, R>
where
    T: Wait + Threads + Copy,
    D: Desk + Drop,
    W: World + Send + Drop + 'static,
    O: Sink,
    R: Recorder + Send + Drop + 'static,
    P: Spawner,
    ensures does { DoesGate (seen_client D.Client.left D.Client.taken D.Client.faults D.Client.refused)
        (gate_of words.now) limit result.status
        (D.told desk) (D.told result.desk)
        (seen_without_clients (W.told world) (W.faults world) (O.written out.old) (O.faults out.old)
        (R.kept rec) (R.named rec) (R.faults rec) (P.faults spawner.old))
        (seen_without_clients (W.told result.world) (W.faults result.world) (O.written out.new) (O.faults out.new)
        (R.kept result.rec) (R.named result.rec) (R.faults result.rec) (P.faults spawner.new))
        (Rose (D.faults desk) (D.faults result.desk)) result.clients.items }
    // Where what is handed in tells the calls that it refused, the status is the first of what occurred.
    ensures first { IsFirst result.status (O.refused out.new ≡ O.refused out.old)
        (R.refused result.rec ≡ R.refused rec) (W.refused result.world ≡ W.refused world)
        (P.faults spawner.new ≡ P.faults spawner.old)
        × Yields result.status DeskFault (D.refused result.desk ≡ D.refused desk) }
    // Where nothing but clients fails, all is done, or memory ran out.
    ensures complete { CompletesGate (gate_of words.now) limit result.status
        (seen_without_clients (W.told world) (W.faults world) (O.written out.old) (O.faults out.old)
        (R.kept rec) (R.named rec) (R.faults rec) (P.faults spawner.old))
        (seen_without_clients (W.told result.world) (W.faults result.world) (O.written out.new) (O.faults out.new)
        (R.kept result.rec) (R.named result.rec) (R.faults result.rec) (P.faults spawner.new))
        (Rose (D.faults desk) (D.faults result.desk)) }
    // Where the words are no gate, what isn't used comes back as it was handed in.
    ensures unused { gate_of words.now ≡ None → (result.desk ≡ desk) × (result.clients.items ≡ [])
        × (result.world ≡ world) × (result.rec ≡ rec) × (P.faults spawner.new ≡ P.faults spawner.old) }
    ensures unrecorded { option_and_then (λ g. g.capture) (gate_of words.now) ≡ None → result.rec ≡ rec }
    ensures faults { (O.faults out.old ≤ O.faults out.new) × (P.faults spawner.old ≤ P.faults spawner.new) }
{
    match gate_of(alloc, words) {
        Ok(Some(asked)) => asked.run(rt, alloc, desk, world, out, rec, spawner, limit),
        Ok(None) => GateEnded {
            status: usage(out),
            desk,
            clients: Vec::new(alloc),
            world,
            rec,
        },
        Err(OutOfMemory) => GateEnded {
            status: Status::OutOfMemory,
            desk,
            clients: Vec::new(alloc),
            world,
            rec,
        },
    }
}
