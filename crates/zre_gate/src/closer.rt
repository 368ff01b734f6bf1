//! The work of the closer's thread.

ghost use Rattle.std.specs.Prelude.{◌≡◌, ◌≤◌, [], map, length, Option, vec_capacity};
ghost use Rattle.std.specs.Arc.{arc_value};
ghost use Rattle.zre_actor.specs.declared.passes.CallerPass.{CallerPass as CallerPassValue};
ghost use Rattle.zre_actor.specs.Passes.{IsCallerOf};
ghost use Rattle.zre_gate.specs.Clients.{seen_client};
ghost use Rattle.zre_gate.specs.Gathering.{IsClientList, IsFull, GathersAll, ClosesAll};
ghost use Rattle.zre_gate.specs.ClientLists.{ClientList};

use crate::client::Answer;
use crate::gate_name::GateName;
use crate::gathering::{GatheredClients, gather};
use crossbeam_channel::Receiver;
use std::alloc::Global;
use std::sync::atomic::AtomicBool;
use std::sync::{Arc, Wait};
use zre_actor::{CallerPass, Pipes};
use zre_console::finishing::Read;
use zre_console::reader::close;
use zre_console::talk::Excused;
use zre_outside::{Job, Source, Task};

/// Waits for all clients and absorbs their passes into its own. Then it puts a quit, again while the pipe is full,
/// unless a client ended because the gate was over. Once `over` is set it ends at its next try. What comes back has the
/// clients, as they were left, and the pass with all that was put under it and under those of the clients.
#[derive(Drop)]
pub struct CloserJob<C: Source, B: GateName> {
    /// Where the quit is put.
    pub pipes: Arc<Pipes, Global>,
    /// Whether nothing more is to be put.
    pub over: Arc<AtomicBool, Global>,
    /// The pass under which it is put.
    pub pass: CallerPass,
    /// Where the answers of the clients come from, in the order of their places.
    pub lines: Vec<Receiver<Answer<C, B>>>,
    /// Where the clients are kept that were waited for.
    pub clients: Vec<C>,
    ghost of_pipes: { IsCallerOf (arc_value pipes) pass },
    ghost client_list: { ∥ IsClientList B.client_list (arc_value pipes) ∥₁ },
    ghost many: { IsFull B.client_list (length lines.items) },
    ghost capacity: { (clients.items ≡ []) × (length lines.items ≤ vec_capacity clients) },
}

impl<C: Source + Send + Drop + 'static, B: GateName + Send + 'static> Task for CloserJob<C, B> {
    ghost use Rattle.std.specs.Prelude.{map};
    ghost use Rattle.std.specs.Arc.{arc_value};
    ghost use Rattle.zre_actor.specs.Passes.{IsCallerOf};
    ghost use Rattle.zre_gate.specs.Clients.{seen_client};
    ghost use Rattle.zre_gate.specs.Gathering.{ClosesAll};

    type Out = Read<Vec<C>>;

    ghost means = { λ job out. IsCallerOf (arc_value job.pipes) out.pass
        × ClosesAll B.client_list (map (seen_client C.left C.taken C.faults C.refused) out.input.items) job.pass
        out.pass out.status };
}

impl<T: Wait + Copy, C: Source + Send + Drop + 'static, B: GateName + Send + 'static> Job<T>
    for CloserJob<C, B> {
    fn run(self, rt: T) -> Read<Vec<C>> {
        let CloserJob {
            pipes,
            over,
            pass,
            lines,
            clients,
        } = self;
        let gathered = gather(rt, &pipes, pass, lines, clients);
        close_after(rt, &pipes, &over, gathered)
    }
}

// Puts a quit after all clients, unless one of them ended because the gate was over.
fn close_after<C, T>(
    rt: T,
    pipes: &Pipes,
    over: &AtomicBool,
    gathered: GatheredClients<C>,
) -> Read<Vec<C>>
where
    C: Source + Drop,
    T: Wait + Copy,
    requires pipes { IsCallerOf pipes.now gathered.pass }
    ensures pipes { IsCallerOf pipes.now result.pass }
    ensures closes { (client_list : Option ClientList) (first : CallerPassValue)
        → GathersAll client_list (map (seen_client C.left C.taken C.faults C.refused) gathered.clients.items) first
        gathered.pass gathered.status gathered.over
        → ClosesAll client_list (map (seen_client C.left C.taken C.faults C.refused) result.input.items) first
        result.pass result.status }
{
    let GatheredClients {
        clients,
        pass,
        status,
        over: was_over,
    } = gathered;
    if was_over {
        return Read {
            input: clients,
            pass,
            status,
        };
    }
    Read {
        input: clients,
        pass: close(rt, pipes, over, pass),
        status,
    }
}

// What comes back of a closer that wasn't started: the clients are waited for here, and no quit is put.
impl<R: Wait + Copy, C: Source + Send + Drop + 'static, B: GateName + Send + 'static> Excused<R>
    for CloserJob<C, B> {
    fn excuse<T: Wait + Copy>(self, rt: T) -> Read<Vec<C>> {
        let CloserJob {
            pipes,
            over: _,
            pass,
            lines,
            clients,
        } = self;
        let GatheredClients {
            clients,
            pass,
            status,
            over: _,
        } = gather(rt, &pipes, pass, lines, clients);
        Read {
            input: clients,
            pass,
            status,
        }
    }
}
