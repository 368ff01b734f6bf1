//! The threads of a gate.

ghost use Rattle.std.specs.Prelude.{◌≡◌, ◌≤◌, ◌<◌, ◌⊎◌, ◌+◌, ℕ, List, [], Option, Some, true, false};
ghost use Rattle.std.specs.Prelude.{All, IfOk, map, length, vec_len, vec_capacity};
ghost use Rattle.std.specs.Arc.{arc_value};
ghost use Rattle.zre_outside.specs.declared.start.Start.{Start as StartValue};
ghost use Rattle.zre_outside.specs.Causes.{Rose};
ghost use Rattle.zre_values.specs.declared.settings.Settings.{Settings as ConfigValue};
ghost use Rattle.zre_node.specs.Journal.{StandsFor};
ghost use Rattle.zre_actor.specs.declared.passes.Pipes.{Pipes as PipesValue};
ghost use Rattle.zre_commands.specs.declared.pump.status.Status.TheVariants.{NoThread};
ghost use Rattle.zre_console.specs.Lived.{Seen};
ghost use Rattle.zre_console.specs.Stages.{Prepared};
ghost use Rattle.zre_console.specs.Statuses.{IsFirst};
ghost use Rattle.zre_console.specs.Tables.{AreCallerArgs};
ghost use Rattle.zre_gate.specs.Clients.{seen_client};
ghost use Rattle.zre_gate.specs.Gate.{IsGate, seen_without_clients};
ghost use Rattle.zre_gate.specs.ClientLists.{client_list_of};
ghost use Rattle.zre_gate.specs.Tables.{IsUnused, caller_number};

use crate::client::{Answer, ClientJob};
use crate::closer::CloserJob;
use crate::gate_name::GateName;
use crate::table::GateThreads;
use crossbeam_channel::{Receiver, Sender, bounded};
use std::alloc::Global;
use std::collections::VecDeque;
use std::sync::Wait;
use std::thread::Threads;
use zre_commands::pump::Status;
use zre_console::finishing::{Ended, settle};
use zre_console::places::{CallerArgs, NodeWork};
use zre_console::reader::ReaderJob;
use zre_console::starting::start_node;
use zre_console::table::Table as Base;
use zre_console::talk::{Excused, start};
use zre_outside::{Recorder, Running, Sink, Source, Spawner, Task, World};
use zre_values::OutOfMemory;

// The ends of a channel for each client.
#[derive(Drop)]
struct AnswerLines<C: Source, B: GateName> {
    ins: VecDeque<Sender<Answer<C, B>>>,
    outs: Vec<Receiver<Answer<C, B>>>,
}

impl<C: Source + Send + Drop + 'static, B: GateName + Send + 'static> AnswerLines<C, B> {
    // A channel with room for one answer for each of so many clients.
    fn new(alloc: Global, many: u64) -> Result<Self, OutOfMemory>
        ensures { IfOk result (λ lines. (length lines.ins.items ≡ many) × (length lines.outs.items ≡ many)) }
    {
        let mut ins = VecDeque::new(alloc);
        let mut outs = Vec::new(alloc);
        'each: for _ in 0..many {
            let (sender, receiver) = bounded::<Answer<C, B>, Global>(alloc, 1)?;
            ins.push_back(sender)?;
            outs.push(receiver)?;
        }
        Ok(AnswerLines { ins, outs })
    }
}

// The clients' threads, and whether one was refused.
#[derive(Drop)]
struct ClientThreads<J: Task> {
    running: Vec<Running<J>>,
    refused: bool,
}

// Starts a client's thread, unless one was refused before: then it is excused. Says whether one was refused by now.
fn start_client<C, B, P, T>(
    rt: T,
    job: ClientJob<C, B>,
    client_threads: &mut ClientThreads<ClientJob<C, B>>,
    spawner: &mut P,
)
where
    C: Source + Send + Drop + 'static,
    B: GateName + Send + 'static,
    P: Spawner,
    T: Wait + Copy,
    // There is room for one more.
    requires capacity { vec_len client_threads.old.running < vec_capacity client_threads.old.running }
    ensures capacity { (vec_len client_threads.new.running ≤ vec_len client_threads.old.running + 1)
        × (vec_capacity client_threads.new.running ≡ vec_capacity client_threads.old.running) }
    // Whether a start was refused; the spawner's count rises then.
    ensures refused { client_threads.new.refused ≡ true
        → (client_threads.old.refused ≡ true) ⊎ Rose (P.faults spawner.old) (P.faults spawner.new) }
    ensures counts { client_threads.new.refused ≡ false
        → (client_threads.old.refused ≡ false) × (P.faults spawner.new ≡ P.faults spawner.old) }
    ensures faults { P.faults spawner.old ≤ P.faults spawner.new }
{
    match start(spawner, job, client_threads.refused) {
        Ok(running) => client_threads.running.push_reserved(running),
        Err(job) => {
            client_threads.refused = true;
            Excused::<P::Runtime>::excuse(job, rt);
        }
    }
}

// What the threads of the clients are given, in the order of the clients.
#[derive(Drop)]
struct ClientStarts<C: Source, B: GateName> {
    // What each puts its commands with.
    all_args: VecDeque<CallerArgs>,
    // Where the answer of each goes to.
    ins: VecDeque<Sender<Answer<C, B>>>,
    // The most octets that are read of each.
    limit: u64,
}

impl<C: Source + Send + Drop + 'static, B: GateName + Send + 'static> ClientStarts<C, B> {
    // Starts a thread for each client, in order, until one is refused.
    fn start_clients<P, T>(
        mut self,
        rt: T,
        alloc: Global,
        clients: Vec<C>,
        running: Vec<Running<ClientJob<C, B>>>,
        spawner: &mut P,
    ) -> ClientThreads<ClientJob<C, B>>
    where
        P: Spawner,
        T: Wait + Copy,
        // Each client has its place and its pass, and there is room for all.
        requires many { (length self.all_args.items ≡ length clients.items)
            × (length self.ins.items ≡ length clients.items) }
        requires capacity { (running.items ≡ []) × (length clients.items ≤ vec_capacity running) }
        requires client_list { (pipes : PipesValue) × All (AreCallerArgs pipes) self.all_args.items
            × (B.client_list ≡ Some (client_list_of pipes self.limit (map caller_number self.all_args.items)
            (map (seen_client C.left C.taken C.faults C.refused) clients.items))) }
        // Whether a start was refused; the spawner's count rises then.
        ensures refused { result.refused ≡ true → Rose (P.faults spawner.old) (P.faults spawner.new) }
        ensures counts { result.refused ≡ false → P.faults spawner.new ≡ P.faults spawner.old }
        ensures faults { P.faults spawner.old ≤ P.faults spawner.new }
    {
        let mut client_threads = ClientThreads {
            running,
            refused: false,
        };
        let limit = self.limit;
        let mut place: u64 = 0;
        for input in clients {
            let Some(caller) = self.all_args.pop_front() else {
                unreachable!();
            };
            let Some(line) = self.ins.pop_front() else {
                unreachable!();
            };
            let reading = ReaderJob {
                alloc,
                pipes: caller.pipes,
                over: caller.over,
                pass: caller.pass,
                input,
                limit,
            };
            let job = ClientJob {
                reading,
                place,
                line,
            };
            start_client(rt, job, &mut client_threads, spawner);
            place += 1;
        }
        client_threads
    }
}

// Waits for threads whose answers came by another way.
fn join_all<J: Task, T: Threads + Copy>(rt: T, running: Vec<Running<J>>) {
    for thread in running {
        thread.join(rt);
    }
}

// How a gate ended whose node got no thread.
fn without_thread<C, W, R>(clients: Vec<C>, world: W, rec: R) -> Ended<Vec<C>, W, R>
    ensures { result ≡ record { status = NoThread; input = clients; world = world; rec = rec } }
{
    Ended {
        status: Status::NoThread,
        input: clients,
        world,
        rec,
    }
}

impl<C: Source + Send + Drop + 'static> GateThreads<C> {
    /// Starts the node's thread, one for each client and the closer's, prints, and waits for all of them.
    pub(crate) fn serve<W, O, R, P, T, B>(
        self,
        rt: T,
        alloc: Global,
        clients: Vec<C>,
        work: NodeWork<W, R>,
        out: &mut O,
        spawner: &mut P,
    ) -> Ended<Vec<C>, W, R>
    where
        W: World + Send + Drop + 'static,
        O: Sink,
        R: Recorder + Send + Drop + 'static,
        P: Spawner,
        T: Wait + Threads + Copy,
        B: GateName + Send + 'static,
        // The pipes are new, and the capture is begun if one is recorded.
        requires unused { IsUnused (length clients.items) self }
        requires begun { work.keep ≡ true → R.begun work.rec ≡ true }
        requires client_list { B.client_list ≡ Some (client_list_of (arc_value self.base.others.printer.pipes)
            work.limit (map caller_number self.all_args.items)
            (map (seen_client C.left C.taken C.faults C.refused) clients.items)) }
        // What was read, given, done, written and recorded, and the status.
        ensures gate { (g : ConfigValue) (start : StartValue) (name : Option (List ℕ)) (s : Seen) (before after : ℕ)
            → StandsFor g [] self.base.node_args.node →
            Prepared g start name work.keep s (seen_without_clients (W.told work.world) (W.faults work.world)
            (O.written out.old) (O.faults out.old) (R.kept work.rec) (R.named work.rec) (R.faults work.rec)
            (P.faults spawner.old)) →
            IsGate g start name work.limit (length clients.items) s
            (seen_without_clients (W.told result.world) (W.faults result.world) (O.written out.new) (O.faults out.new)
            (R.kept result.rec) (R.named result.rec) (R.faults result.rec) (P.faults spawner.new))
            (Rose before after) (map (seen_client C.left C.taken C.faults C.refused) clients.items)
            (map (seen_client C.left C.taken C.faults C.refused) result.input.items) result.status }
        // The status is the first of what occurred.
        ensures first { IsFirst result.status (O.refused out.new ≡ O.refused out.old)
            (R.refused result.rec ≡ R.refused work.rec) (W.refused result.world ≡ W.refused work.world)
            (P.faults spawner.new ≡ P.faults spawner.old) }
        // Without a capture the recorder comes back as it was; counts of faults never fall.
        ensures unrecorded { work.keep ≡ false → result.rec ≡ work.rec }
        ensures faults { (O.faults out.old ≤ O.faults out.new) × (P.faults spawner.old ≤ P.faults spawner.new) }
    {
        let Ok(room) = room_for::<C, B>(alloc, clients.len() as u64) else {
            return Ended {
                status: Status::OutOfMemory,
                input: clients,
                world: work.world,
                rec: work.rec,
            };
        };
        let GateThreads {
            base,
            all_args,
            left,
        } = self;
        let Base { node_args, others } = base;
        let limit = work.limit;
        let working = match start_node(spawner, node_args, work) {
            Ok(working) => working,
            Err((world, rec)) => return without_thread(clients, world, rec),
        };
        let (AnswerLines { ins, outs }, running) = room;
        let client_starts = ClientStarts {
            all_args,
            ins,
            limit,
        };
        let client_threads = client_starts.start_clients(rt, alloc, clients, running, spawner);
        let job = CloserJob {
            pipes: others.last.pipes,
            over: others.last.over,
            pass: others.last.pass,
            lines: outs,
            clients: left,
        };
        let talk = others
            .printer
            .hold_talk(rt, alloc, job, client_threads.refused, out, spawner);
        join_all(rt, client_threads.running);
        let worked = working.join(rt);
        settle(rt, others.callers, talk, worked)
    }
}

// The channels of so many clients, and room for their threads.
fn room_for<C, B>(
    alloc: Global,
    many: u64,
) -> Result<(AnswerLines<C, B>, Vec<Running<ClientJob<C, B>>>), OutOfMemory>
where
    C: Source + Send + Drop + 'static,
    B: GateName + Send + 'static,
    ensures lines { IfOk result (λ room. (length room.0.ins.items ≡ many) × (length room.0.outs.items ≡ many)) }
    ensures threads { IfOk result (λ room. (room.1.items ≡ []) × (many ≤ vec_capacity room.1)) }
{
    let lines = AnswerLines::new(alloc, many)?;
    let running = Vec::with_capacity(alloc, many as usize)?;
    Ok((lines, running))
}
