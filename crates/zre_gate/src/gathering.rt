//! The answers of the clients are waited for, in the order of their places.

ghost use Rattle.std.specs.Prelude.{◌≡◌, ◌≤◌, ◌<◌, ◌+◌, ◌||◌, ◌∷◌, [], Some, map, take, length, vec_len, vec_capacity};
ghost use Rattle.zre_actor.specs.Passes.{IsCallerOf};
ghost use Rattle.zre_console.specs.Statuses.{least};
ghost use Rattle.zre_gate.specs.Clients.{seen_client, of_client as client_status, is_over as is_over_end};
ghost use Rattle.zre_actor.specs.declared.passes.CallerPass.{CallerPass as CallerPassValue};
ghost use Rattle.zre_gate.specs.Gathering.{Gathers, IsClientList, IsFull, GathersAll};
ghost use Rattle.zre_gate.specs.ClientLists.{ClientList};

use crate::client::Answer;
use crate::gate_name::GateName;
use crossbeam_channel::Receiver;
use std::sync::Wait;
use zre_actor::{CallerPass, Pipes};
use zre_commands::pump::Status;
use zre_console::reader::InputEnd;
use zre_console::statuses::first;
use zre_outside::Source;

/// What is left of clients that were waited for.
#[derive(Drop)]
pub(crate) struct GatheredClients<C> {
    /// The clients, as they were left.
    pub clients: Vec<C>,
    /// The pass that absorbed theirs.
    pub pass: CallerPass,
    /// What their ends come to.
    pub status: Status,
    /// Whether one of them ended because the gate was over.
    pub over: bool,
}

// What the end of a client comes to.
fn of_client(end: InputEnd) -> Status
    ensures { result ≡ client_status end }
{
    match end {
        InputEnd::Quit | InputEnd::AtEnd | InputEnd::Over | InputEnd::ReadFault => Status::Done,
        InputEnd::TooLong => Status::TooLong,
        InputEnd::OutOfMemory => Status::OutOfMemory,
    }
}

fn is_over(end: InputEnd) -> bool
    ensures { result ≡ is_over_end end }
{
    match end {
        InputEnd::Over => true,
        _ => false,
    }
}

// What the ends of some clients come to, and that of one more.
fn with_client(status: Status, end: InputEnd) -> Status
    ensures { result ≡ least (client_status end ∷ status ∷ []) }
{
    first(of_client(end), status)
}

// Waits for the answer of the client at a place.
fn wait_for<C, B, T>(rt: T, line: &Receiver<Answer<C, B>>, place: u64) -> Answer<C, B>
where
    C: Source + Drop,
    B: GateName,
    T: Wait + Copy,
    ensures { result.place ≡ place }
{
    for _ in rt.forever() {
        if let Ok(answer) = line.recv(&rt) {
            if answer.place == place {
                return answer;
            }
        }
    }
    unreachable!()
}

fn either(a: bool, b: bool) -> bool
    ensures { result ≡ (a || b) }
{
    a || b
}

// Waits for the client at a place, and absorbs its pass.
fn gather_one<C, B, T>(
    rt: T,
    pipes: &Pipes,
    gathered: GatheredClients<C>,
    line: &Receiver<Answer<C, B>>,
    place: u64,
) -> GatheredClients<C>
where
    C: Source + Drop,
    B: GateName,
    T: Wait + Copy,
    // The pass belongs to the pipes, before and after; the list has room for one more.
    requires pipes { IsCallerOf pipes.now gathered.pass }
    requires client_list { ∥ IsClientList B.client_list pipes.now ∥₁ }
    requires capacity { vec_len gathered.clients < vec_capacity gathered.clients }
    ensures pipes { IsCallerOf pipes.now result.pass }
    ensures capacity { (vec_len result.clients ≡ vec_len gathered.clients + 1)
        × (vec_capacity result.clients ≡ vec_capacity gathered.clients) }
    // One client more is gathered.
    ensures gathers { (there : ClientList) (first : CallerPassValue) → B.client_list ≡ Some there
        → ∥ Gathers there.limit (take place there.new_clients)
        (map (seen_client C.left C.taken C.faults C.refused) gathered.clients.items) first gathered.pass gathered.status
        gathered.over ∥₁
        → ∥ Gathers there.limit (take (place + 1) there.new_clients)
        (map (seen_client C.left C.taken C.faults C.refused) result.clients.items) first result.pass result.status
        result.over ∥₁ }
{
    let GatheredClients {
        mut clients,
        pass,
        status,
        over,
    } = gathered;
    let answer = wait_for(rt, line, place);
    let done = answer.done;
    let end = done.end;
    let pass = pipes.absorb(rt, pass, done.pass);
    clients.push_reserved(done.input);
    GatheredClients {
        clients,
        pass,
        status: with_client(status, end),
        over: either(over, is_over(end)),
    }
}

/// Waits for the clients in order, and absorbs their passes. The list in which they are kept has room for all of them.
pub(crate) fn gather<C, B, T>(
    rt: T,
    pipes: &Pipes,
    pass: CallerPass,
    lines: Vec<Receiver<Answer<C, B>>>,
    clients: Vec<C>,
) -> GatheredClients<C>
where
    C: Source + Drop,
    B: GateName,
    T: Wait + Copy,
    // The pass belongs to the pipes, before and after; the list has room for all.
    requires pipes { IsCallerOf pipes.now pass }
    requires client_list { ∥ IsClientList B.client_list pipes.now ∥₁ }
    requires many { IsFull B.client_list (length lines.items) }
    requires capacity { (clients.items ≡ []) × (length lines.items ≤ vec_capacity clients) }
    ensures pipes { IsCallerOf pipes.now result.pass }
    // All clients are gathered.
    ensures gathers { GathersAll B.client_list (map (seen_client C.left C.taken C.faults C.refused)
        result.clients.items) pass result.pass result.status result.over }
{
    let mut gathered = GatheredClients {
        clients,
        pass,
        status: Status::Done,
        over: false,
    };
    let mut place: u64 = 0;
    for line in lines {
        gathered = gather_one(rt, pipes, gathered, &line, place);
        place += 1;
    }
    gathered
}
