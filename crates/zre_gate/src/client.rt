//! The work of a client's thread.

ghost use Rattle.std.specs.Arc.{arc_value};
ghost use Rattle.zre_gate.specs.Clients.{seen_client};
ghost use Rattle.zre_gate.specs.ClientLists.{IsNewClient, IsAnswer};

use crate::gate_name::GateName;
use crossbeam_channel::Sender;
use std::marker::PhantomData;
use std::sync::Wait;
use zre_console::reader::{ReaderDone, ReaderJob};
use zre_console::talk::Excused;
use zre_outside::{Job, Source, Task};

/// What comes back of a client.
#[derive(Drop)]
pub struct Answer<C: Source, B: GateName> {
    /// The client's place among the others, counted from 0.
    pub place: u64,
    /// The client, as it was left, and its pass.
    pub done: ReaderDone<C>,
    /// Of which gate it is.
    pub of: PhantomData<B>,
    ghost known: { ∥ IsAnswer B.client_list place (seen_client C.left C.taken C.faults C.refused done.input) done.pass
        done.end ∥₁ },
}

/// Reads a client and puts the commands of its lines, as a [`ReaderJob`] does, but for the quit, which isn't put. The
/// answer says whether it ended because nothing more was to be put.
#[derive(Drop)]
pub struct ClientJob<C: Source, B: GateName> {
    /// The client, what is read of it and where its commands go.
    pub reading: ReaderJob<C>,
    /// The client's place among the others, counted from 0.
    pub place: u64,
    /// Where the answer goes to. A thread's handle can't be waited for by another thread than the one that started it.
    pub line: Sender<Answer<C, B>>,
    ghost known: { ∥ IsNewClient B.client_list (arc_value reading.pipes) reading.limit place reading.pass
        (seen_client C.left C.taken C.faults C.refused reading.input) ∥₁ },
}

impl<C: Source + Send + Drop + 'static, B: GateName + Send + 'static> Task for ClientJob<C, B> {
    ghost use Rattle.std.specs.Prelude.{⊤};

    type Out = ();

    ghost means = { λ job out. ⊤ };
}

impl<T: Wait + Copy, C: Source + Send + Drop + 'static, B: GateName + Send + 'static> Job<T>
    for ClientJob<C, B> {
    fn run(self, rt: T) -> () {
        let (line, answer) = read_client(rt, self);
        send(rt, &line, answer);
    }
}

impl<R: Wait + Copy, C: Source + Send + Drop + 'static, B: GateName + Send + 'static> Excused<R>
    for ClientJob<C, B> {
    fn excuse<T: Wait + Copy>(self, rt: T) -> () {
        let (line, answer) = leave_client(self);
        send(rt, &line, answer);
    }
}

// Reads the client, and says where its answer goes to.
fn read_client<C, B, T>(rt: T, job: ClientJob<C, B>) -> (Sender<Answer<C, B>>, Answer<C, B>)
where
    C: Source + Drop,
    B: GateName,
    T: Wait + Copy,
{
    let ClientJob {
        reading,
        place,
        line,
    } = job;
    let (done, _, _) = reading.read(rt);
    let answer = Answer {
        place,
        done,
        of: PhantomData,
    };
    (line, answer)
}

// Nothing is read of the client.
fn leave_client<C, B>(job: ClientJob<C, B>) -> (Sender<Answer<C, B>>, Answer<C, B>)
where
    C: Source + Drop,
    B: GateName,
{
    let ClientJob {
        reading,
        place,
        line,
    } = job;
    let done = reading.leave();
    let answer = Answer {
        place,
        done,
        of: PhantomData,
    };
    (line, answer)
}

// Hands an answer on. The channel has room for it.
fn send<C: Source + Drop, B: GateName, T: Wait + Copy>(
    rt: T,
    line: &Sender<Answer<C, B>>,
    answer: Answer<C, B>,
) {
    let mut answer = answer;
    for _ in rt.forever() {
        match line.send(&rt, answer) {
            Ok(()) => return,
            Err(back) => answer = back.into_inner(),
        }
    }
}
