//! The calls of the program's commands, each in a function of its own.

use crate::subject::command::cut::Cut;
use crate::subject::command::narrow::Narrow;
use crate::subject::command::telling::{Naming, Telling};
use std::alloc::Global;
use std::sync::Wait;
use std::thread::Threads;
use zre_app::{Ended, PlainEnded, Status, is_chat, plain, run, zre};
use zre_outside::PlainSpawner;
use zre_values::Frames;

/// What a command is run over, but for what it writes to.
#[derive(Drop)]
pub struct Stand {
    pub input: Cut,
    pub world: Telling,
    pub rec: Naming,
    /// The numbers of the threads that don't start.
    pub threads: Vec<u64>,
}

/// What comes back.
pub type Ran = Ended<Cut, Telling, Naming>;

/// The status of a command other than `chat`, and how many octets of the input it was given. None for `chat`.
pub fn call_plain(
    alloc: Global,
    words: &Frames,
    input: Cut,
    out: &mut Narrow,
    limit: u64,
) -> Option<(Status, u64)> {
    if is_chat(words) {
        return None;
    }
    let PlainEnded { status, input } = plain(alloc, words, input, out, limit);
    Some((status, input.given))
}

/// Any command, with a limit, or with that of the program.
pub fn call<T: Threads + Wait + Copy + Send + 'static>(
    rt: T,
    alloc: Global,
    words: &Frames,
    stand: Stand,
    out: &mut Narrow,
    limit: Option<u64>,
) -> Ran {
    let Stand {
        input,
        world,
        rec,
        threads,
    } = stand;
    let mut spawner = PlainSpawner::new(rt, alloc, threads);
    let Some(limit) = limit else {
        return zre(rt, alloc, words, input, world, out, rec, &mut spawner);
    };
    run(
        rt,
        alloc,
        words,
        input,
        world,
        out,
        rec,
        &mut spawner,
        limit,
    )
}
