//! A chat of the top call, with what stands for its terminal.

use crate::terminal::{STOP, WHISPER, node_words, source_of, world_of};
use std::alloc::Global;
use std::sync::Wait;
use std::test::Fail;
use std::thread::Threads;
use zre_app::{Status, run};
use zre_outside::{MemRecorder, MemSink, PlainSpawner, Script, Sink, Source, Spawner, World};
use zre_values::Frames;

/// The words of a node, and what stands for its terminal.
#[derive(Drop)]
pub struct Terminal<S, O> {
    pub words: Frames,
    pub input: S,
    pub out: O,
}

/// The status of the chat, and what was written.
pub fn chat<R, S, O, W, P>(
    rt: R,
    alloc: Global,
    stand: Terminal<S, O>,
    world: W,
    mut spawner: P,
    limit: u64,
) -> (Status, O)
where
    R: Threads + Wait + Copy,
    S: Source + Send + Drop + 'static,
    O: Sink + Drop,
    W: World + Send + Drop + 'static,
    P: Spawner + Drop,
{
    let Terminal {
        words,
        input,
        mut out,
    } = stand;
    let rec = MemRecorder::new(alloc, Vec::new(alloc), Vec::new(alloc));
    let ended = run(
        rt,
        alloc,
        &words,
        input,
        world,
        &mut out,
        rec,
        &mut spawner,
        limit,
    );
    (ended.status, out)
}

/// A line that the limit cuts off is no command. The limit is one of turns, too, so the node may end before it was told
/// to quit.
#[test]
fn a_line_cut_by_the_limit_is_no_command(rt: HostRuntime) -> Result<(), Fail> {
    let alloc = rt.alloc();
    let stand = Terminal {
        words: node_words(alloc, &[b"chat"])?,
        input: source_of(alloc, WHISPER, &[])?,
        out: MemSink::new(alloc, Vec::new(alloc)),
    };
    let world = world_of(alloc, Script::new(alloc), 4, &[])?;
    let spawner = PlainSpawner::new(rt, alloc, Vec::new(alloc));
    let (status, out) = chat(rt, alloc, stand, world, spawner, WHISPER.len() as u64 - 1);
    assert_eq!(rt; status, Status::TooLong);
    assert!(rt; STOP.starts_with(out.written()));
    Ok(())
}
