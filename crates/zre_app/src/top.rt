//! The top call: the command that the words ask for, over a source and a sink, and for `chat` a world, a recorder and a
//! spawner.

ghost use Rattle.zre_app.specs.Complete.{CompletesAll};
ghost use Rattle.zre_app.specs.Does.{Did, KeepsItsLedgers};
ghost use Rattle.std.specs.Prelude.{◌≡◌, true};
ghost use Rattle.zre_console.specs.Statuses.{IsFirst, IsReadSo};
ghost use Rattle.zre_chat.specs.Views.{handed, stream_views, views};
ghost use Rattle.zre_app.specs.Words.{command_of, is_chat};

use crate::chat_words::chat_of;
use crate::command::is_chat;
use crate::plain_commands::{PlainEnded, plain, usage};
use std::alloc::Global;
use std::sync::Wait;
use std::thread::Threads;
use zre_commands::pump::Status;
use zre_console::finishing::Ended;
use zre_outside::{Recorder, Sink, Source, Spawner, World};
use zre_values::{Frames, OutOfMemory};

/// The most octets that `zre` reads.
pub const LIMIT: u64 = (1 << 63) - 1;

/// Does what the words ask for, and reads at most `limit` octets; `chat` takes at most as many turns of the world, too.
/// What is handed in comes back as it was left.
///
/// Where the input is what the command reads, nothing fails and the limit isn't reached, it does all of that, unless
/// memory runs out.
pub fn run<
    T: Wait + Threads + Copy,
    I: Source + Send + Drop + 'static,
    W: World + Send + Drop + 'static,
    O: Sink,
    R: Recorder + Send + Drop + 'static,
    P: Spawner,
>(
    rt: T,
    alloc: Global,
    words: &Frames,
    input: I,
    world: W,
    out: &mut O,
    rec: R,
    spawner: &mut P,
    limit: u64,
) -> Ended<I, W, R>
    ensures does { Did (views (stream_views I.left I.taken I.faults O.written O.faults)
        W.told W.faults R.kept R.named R.faults P.faults)
        (command_of words.now) limit result.status (handed input world out.old rec spawner.old)
        (handed result.input result.world out.new result.rec spawner.new) }
    // Where what is handed in tells the calls that it refused, nothing more is read after a refused read, and the
    // status of a chat is the first of what occurred.
    ensures read { IsReadSo result.status (I.refused input) (I.refused result.input) }
    ensures first { is_chat words.now ≡ true → IsFirst result.status (O.refused out.new ≡ O.refused out.old)
        (R.refused result.rec ≡ R.refused rec) (W.refused result.world ≡ W.refused world)
        (P.faults spawner.new ≡ P.faults spawner.old) }
    ensures ledgers { KeepsItsLedgers (command_of words.now) }
    ensures complete { CompletesAll (views (stream_views I.left I.taken I.faults O.written O.faults)
        W.told W.faults R.kept R.named R.faults P.faults)
        (command_of words.now) limit result.status (handed input world out.old rec spawner.old)
        (handed result.input result.world out.new result.rec spawner.new) }
{
    if !is_chat(words) {
        let PlainEnded { status, input } = plain(alloc, words, input, out, limit);
        return Ended {
            status,
            input,
            world,
            rec,
        };
    }
    match chat_of(alloc, words) {
        Ok(Some(asked)) => asked.run(rt, alloc, input, world, out, rec, spawner, limit),
        Ok(None) => Ended {
            status: usage(out),
            input,
            world,
            rec,
        },
        Err(OutOfMemory) => Ended {
            status: Status::OutOfMemory,
            input,
            world,
            rec,
        },
    }
}

/// Does what the words ask for. It is `run` with a limit that no input reaches.
pub fn zre<
    T: Wait + Threads + Copy,
    I: Source + Send + Drop + 'static,
    W: World + Send + Drop + 'static,
    O: Sink,
    R: Recorder + Send + Drop + 'static,
    P: Spawner,
>(
    rt: T,
    alloc: Global,
    words: &Frames,
    input: I,
    world: W,
    out: &mut O,
    rec: R,
    spawner: &mut P,
) -> Ended<I, W, R>
    ensures does { Did (views (stream_views I.left I.taken I.faults O.written O.faults)
        W.told W.faults R.kept R.named R.faults P.faults)
        (command_of words.now) LIMIT result.status (handed input world out.old rec spawner.old)
        (handed result.input result.world out.new result.rec spawner.new) }
    // Where what is handed in tells the calls that it refused, nothing more is read after a refused read, and the
    // status of a chat is the first of what occurred.
    ensures read { IsReadSo result.status (I.refused input) (I.refused result.input) }
    ensures first { is_chat words.now ≡ true → IsFirst result.status (O.refused out.new ≡ O.refused out.old)
        (R.refused result.rec ≡ R.refused rec) (W.refused result.world ≡ W.refused world)
        (P.faults spawner.new ≡ P.faults spawner.old) }
    ensures ledgers { KeepsItsLedgers (command_of words.now) }
    ensures complete { CompletesAll (views (stream_views I.left I.taken I.faults O.written O.faults)
        W.told W.faults R.kept R.named R.faults P.faults)
        (command_of words.now) LIMIT result.status (handed input world out.old rec spawner.old)
        (handed result.input result.world out.new result.rec spawner.new) }
{
    run(rt, alloc, words, input, world, out, rec, spawner, LIMIT)
}
