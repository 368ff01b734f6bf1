//! The threads of a chat: the node's, the reader's and the caller's own.

ghost use Rattle.std.specs.Prelude.{◌≡◌, ◌≢◌, ◌≤◌, ℕ, List, [], Option, true, false};
ghost use Rattle.zre_outside.specs.declared.start.Start.{Start as StartValue};
ghost use Rattle.zre_values.specs.declared.settings.Settings.{Settings as ConfigValue};
ghost use Rattle.zre_node.specs.Journal.{StandsFor};
ghost use Rattle.zre_actor.specs.Passes.{number};
ghost use Rattle.zre_console.specs.Lived.{Seen, seen};
ghost use Rattle.zre_console.specs.Stages.{Prepared};
ghost use Rattle.zre_console.specs.Statuses.{IsFirst, IsReadSo};
ghost use Rattle.zre_console.specs.Tables.{IsLaid};
ghost use Rattle.zre_chat.specs.Chat.{IsChat};

use std::alloc::Global;
use std::sync::Wait;
use std::thread::Threads;
use zre_commands::pump::Status;
use zre_console::finishing::{Ended, Read, settle};
use zre_console::places::NodeWork;
use zre_console::reader::ReaderJob;
use zre_console::starting::start_node;
use zre_console::statuses::of_read;
use zre_console::table::Table;
use zre_console::talk::Talk;
use zre_outside::{Recorder, Sink, Source, Spawner, World};

/// What the threads of a chat start with: the pipes with their passes, and the input.
#[derive(Drop)]
pub(crate) struct ChatThreads<I> {
    pub base: Table,
    pub input: I,
}

impl<I: Source + Send + Drop + 'static> ChatThreads<I> {
    /// Starts the node's thread and the reader's, prints the node's events, and waits for both threads.
    pub(crate) fn converse<W, O, R, P, T>(
        self,
        rt: T,
        alloc: Global,
        work: NodeWork<W, R>,
        out: &mut O,
        spawner: &mut P,
    ) -> Ended<I, W, R>
    where
        W: World + Send + Drop + 'static,
        O: Sink,
        R: Recorder + Send + Drop + 'static,
        P: Spawner,
        T: Wait + Threads + Copy,
        // The pipes are new, and the capture is begun if one is recorded.
        requires unused { IsLaid 0 self.base }
        requires apart { number self.base.others.last.pass ≢ number self.base.others.printer.asker }
        requires begun { work.keep ≡ true → R.begun work.rec ≡ true }
        // What was read, given, done, written and recorded, and the status.
        ensures chat { (g : ConfigValue) (start : StartValue) (name : Option (List ℕ)) (s : Seen)
            → StandsFor g [] self.base.node_args.node →
            Prepared g start name work.keep s (seen (I.left self.input) (I.taken self.input) (I.faults self.input)
            (W.told work.world) (W.faults work.world) (O.written out.old) (O.faults out.old)
            (R.kept work.rec) (R.named work.rec) (R.faults work.rec) (P.faults spawner.old)) →
            IsChat g start name work.limit s
            (seen (I.left result.input) (I.taken result.input) (I.faults result.input)
            (W.told result.world) (W.faults result.world) (O.written out.new) (O.faults out.new)
            (R.kept result.rec) (R.named result.rec) (R.faults result.rec) (P.faults spawner.new))
            result.status }
        // The status is the first of what occurred.
        ensures first { IsFirst result.status (O.refused out.new ≡ O.refused out.old)
            (R.refused result.rec ≡ R.refused work.rec) (W.refused result.world ≡ W.refused work.world)
            (P.faults spawner.new ≡ P.faults spawner.old) }
        ensures read { IsReadSo result.status (I.refused self.input) (I.refused result.input) }
        // Without a capture the recorder comes back as it was; counts of faults never fall.
        ensures unrecorded { work.keep ≡ false → result.rec ≡ work.rec }
        ensures faults { (I.faults self.input ≤ I.faults result.input) × (O.faults out.old ≤ O.faults out.new)
            × (P.faults spawner.old ≤ P.faults spawner.new) }
    {
        let ChatThreads { base, input } = self;
        let Table { node_args, others } = base;
        let limit = work.limit;
        let working = match start_node(spawner, node_args, work) {
            Ok(working) => working,
            Err((world, rec)) => {
                drop(others);
                return Ended {
                    status: Status::NoThread,
                    input,
                    world,
                    rec,
                };
            }
        };
        let job = ReaderJob {
            alloc,
            pipes: others.last.pipes,
            over: others.last.over,
            pass: others.last.pass,
            input,
            limit,
        };
        let talk = others
            .printer
            .hold_talk(rt, alloc, job, false, out, spawner);
        let done = Read {
            input: talk.done.input,
            pass: talk.done.pass,
            status: of_read(talk.done.end),
        };
        let talk = Talk {
            pipes: talk.pipes,
            done,
            printed: talk.printed,
            refused: talk.refused,
        };
        let worked = working.join(rt);
        settle(rt, others.callers, talk, worked)
    }
}
