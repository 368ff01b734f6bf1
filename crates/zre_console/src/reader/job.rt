//! The reader's work, for a thread of its own.

ghost use Rattle.std.specs.Prelude.{◌≡◌, ◌≤◌};
ghost use Rattle.std.specs.Arc.{arc_value};
ghost use Rattle.zre_outside.specs.Causes.{Rose};
ghost use Rattle.zre_actor.specs.Passes.{IsCallerOf};
ghost use Rattle.zre_console.specs.declared.reader.ending.InputEnd.TheVariants.{Over};
ghost use Rattle.zre_console.specs.reader.Reading.{HasReadLines, EndsByRefusal};

use crate::reader::InputEnd;
use crate::reader::putting::{ChatPipes, end_reading};
use std::alloc::Global;
use std::sync::atomic::AtomicBool;
use std::sync::{Arc, Wait};
use zre_actor::{CallerPass, Pipes};
use zre_outside::{Job, Source, Task};

/// Reads a source, at most so many octets of it, and puts the commands of its lines with the pass, each again while
/// the pipe is full. A quit is the last: that of a line, or the end of the input. It looks at `over` before each
/// read and whenever it is to put a command, and puts nothing more where that is set; nothing is claimed of when it
/// sees it.
#[derive(Drop)]
pub struct ReaderJob<I: Source> {
    /// Where the pieces and the commands are kept.
    pub alloc: Global,
    /// Where the commands are put.
    pub pipes: Arc<Pipes, Global>,
    /// Whether nothing more is to be put.
    pub over: Arc<AtomicBool, Global>,
    /// The pass under which they are put.
    pub pass: CallerPass,
    /// What is read.
    pub input: I,
    /// The most octets that are read.
    pub limit: u64,
    ghost of_pipes: { IsCallerOf (arc_value pipes) pass },
}

/// What comes back of a [`ReaderJob`].
#[derive(Drop)]
pub struct ReaderDone<I> {
    /// The source, as it was left.
    pub input: I,
    /// The pass, with what was put under it.
    pub pass: CallerPass,
    /// Why no more of the source was taken.
    pub end: InputEnd,
}

impl<I: Source + Drop> ReaderJob<I> {
    /// Reads the source and puts the commands of its lines, but no quit. What is needed to put one comes back too.
    pub fn read<T: Wait + Copy>(
        self,
        rt: T,
    ) -> (ReaderDone<I>, Arc<Pipes, Global>, Arc<AtomicBool, Global>)
        // What was read and put, and why no more.
        ensures pipes { (arc_value result.1 ≡ arc_value self.pipes) × IsCallerOf (arc_value self.pipes) result.0.pass }
        ensures read { HasReadLines result.0.end self.limit self.pass result.0.pass
            (I.left self.input) (I.left result.0.input) (I.taken self.input) (I.taken result.0.input)
            (Rose (I.faults self.input) (I.faults result.0.input)) }
        // After a refused read nothing more is read; the count of faults never falls.
        ensures refused { EndsByRefusal result.0.end (I.refused self.input) (I.refused result.0.input) }
        ensures later { I.faults self.input ≤ I.faults result.0.input }
    {
        let ReaderJob {
            alloc,
            pipes,
            over,
            pass,
            mut input,
            limit,
        } = self;
        let chat = ChatPipes {
            pipes: &pipes,
            over: &over,
        };
        let (pass, end) = chat.read_lines(rt, alloc, pass, &mut input, limit);
        (ReaderDone { input, pass, end }, pipes, over)
    }

    /// What comes back where it isn't run: nothing is read.
    pub fn leave(self) -> ReaderDone<I>
        ensures { result ≡ record { input = self.input; pass = self.pass; end = Over } }
    {
        ReaderDone {
            input: self.input,
            pass: self.pass,
            end: InputEnd::Over,
        }
    }
}

impl<I: Source + Send + Drop + 'static> Task for ReaderJob<I> {
    ghost use Rattle.std.specs.Prelude.{◌≤◌};
    ghost use Rattle.std.specs.Arc.{arc_value};
    ghost use Rattle.zre_outside.specs.Causes.{Rose};
    ghost use Rattle.zre_actor.specs.Passes.{IsCallerOf};
    ghost use Rattle.zre_console.specs.reader.Reading.{HasRead, EndsByRefusal};

    type Out = ReaderDone<I>;

    ghost means = { λ job out. IsCallerOf (arc_value job.pipes) out.pass × (I.faults job.input ≤ I.faults out.input)
        × HasRead out.end job.limit job.pass out.pass
        (I.left job.input) (I.left out.input) (I.taken job.input) (I.taken out.input)
        (Rose (I.faults job.input) (I.faults out.input))
        × EndsByRefusal out.end (I.refused job.input) (I.refused out.input) };
}

impl<T: Wait + Copy, I: Source + Send + Drop + 'static> Job<T> for ReaderJob<I> {
    fn run(self, rt: T) -> ReaderDone<I> {
        let (done, pipes, over) = self.read(rt);
        let ReaderDone { input, pass, end } = done;
        let (pass, end) = end_reading(rt, &pipes, &over, pass, end);
        ReaderDone { input, pass, end }
    }
}
