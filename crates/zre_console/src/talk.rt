//! A job is started that puts commands, and the node's events are printed meanwhile.

ghost use Rattle.std.specs.Prelude.{◌≡◌, ◌≤◌, ◌⊎◌, true, false, None, Some, IsSome, OnOk, OnErr, MatchResult};
ghost use Rattle.std.specs.Arc.{arc_value};
ghost use Rattle.zre_outside.specs.Causes.{Rose};
ghost use Rattle.zre_outside.specs.Spawners.{job_of};
ghost use Rattle.zre_outside.specs.declared.sink.NextFault.TheVariants.{Failed};
ghost use Rattle.zre_actor.specs.Passes.{IsCallerOf, IsTakerOf, last_of};
ghost use Rattle.zre_console.specs.printer.Printing.{HasPrinted};
ghost use Rattle.zre_console.specs.printer.Asking.{asker_of};

use crate::places::PrinterArgs;
use crate::printer::{Asker, Printed, Wish, print_all};
use crate::reader::{ReaderDone, ReaderJob};
use std::alloc::Global;
use std::sync::atomic::Ordering;
use std::sync::{Arc, Wait};
use std::thread::Threads;
use zre_actor::{CallerPass, Pipes};
use zre_outside::{Job, Refused, Running, Sink, Source, Spawner};

/// A job that has an answer too where no thread is found for it.
pub trait Excused<R>: Job<R> {
    /// The answer of a job that wasn't started.
    fn excuse<T: Wait + Copy>(self, rt: T) -> Self::Out
        ensures { Self.means self result };
}

impl<R: Wait + Copy, I: Source + Send + Drop + 'static> Excused<R> for ReaderJob<I> {
    fn excuse<T: Wait + Copy>(self, _rt: T) -> ReaderDone<I> {
        self.leave()
    }
}

/// What is left after Last, and whether a thread was refused.
#[derive(Drop)]
pub struct Talk<D> {
    /// The pipes, as the caller's own thread has them.
    pub pipes: Arc<Pipes, Global>,
    /// The answer of the job.
    pub done: D,
    /// What is left of the printing.
    pub printed: Printed,
    /// Whether a thread was refused.
    pub refused: bool,
}

/// Starts a job, unless a thread was refused before.
pub fn start<J: Job<P::Runtime>, P: Spawner>(
    spawner: &mut P,
    job: J,
    refused: bool,
) -> Result<Running<J>, J>
    // The job is started, or comes back.
    ensures started { MatchResult result (λ running. job_of running ≡ job) (λ back. back ≡ job) }
    // The spawner's count rises where the start is refused.
    ensures refused { OnErr result ((refused ≡ true) ⊎ Rose (P.faults spawner.old) (P.faults spawner.new)) }
    ensures counts { OnOk result ((refused ≡ false) × (P.faults spawner.new ≡ P.faults spawner.old)) }
    ensures later { P.faults spawner.old ≤ P.faults spawner.new }
{
    if refused {
        return Err(job);
    }
    match spawner.start(job) {
        Ok(running) => Ok(running),
        Err(refused) => {
            let Refused { job } = refused;
            Err(job)
        }
    }
}

// Who asks the node to stop: at once, where a thread was refused.
fn asker_at(pass: CallerPass, refused: bool) -> Asker
    ensures { result ≡ asker_of pass refused }
{
    Asker {
        pass,
        wish: if refused { Wish::Due } else { Wish::No },
    }
}

impl PrinterArgs {
    /// Starts the job, unless a thread was refused before, prints until Last, tells all who put commands that nothing
    /// more is to be put, and waits for the job. Where a thread was refused, the node is asked to stop at once.
    pub fn hold_talk<J, O: Sink, P: Spawner, T: Wait + Threads + Copy>(
        self,
        rt: T,
        alloc: Global,
        job: J,
        refused: bool,
        out: &mut O,
        spawner: &mut P,
    ) -> Talk<J::Out>
    where
        J: Excused<P::Runtime>,
        // The passes belong to the pipes, before and after, and Last has come.
        requires pipes { IsTakerOf (arc_value self.pipes) self.taker × IsCallerOf (arc_value self.pipes) self.asker }
        requires open { last_of self.taker ≡ None }
        ensures same { result.pipes ≡ self.pipes }
        ensures pipes { IsTakerOf (arc_value result.pipes) result.printed.taker
            × IsCallerOf (arc_value result.pipes) result.printed.pass }
        ensures last { IsSome (last_of result.printed.taker) }
        // What the other thread did, and what was printed.
        ensures done { J.means job result.done }
        ensures printed { HasPrinted (asker_of self.asker result.refused) self.taker result.printed.taker
            result.printed.pass result.printed.fault (O.written out.old) (O.written out.new) }
        // Counts rise where the sink failed and where a start was refused.
        ensures failed { result.printed.fault ≡ Some Failed → Rose (O.faults out.old) (O.faults out.new) }
        ensures refused { result.refused ≡ true
            → (refused ≡ true) ⊎ Rose (P.faults spawner.old) (P.faults spawner.new) }
        ensures written { result.printed.fault ≡ None → O.refused out.new ≡ O.refused out.old }
        ensures counts { result.refused ≡ false
            → (refused ≡ false) × (P.faults spawner.new ≡ P.faults spawner.old) }
        ensures writes { O.faults out.old ≤ O.faults out.new }
        ensures starts { P.faults spawner.old ≤ P.faults spawner.new }
    {
        let PrinterArgs {
            pipes,
            over,
            asker,
            taker,
        } = self;
        let started = start(spawner, job, refused);
        let asker = asker_at(asker, started.is_err());
        let printed = print_all(rt, alloc, &pipes, taker, asker, out);
        over.store(true, Ordering::SeqCst);
        match started {
            Ok(running) => Talk {
                pipes,
                done: running.join(rt),
                printed,
                refused: false,
            },
            Err(job) => Talk {
                pipes,
                done: job.excuse(rt),
                printed,
                refused: true,
            },
        }
    }
}
