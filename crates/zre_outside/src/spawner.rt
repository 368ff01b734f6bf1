ghost use Rattle.std.specs.Prelude.{◌≡◌, ◌≤◌, ℕ, true, not, List, Option, option_map, is_err, OnErr, IfOk, IfErr};
ghost use Rattle.zre_outside.specs.Causes.{Rose, raised, counted};
ghost use Rattle.zre_outside.specs.Spawners.{job_of, is_listed};

use crate::starting::start_job;
use crate::{Job, Refused, Running};
use std::alloc::Global;
use std::marker::PhantomData;
use std::sync::Wait;
use std::thread::Threads;
use zre_values::take_apart;

/// A call of [`Spawner::start`] that is under way. Nothing else can make one, so nothing else can call what takes one.
pub struct Underway<S> {
    of: PhantomData<S>,
}

impl<S> Drop for Underway<S> {
    fn drop(self) {
        take_apart!(self, Underway: of);
    }
}

/// What starts jobs, each in a thread of its own. `start` is the call to make, and alone raises the count of
/// refusals. An implementation says what the threads are started with and keeps the counts; how a job comes to its
/// thread is the same for all.
pub trait Spawner {
    /// The runtime that starts the threads, and that the jobs are handed.
    type Runtime: Threads + Wait + Copy + Send + 'static;

    /// How often it refused. At the last value of a u64 the count stands still, and is read as risen.
    ghost faults: { Self → ℕ };

    /// How many starts were asked of it, where it tells that.
    ghost starts: { Self → Option ℕ };

    /// The numbers of the starts that are to be refused, counted from 1.
    ghost fails: { Self → List ℕ };

    /// Takes note of a start. False where it is to be refused.
    fn admit(&mut self, call: &Underway<Self>) -> bool
        ensures admitted { result ≡ not (is_listed (starts self.old) (fails self.old)) }
        ensures starts { starts self.new ≡ option_map raised (starts self.old) }
        ensures fails { fails self.new ≡ fails self.old }
        ensures faults { faults self.new ≡ faults self.old };

    /// Counts a refusal.
    fn refuse(&mut self, call: &Underway<Self>)
        ensures starts { starts self.new ≡ starts self.old }
        ensures fails { fails self.new ≡ fails self.old }
        ensures later { faults self.old ≤ faults self.new }
        ensures faults { faults self.new ≡ raised (faults self.old) };

    /// What the threads are started with.
    fn runtime(&self) -> Self::Runtime;

    /// Where a start finds its memory.
    fn alloc(&self) -> Global;

    /// Starts a job, or hands it back. OutOfMemory is a refusal as any other.
    final fn start<J: Job<Self::Runtime>>(&mut self, job: J) -> Result<Running<J>, Refused<J>>
        ensures started { IfOk result (λ r. job_of r ≡ job) }
        ensures refused { IfErr result (λ r. r.job ≡ job) }
        ensures later { faults self.old ≤ faults self.new }
        ensures failed { OnErr result (Rose (faults self.old) (faults self.new)) }
        // The count rises where a start is refused, and nowhere else.
        ensures counted { faults self.new ≡ counted (is_err result) (faults self.old) }
        // The starts whose numbers are listed are refused, and else those for which no thread or no memory is found.
        ensures listed { is_listed (starts self.old) (fails self.old) ≡ true → is_err result ≡ true }
        ensures starts { starts self.new ≡ option_map raised (starts self.old) }
        ensures fails { fails self.new ≡ fails self.old }
    {
        let call = Underway { of: PhantomData };
        let started = if self.admit(&call) {
            start_job(self.runtime(), self.alloc(), job)
        } else {
            Err(job)
        };
        match started {
            Ok(running) => Ok(running),
            Err(job) => {
                self.refuse(&call);
                Err(Refused { job })
            }
        }
    }
}
