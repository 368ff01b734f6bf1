use crate::Task;
use std::snapshot::Snapshot;
use std::thread::{Promise, PromisedHandle, Threads};

/// What a job's thread promises of its answer.
#[derive(Drop)]
pub struct Works<J: Task> {
    job: Snapshot<J>,
}

impl<J: Task> Works<J> {
    ghost use Rattle.std.specs.Prelude.{◌≡◌};

    pub(crate) fn of(job: &J) -> Self
        ensures { result.job.value ≡ job.now }
    {
        Works {
            job: Snapshot::of(job),
        }
    }
}

impl<J: Task> Promise<J::Out> for Works<J> {
    ghost kept_by = { λ w out. J.means w.job.value out };
}

/// A job that was started.
#[derive(Drop)]
pub struct Running<J: Task> {
    pub(crate) handle: PromisedHandle<J::Out, Works<J>>,
}

impl<J: Task> Running<J> {
    ghost use Rattle.zre_outside.specs.Spawners.{job_of};

    /// Waits for the answer.
    pub fn join<R: Threads + Copy>(self, rt: R) -> J::Out
        ensures { J.means (job_of self) result }
    {
        self.handle.join(&rt)
    }
}

/// A job that wasn't started.
#[derive(Drop)]
pub struct Refused<J: Task> {
    /// The job, as it was handed in.
    pub job: J,
}
