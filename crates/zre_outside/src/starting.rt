//! How a job comes to its thread. The thread is started first and takes the job from a channel, so that a job whose
//! thread isn't started stays in hand.

ghost use Rattle.std.specs.Prelude.{◌≡◌, Option, Some, None, IfSome, MatchResult};
ghost use Rattle.zre_outside.specs.Spawners.{job_of};

use crate::Job;
use crate::running::{Running, Works};
use crossbeam_channel::{Receiver, bounded};
use std::alloc::Global;
use std::marker::{Brand, PhantomData};
use std::sync::Wait;
use std::thread;
use std::thread::Threads;

/// The job that goes through a channel.
pub(crate) trait JobName<J> {
    ghost the: { Option J };
}

impl<J> JobName<J> for Brand {
    ghost the = { None };
}

/// A job on its way.
#[derive(Drop)]
pub(crate) struct SentJob<J: Drop, B: JobName<J>> {
    job: J,
    of: PhantomData<B>,
    ghost known: { B.the ≡ Some job },
}

/// Starts a job in a thread of its own, or hands it back.
pub(crate) fn start_job<R: Threads + Wait + Copy + Send + 'static, J: Job<R>>(
    rt: R,
    alloc: Global,
    job: J,
) -> Result<Running<J>, J>
    ensures { MatchResult result (λ r. job_of r ≡ job) (λ j. j ≡ job) }
{
    start_known::<R, J, Brand>(rt, alloc, job)
}

fn start_known<
    R: Threads + Wait + Copy + Send + 'static,
    J: Job<R>,
    B: JobName<J> + Send + 'static,
>(rt: R, alloc: Global, job: J) -> Result<Running<J>, J>
    requires { B.the ≡ Some job }
    ensures { MatchResult result (λ r. job_of r ≡ job) (λ j. j ≡ job) }
{
    let Ok((sender, receiver)) = bounded::<SentJob<J, B>, Global>(alloc, 1) else {
        return Err(job);
    };
    let works = Works::of(&job);
    let Ok(handle) = thread::spawn_with(
        &rt,
        works,
        move || -> J::Out
            ensures { IfSome B.the (λ other. J.means other result) }
        { run_sent::<R, J, B>(rt, receiver) },
    ) else {
        return Err(job);
    };
    let sent = SentJob {
        job,
        of: PhantomData,
    };
    match sender.send(&rt, sent) {
        Ok(()) => Ok(Running { handle }),
        Err(back) => Err(back.into_inner().job),
    }
}

// Runs the job that comes.
fn run_sent<R: Threads + Wait + Copy + Send + 'static, J: Job<R>, B: JobName<J>>(
    rt: R,
    receiver: Receiver<SentJob<J, B>>,
) -> J::Out
    ensures { IfSome B.the (λ other. J.means other result) }
{
    for _ in rt.forever() {
        if let Ok(sent) = receiver.recv(&rt) {
            return sent.job.run(rt);
        }
    }
    unreachable!()
}
