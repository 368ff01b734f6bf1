ghost use Rattle.std.specs.Prelude.{◌≡◌};
ghost use Rattle.zre_outside.specs.Calls.{no_calls};
ghost use Rattle.zre_outside.specs.Spawners.{FailingStarts};

use crate::calls::Calls;
use crate::{Spawner, ThreadSpawner, Underway};
use std::alloc::Global;
use std::marker::Model;
use std::sync::Wait;
use std::thread::Threads;

/// Threads of the system. The starts with the numbers of a list are refused, counted from 1.
#[derive(Drop)]
pub struct PlainSpawner<R> {
    threads: ThreadSpawner<R>,
    starts: Calls,
}

impl<R> Model for PlainSpawner<R> {
    ghost Value = { FailingStarts };

    ghost view = { λ s. record { starts = s.starts; faults = s.threads } };
}

impl<R> PlainSpawner<R> {
    /// A spawner of which no start was asked.
    pub fn new(rt: R, alloc: Global, start_fails: Vec<u64>) -> Self
        ensures { result ≡ record { starts = no_calls start_fails.items; faults = 0 } }
    {
        PlainSpawner {
            threads: ThreadSpawner::new(rt, alloc),
            starts: Calls::new(start_fails),
        }
    }
}

impl<R: Threads + Wait + Copy + Send + 'static> Spawner for PlainSpawner<R> {
    ghost use Rattle.std.specs.Prelude.{Some};

    type Runtime = R;

    ghost faults = { λ s. s.faults };

    ghost starts = { λ s. Some s.starts.made };

    ghost fails = { λ s. s.starts.fails };

    fn admit(&mut self, _call: &Underway<Self>) -> bool {
        !self.starts.next_fails()
    }

    fn refuse(&mut self, _call: &Underway<Self>) {
        self.threads.count_refusal();
    }

    fn runtime(&self) -> R {
        self.threads.runtime()
    }

    fn alloc(&self) -> Global {
        self.threads.alloc()
    }
}
