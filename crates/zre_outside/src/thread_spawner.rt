ghost use Rattle.std.specs.Prelude.{◌≡◌, ◌≤◌, ℕ};
ghost use Rattle.zre_outside.specs.Causes.{raised};

use crate::{Spawner, Underway};
use std::alloc::Global;
use std::marker::Model;
use std::sync::Wait;
use std::thread::Threads;

/// Threads of the system.
#[derive(Drop)]
pub struct ThreadSpawner<R> {
    rt: R,
    alloc: Global,
    faults: u64,
}

impl<R> Model for ThreadSpawner<R> {
    ghost Value = { ℕ };

    ghost view = { λ s. s.faults };
}

impl<R> ThreadSpawner<R> {
    /// A spawner that refused nothing yet.
    pub fn new(rt: R, alloc: Global) -> Self
        ensures { result ≡ 0 }
    {
        ThreadSpawner {
            rt,
            alloc,
            faults: 0,
        }
    }

    // A start was refused.
    pub(crate) fn count_refusal(&mut self)
        ensures raised { self.new ≡ raised self.old }
        ensures later { self.old ≤ self.new }
    {
        self.faults = self.faults.saturating_add(1);
    }
}

impl<R: Threads + Wait + Copy + Send + 'static> Spawner for ThreadSpawner<R> {
    ghost use Rattle.std.specs.Prelude.{None, []};

    type Runtime = R;

    ghost faults = { λ s. s };

    ghost starts = { λ _. None };

    ghost fails = { λ _. [] };

    fn admit(&mut self, _call: &Underway<Self>) -> bool {
        true
    }

    fn refuse(&mut self, _call: &Underway<Self>) {
        self.count_refusal();
    }

    fn runtime(&self) -> R {
        self.rt
    }

    fn alloc(&self) -> Global {
        self.alloc
    }
}
