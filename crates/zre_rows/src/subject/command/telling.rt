//! A world and a recorder that show what they were told.

ghost use Rattle.std.specs.Prelude.{None};

use crate::acts::{push_act, push_offered, push_start};
use crate::text::Text;
use zre_outside::{
    Act, Command, MemRecorder, NextFault, Recorder, ScriptWorld, Start, Turn, World,
};
use zre_values::OutOfMemory;

/// A script as a world, with the lines of what it was told.
#[derive(Drop)]
pub struct Telling {
    pub inner: ScriptWorld,
    pub told: Text,
}

impl World for Telling {
    ghost told = { λ _. None };

    ghost looked = { λ w. w.inner.scene.looked };

    ghost faults = { λ w. w.inner.faults };

    fn start(&mut self, s: &Start) -> Result<(), NextFault> {
        push_start(&mut self.told, s);
        self.inner.start(s)
    }

    fn next(&mut self, command: Option<Command>) -> Result<Turn, NextFault> {
        self.inner.next(command)
    }

    fn act(&mut self, act: &Act) -> Result<(), OutOfMemory> {
        push_act(&mut self.told, act);
        self.inner.act(act)
    }

    fn offer(&mut self, link: u64, bytes: &[u8]) -> Result<(), OutOfMemory> {
        push_offered(&mut self.told, link, bytes);
        self.inner.offer(link, bytes)
    }
}

/// A capture in memory, with the names of the files that were begun.
#[derive(Drop)]
pub struct Naming {
    pub inner: MemRecorder,
    pub names: Text,
}

impl Recorder for Naming {
    ghost kept = { λ _. None };

    ghost named = { λ _. None };

    ghost begun = { λ r. r.inner.capture.begun };

    ghost faults = { λ r. r.inner.faults };

    fn begin(&mut self, name: &str) -> Result<(), NextFault> {
        let done = self.inner.begin(name);
        if done.is_ok() {
            self.names.put(name.as_bytes());
        }
        done
    }

    fn put(&mut self, bytes: &[u8]) -> Result<(), NextFault> {
        self.inner.put(bytes)
    }
}
