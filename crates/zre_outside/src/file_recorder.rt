ghost use Rattle.std.specs.Prelude.{◌≡◌, ◌≤◌, false, true, None, Some, is_ok, is_some, IsSome, OnErr, IsErrOf};
ghost use Rattle.zre_outside.specs.Causes.{Rose, is_failed, counted};
ghost use Rattle.zre_outside.specs.Recorders.{FileCapture};
ghost use Rattle.zre_outside.specs.Refusals.{refused_after};

use crate::{Faults, NextFault, Recorder};
use std::fs;
use std::io::{self, Write};
use std::marker::Model;
use std::rt::Files;

/// A file as a recorder. What was in the file of this name before is gone once it is begun. Each put goes to the
/// system at once, so that a capture tells of a node that ended badly up to its end.
#[derive(Drop)]
pub struct FileRecorder<R: Files> {
    rt: R,
    file: Option<R::File>,
    faults: Faults,
}

impl<R: Files> Model for FileRecorder<R> {
    ghost Value = { FileCapture };

    ghost view = { λ r. record { begun = is_some r.file; faults = r.faults } };
}

impl<R: Files> FileRecorder<R> {
    /// A recorder that isn't begun.
    pub fn new(rt: R) -> Self
        ensures { result ≡ record { begun = false; faults = record { count = 0; reason = None } } }
    {
        FileRecorder {
            rt,
            file: None,
            faults: Faults::none(),
        }
    }

    /// Why the last call that failed did, as the system says it.
    pub fn reason(&self) -> Option<io::Error>
        ensures { result ≡ self.now.faults.reason }
    {
        self.faults.reason()
    }
}

impl<R: Files> Recorder for FileRecorder<R> {
    ghost kept = { λ _. None };

    ghost named = { λ _. None };

    ghost begun = { λ r. r.begun };

    ghost faults = { λ r. r.faults.count };

    ghost refused = { λ r. Some r.faults.count };

    fn begin(&mut self, name: &str) -> Result<(), NextFault>
        ensures begun { self.new.begun ≡ is_ok result }
        ensures later { self.old.faults.count ≤ self.new.faults.count }
        ensures failed { IsErrOf result NextFault.Failed → Rose self.old.faults.count self.new.faults.count }
        ensures counts { Some self.new.faults.count
            ≡ refused_after (is_failed result) (Some self.old.faults.count) }
        // The count rises where it failed, and nowhere else.
        ensures counted { self.new.faults.count ≡ counted (is_failed result) self.old.faults.count }
        ensures reason { OnErr result (IsSome self.new.faults.reason) }
    {
        self.file = None;
        match fs::create(&self.rt, name) {
            Ok(file) => {
                drop(self.file.replace(file));
                Ok(())
            }
            Err(reason) => {
                self.faults.raise(reason);
                Err(NextFault::Failed)
            }
        }
    }

    fn put(&mut self, bytes: &[u8]) -> Result<(), NextFault>
        requires { self.old.begun ≡ true }
        // What stays as it was.
        ensures begun { self.new.begun ≡ self.old.begun }
        // Which counts of faults rise.
        ensures later { self.old.faults.count ≤ self.new.faults.count }
        ensures failed { IsErrOf result NextFault.Failed → Rose self.old.faults.count self.new.faults.count }
        ensures counts { Some self.new.faults.count
            ≡ refused_after (is_failed result) (Some self.old.faults.count) }
        ensures counted { self.new.faults.count ≡ counted (is_failed result) self.old.faults.count }
        // The reason.
        ensures reason { OnErr result (IsSome self.new.faults.reason) }
    {
        match self.file.as_mut().unwrap().write_all(bytes) {
            Ok(()) => Ok(()),
            Err(reason) => {
                self.faults.raise(reason);
                Err(NextFault::Failed)
            }
        }
    }
}
