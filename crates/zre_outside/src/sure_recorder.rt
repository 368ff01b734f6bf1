ghost use Rattle.std.specs.Prelude.{◌≡◌, false, []};
ghost use Rattle.zre_outside.specs.Recorders.{Capture};

use crate::{NextFault, Recorder};
use std::alloc::Global;
use std::marker::Model;
use zre_values::{Octets, take_apart};

/// A capture in memory. Its count of faults is 0, so it fails with OutOfMemory alone.
#[derive(Debug)]
pub struct SureRecorder {
    alloc: Global,
    bytes: Octets,
    file: Octets,
    begun: bool,
}

impl Drop for SureRecorder {
    fn drop(self) {
        take_apart!(self, SureRecorder: alloc, bytes, file, begun);
    }
}

impl Model for SureRecorder {
    ghost Value = { Capture };

    ghost view = { λ r. record { kept = r.bytes; named = r.file; begun = r.begun } };
}

impl SureRecorder {
    /// A recorder that isn't begun.
    pub fn new(alloc: Global) -> Self
        ensures { result ≡ record { kept = []; named = []; begun = false } }
    {
        SureRecorder {
            alloc,
            bytes: Octets::new(alloc),
            file: Octets::new(alloc),
            begun: false,
        }
    }

    /// All that it keeps.
    pub fn kept(&self) -> &[u8]
        ensures { result.now ≡ self.now.kept }
    {
        self.bytes.as_slice()
    }
}

impl Recorder for SureRecorder {
    ghost use Rattle.std.specs.Prelude.{Some};

    ghost kept = { λ r. Some r.kept };

    ghost named = { λ r. Some r.named };

    ghost begun = { λ r. r.begun };

    ghost faults = { λ _. 0 };

    ghost refused = { λ _. Some 0 };

    fn begin(&mut self, name: &str) -> Result<(), NextFault> {
        self.begun = false;
        self.file = Octets::copy(self.alloc, name.as_bytes())?;
        self.bytes.clear();
        self.begun = true;
        Ok(())
    }

    fn put(&mut self, bytes: &[u8]) -> Result<(), NextFault> {
        Ok(self.bytes.append(bytes)?)
    }
}
