ghost use Rattle.std.specs.Prelude.{◌≡◌, ℕ, List, Some, []};
ghost use Rattle.zre_outside.specs.Held.{reading_of};
ghost use Rattle.zre_outside.specs.Memory.{SourceReading};
ghost use Rattle.zre_outside.specs.Refusals.{no_refusals};

use crate::held::Held;
use crate::{Failed, NextFault, Sink, Source};
use std::alloc::Global;
use std::marker::Model;
use zre_values::Octets;

/// Octets in memory, read in order. Its count of faults is 0, so it never fails.
#[derive(Debug, Drop)]
pub struct SureSource {
    held: Held,
}

impl Model for SureSource {
    ghost Value = { SourceReading };

    ghost view = { λ s. reading_of s.held };
}

impl SureSource {
    /// A source of which nothing was read.
    pub fn new(left: Octets) -> Self
        ensures { result ≡ record { left = left; taken = [] } }
    {
        SureSource {
            held: Held::new(left),
        }
    }
}

impl Source for SureSource {
    ghost left = { λ s. Some s.left };

    ghost taken = { λ s. Some s.taken };

    ghost faults = { λ _. 0 };

    ghost refused = { λ _. Some no_refusals };

    fn read(&mut self, buf: &mut [u8]) -> Result<usize, Failed> {
        Ok(self.held.give(buf))
    }
}

/// Octets in memory, written in order. Its count of faults is 0, so it fails with OutOfMemory alone.
#[derive(Debug, Drop)]
pub struct SureSink {
    bytes: Octets,
}

impl Model for SureSink {
    ghost Value = { List ℕ };

    ghost view = { λ s. s.bytes };
}

impl SureSink {
    /// A sink to which nothing was written.
    pub fn new(alloc: Global) -> Self
        ensures { result ≡ [] }
    {
        SureSink {
            bytes: Octets::new(alloc),
        }
    }

    /// All that was written.
    pub fn written(&self) -> &[u8]
        ensures { result.now ≡ self.now }
    {
        self.bytes.as_slice()
    }
}

impl Sink for SureSink {
    ghost written = { λ s. Some s };

    ghost faults = { λ _. 0 };

    ghost refused = { λ _. Some 0 };

    fn write(&mut self, bytes: &[u8]) -> Result<usize, NextFault> {
        self.bytes.append(bytes)?;
        Ok(bytes.len())
    }
}
