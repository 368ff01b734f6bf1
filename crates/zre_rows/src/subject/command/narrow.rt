//! An output that takes few octets at a time.

use zre_outside::{MemSink, NextFault, Sink};
use zre_values::take_apart;

/// A sink that takes at most so many octets a write, and one at least.
pub struct Narrow {
    inner: MemSink,
    most: usize,
}

impl Drop for Narrow {
    fn drop(self) {
        take_apart!(self, Narrow: inner, most);
    }
}

impl Narrow {
    pub fn new(inner: MemSink, most: u64) -> Self {
        Narrow {
            inner,
            most: usize::try_from(most).unwrap_or(usize::MAX),
        }
    }

    pub fn written(&self) -> &[u8] {
        self.inner.written()
    }
}

impl Sink for Narrow {
    ghost use Rattle.std.specs.Prelude.{None};

    ghost written = { λ _. None };

    ghost faults = { λ s. s.inner.faults };

    fn write(&mut self, bytes: &[u8]) -> Result<usize, NextFault> {
        let n = bytes.len().min(self.most.max(1));
        self.inner.write(&bytes[..n])
    }
}
