//! An input that comes in pieces.

ghost use Rattle.std.specs.Prelude.{◌≡◌, [], Some};

use std::marker::Model;
use zre_outside::{Failed, Source, SureSource};
use zre_values::Octets;

/// Octets in memory, of which a read gives at most so many.
#[derive(Drop)]
pub struct Pieces {
    inner: SureSource,
    most: usize,
}

impl Model for Pieces {
    ghost use Rattle.zre_outside.specs.Memory.{SourceReading};

    ghost Value = { SourceReading };

    ghost view = { λ s. s.inner };
}

impl Pieces {
    /// A source of which nothing was read. With 0 a read gives as many octets as fit.
    pub fn new(input: Octets, most: u8) -> Self
        ensures { result ≡ record { left = input; taken = [] } }
    {
        Pieces {
            inner: SureSource::new(input),
            most: if most == 0 { usize::MAX } else { most as usize },
        }
    }
}

impl Source for Pieces {
    ghost left = { λ s. Some s.left };

    ghost taken = { λ s. Some s.taken };

    ghost faults = { λ _. 0 };

    fn read(&mut self, buf: &mut [u8]) -> Result<usize, Failed> {
        let n = buf.len().min(self.most).max(1);
        self.inner.read(&mut buf[..n])
    }
}
