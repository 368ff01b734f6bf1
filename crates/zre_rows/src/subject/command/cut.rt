//! An input that is cut into pieces.

use zre_outside::{Failed, MemSource, Source};
use zre_values::{Octets, take_apart};

// The sizes of pieces, and how many were given.
struct Sizes {
    list: Vec<u64>,
    given: usize,
    last: u64,
}

impl Drop for Sizes {
    fn drop(self) {
        take_apart!(self, Sizes: list, given, last);
    }
}

impl Sizes {
    // The next size, or the last one again; no limit where there is none.
    fn next(&mut self) -> usize {
        if let Some(size) = self.list.get(self.given) {
            self.last = *size;
            self.given = self.given.saturating_add(1);
        }
        usize::try_from(self.last).unwrap_or(usize::MAX)
    }
}

/// A source that gives at most so many octets a read: the numbers of a list in order, and then the last of them. It
/// gives one at least.
pub struct Cut {
    inner: MemSource,
    sizes: Sizes,
    /// How many octets it has given.
    pub given: u64,
}

impl Drop for Cut {
    fn drop(self) {
        take_apart!(self, Cut: inner, sizes, given);
    }
}

impl Cut {
    pub fn new(input: Octets, sizes: Vec<u64>, read_fails: Vec<u64>) -> Self {
        Cut {
            inner: MemSource::new(input, read_fails),
            sizes: Sizes {
                list: sizes,
                given: 0,
                last: u64::MAX,
            },
            given: 0,
        }
    }
}

impl Source for Cut {
    ghost use Rattle.std.specs.Prelude.{None};

    ghost left = { λ _. None };

    ghost taken = { λ _. None };

    ghost faults = { λ s. s.inner.faults };

    fn read(&mut self, buf: &mut [u8]) -> Result<usize, Failed> {
        let n = buf.len().min(self.sizes.next()).max(1);
        let done = self.inner.read(&mut buf[..n]);
        if let Ok(given) = &done {
            self.given = self.given.saturating_add(*given as u64);
        }
        done
    }
}
