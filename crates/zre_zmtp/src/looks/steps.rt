//! A count of looks.

ghost use Rattle.std.specs.Prelude.{◌≡◌, ℕ, ◌+◌, ◌<◌, ◌++◌, length, slice_set, slice_index_or, [], IfOk, OnOk};
ghost use Rattle.zre_zmtp.specs.Looks.{IsOpenTo};

use std::alloc::Global;
use std::marker::Model;
use std::sync::ledger::{Blank, Book, Ledger, Share};
use zre_values::{Frames, Octets, OutOfMemory};

/// How many looks were taken. It has no octets and does nothing when the program runs: it is for contracts.
#[derive(Drop)]
pub struct Steps<L: Ledger> {
    book: Book<L>,
    share: Share<L>,
}

impl<L: Ledger> Model for Steps<L> {
    ghost Value = { ℕ };

    ghost view = { λ s. s.book.total };

    ghost invariant = { λ s. 0 < s.share.parts };
}

impl<L: Ledger> Steps<L> {
    /// No look yet.
    pub fn new(blank: Blank) -> Self
        requires { IsOpenTo L.name L.parts blank.name blank.parts }
        ensures { result ≡ 0 }
    {
        let (book, share) = blank.open::<L>();
        Steps { book, share }
    }

    /// So many looks more.
    #[inline]
    pub(super) fn take(&mut self, count: usize)
        ensures { self.new ≡ self.old + count }
    {
        self.book.add(&mut self.share, count as u64);
    }

    /// A copy of these octets, in memory of its own. It is a look at each of them.
    #[inline]
    pub fn copy(&mut self, alloc: Global, octets: &[u8]) -> Result<Octets, OutOfMemory>
        ensures copied { IfOk result (λ copied. copied ≡ octets.now) }
        ensures looks { self.new ≡ self.old + length octets.now }
    {
        self.take(octets.len());
        Octets::copy(alloc, octets)
    }

    /// Appends a copy of these octets to the frame at this place. It is a look at each of them.
    #[inline]
    pub fn append_at(
        &mut self,
        frames: &mut Frames,
        i: usize,
        octets: &[u8],
    ) -> Result<(), OutOfMemory>
        requires { i < length frames.old }
        ensures appended { OnOk result
            (frames.new ≡ slice_set frames.old i (slice_index_or frames.old i [] ++ octets.now)) }
        ensures looks { self.new ≡ self.old + length octets.now }
    {
        self.take(octets.len());
        frames.append_at(i, octets)
    }
}
