//! A reader of a stream that comes in pieces.

ghost use Rattle.std.specs.Prelude.{◌≡◌, ℕ, ◌+◌, ◌-◌, ◌^◌, ◌<◌, ◌≤◌, ◌↔◌, min, false, List, [], length};
ghost use Rattle.std.specs.Prelude.{IsErr, IsTrue, IfOk, IfSome};
ghost use Rattle.std.specs.Prelude.{None};
ghost use Rattle.std.specs.List.{concat};
ghost use Rattle.zre_values.specs.declared.limits.TheConstants.{MESSAGE_OCTETS, COMMAND_OCTETS};
ghost use Rattle.zre_zmtp.specs.Stream.{Want as WantValue, Any, Kind, Whole as whole_kind, Traffic as traffic_kind};
ghost use Rattle.zre_zmtp.specs.Stream.{IsAtRest};
ghost use Rattle.zre_zmtp.specs.Shown.{held, StandsAfter, NamesFault};
ghost use Rattle.zre_zmtp.specs.Front.{PassesOn};
ghost use Rattle.zre_zmtp.specs.Lending.{TakesOn, LooksIfTaken};
ghost use Rattle.zre_zmtp.specs.Reading.{Reads, ReadsOn, RefusesOn, kept};
ghost use Rattle.zre_zmtp.specs.Looks.{LooksOnce, IsOpenTo};

use crate::bodies::{Bodies, Came, LentBodies, Taken};
use crate::expected::Expected;
use crate::fault::Fed;
use crate::front::{Front, front_of};
use crate::header::{header_len, read_header};
use crate::item::Items;
use crate::looks::{Steps, Store};
use crate::opened::Opened;
use crate::partial::Partial;
use crate::progress::Progress;
use crate::want::Want;
use std::alloc::Global;
use std::marker::{Brand, Model};
use std::sync::ledger::{Blank, Ledger};
use zre_values::{Frames, take_apart};

impl Progress {
    // Whether a message comes next, or a command, and nothing is unfinished.
    fn at_rest(&self) -> bool
        ensures { IsTrue result → (self.now.expected ≡ Expected.Traffic) × (self.now.opened ≡ [])
            × (self.now.partial.head ≡ []) × (self.now.partial.body ≡ []) }
    {
        self.expected == Expected::Traffic && self.opened.len() == 0 && self.partial.head.len() == 0
    }

    // How many octets come next, where no header is kept whole.
    fn next_len(&self, octets: &[u8]) -> u64
        ensures { 0 < length octets.now → 0 < result }
    {
        if self.expected == Expected::Greeting || self.partial.head.len() > 0 {
            return 1;
        }
        if self.opened.len() == 0 {
            return octets.len() as u64;
        }
        match read_header(octets) {
            Some(header) => header.size.saturating_add(header_len(octets) as u64),
            None => 1,
        }
    }

    // Reads a piece turn by turn. Each octet is looked at once.
    fn read<L: Ledger>(
        &mut self,
        want: &Want,
        piece: &[u8],
        out: &mut Items,
        steps: &mut Steps<L>,
    ) -> Fed
        ensures ok { StandsAfter result want.now self.old self.new piece.now out.old out.new }
        ensures refused { NamesFault result want.now self.old piece.now out.old out.new }
        ensures looks { LooksOnce steps.old steps.new (held self.old) (held self.new) (length piece.now) result }
    {
        let mut rest = piece;
        while !rest.is_empty() {
            let len = self.take_turn(want, rest, out, steps)?;
            let (_, later) = rest.split_at(len);
            rest = later;
        }
        Ok(())
    }
}

/// A reader of a stream, or of traffic alone, that is handed the octets in any pieces. It keeps the octets of the
/// greeting or frame that isn't whole and the bodies of the message that isn't, and looks at each octet once.
pub struct Reader {
    want: Want,
    progress: Progress,
    spent: bool,
}

impl Drop for Reader {
    fn drop(self) {
        take_apart!(self, Reader: want, progress, spent);
    }
}

impl Model for Reader {
    ghost use Rattle.zre_zmtp.specs.Shown.{before_of, left_of};
    ghost use Rattle.zre_zmtp.specs.Reading.{Reading};

    ghost Value = { Reading };

    ghost view = { λ r. record {
      before = before_of r.progress;
      left = left_of r.progress;
      spent = r.spent;
      wanted = r.want;
    } };
}

impl Reader {
    /// Expects a greeting, READY and traffic (RFC 23). Every socket type and every identity is let pass.
    pub fn stream(alloc: Global) -> Self
        ensures { Reads Any whole_kind [] result }
    {
        Reader::expecting(alloc, Want::Any, Expected::Greeting)
    }

    /// Expects a greeting, READY of the peer that is wanted, and traffic.
    pub fn wanting(alloc: Global, want: Want) -> Self
        ensures { Reads want whole_kind [] result }
    {
        Reader::expecting(alloc, want, Expected::Greeting)
    }

    /// Expects traffic alone: what stands after READY.
    pub fn traffic(alloc: Global) -> Self
        ensures { Reads Any traffic_kind [] result }
    {
        Reader::expecting(alloc, Want::Any, Expected::Traffic)
    }

    /// Reads one more piece: the items whose last octet is now there are appended. A fault is told with the very
    /// octet that makes it certain, after the items before it; no octet that comes later changes it or adds an item.
    /// After a refusal the reader is spent. OutOfMemory is also told where a place would be above 2^64 - 1.
    pub fn feed(&mut self, piece: &[u8], out: &mut Items) -> Fed
        requires { self.old.spent ≡ false }
        // What the octets add.
        ensures ok { ReadsOn result self.old self.new piece.now out.old out.new }
        // What a refusal tells, and what it leaves.
        ensures refused { RefusesOn result self.old piece.now out.old out.new }
        ensures spent { IsTrue self.new.spent ↔ IsErr result }
    {
        self.feed_from::<Brand>(piece, out, Blank::new(1))
    }

    /// Reads a piece as `feed` does, and counts looks: one for each octet that is copied out of the piece, and one for
    /// each that is read again while it is kept as a greeting or body that isn't whole. Octets of a header are kept
    /// without a look, and what READY and a command say is copied from a body that is whole, which isn't counted. Looks
    /// and three times what is kept rise by at most four for each octet, so a stream of n octets costs at most 4n
    /// looks, however it is cut.
    pub fn feed_counted<L: Ledger>(
        &mut self,
        piece: &[u8],
        out: &mut Items,
        steps: &mut Steps<L>,
    ) -> Fed
        requires { self.old.spent ≡ false }
        // What the octets add.
        ensures ok { ReadsOn result self.old self.new piece.now out.old out.new }
        // What a refusal tells, and what it leaves.
        ensures refused { RefusesOn result self.old piece.now out.old out.new }
        ensures spent { IsTrue self.new.spent ↔ IsErr result }
        // How many octets are looked at.
        ensures looks { LooksOnce steps.old steps.new (kept self.old) (kept self.new) (length piece.now) result }
    {
        self.spent = true;
        self.progress.read(&self.want, piece, out, steps)?;
        self.spent = false;
        Ok(())
    }

    /// Moves on over the message at the front of some octets, where the reader is at rest in traffic and a message of
    /// one or two frames lies there whole, and gives it: what `feed` of its octets does, but for the item. Else nothing
    /// changes. It copies nothing, so it takes no look.
    #[inline(always)]
    pub fn pass<'a>(&mut self, octets: &'a [u8]) -> Option<Front<'a>>
        ensures passed { IfSome result (λ front. PassesOn self.old self.new front octets.now) }
        ensures none { result ≡ None → self.new ≡ self.old }
        ensures holds_nothing { IfSome result (λ front. (kept self.old ≡ 0) × (kept self.new ≡ 0)) }
    {
        if self.spent || !self.progress.at_rest() {
            return None;
        }
        let front = front_of(octets)?;
        let end = self.progress.place.checked_add(front.len as u64)?;
        self.progress.place = end;
        self.progress.start = end;
        Some(front)
    }

    /// Takes a piece that ends a message of one or two frames, or is a part of a frame, with no item made: what `feed`
    /// does with it, but for the item. Other pieces change nothing. Its octets are looked at as `feed_counted` says.
    #[inline(always)]
    pub fn take<'a, L: Ledger>(
        &mut self,
        piece: &'a [u8],
        bodies: &'a mut Bodies,
        steps: &mut Steps<L>,
    ) -> Taken<'a>
        requires { self.old.spent ≡ false }
        // What it brings, or that it changes nothing.
        ensures taken { IfOk result (λ came. TakesOn came self.old self.new piece.now) }
        ensures spent { IsTrue self.new.spent ↔ IsErr result }
        // How many octets are looked at.
        ensures looks { LooksIfTaken steps.old steps.new (kept self.old) (kept self.new) (length piece.now) result }
    {
        if let Some(front) = self.pass_all(piece) {
            let Front { first, second, .. } = front;
            return Ok(Came::Message(LentBodies { first, second }));
        }
        self.spent = true;
        let came = self.progress.take_piece(piece, bodies, steps)?;
        self.spent = false;
        Ok(came)
    }

    // `pass` of a piece that the message is all of; of others it changes nothing.
    #[inline(always)]
    fn pass_all<'a>(&mut self, piece: &'a [u8]) -> Option<Front<'a>>
        // What it takes.
        requires { self.old.spent ≡ false }
        ensures passed { IfSome result (λ front. PassesOn self.old self.new front piece.now) }
        // The message is all of the piece, and nothing is kept before or after it.
        ensures all { IfSome result (λ front. front.len ≡ length piece.now) }
        ensures none { result ≡ None → self.new ≡ self.old }
        ensures holds_nothing { IfSome result (λ front. (kept self.old ≡ 0) × (kept self.new ≡ 0)) }
    {
        if !self.progress.at_rest() {
            return None;
        }
        let front = front_of(piece)?;
        if front.len != piece.len() {
            return None;
        }
        let end = self.progress.place.checked_add(front.len as u64)?;
        self.progress.place = end;
        self.progress.start = end;
        Some(front)
    }

    /// How many of some octets to feed before [`pass`](Reader::pass) is asked again: those that the unfinished frame
    /// misses, or all where nothing is unfinished.
    pub fn missing(&self, octets: &[u8]) -> usize
        ensures some { 0 < length octets.now → 0 < result }
        ensures within { result ≤ length octets.now }
    {
        let len = match self.progress.partial.header {
            Some(header) => header.size - self.progress.partial.body.len() as u64,
            None => self.progress.next_len(octets),
        };
        len.min(octets.len() as u64) as usize
    }

    // The counted call with a counter of its own, for a caller that counts nothing.
    fn feed_from<L: Ledger>(&mut self, piece: &[u8], out: &mut Items, blank: Blank) -> Fed
        // What a caller knows.
        requires blank { IsOpenTo L.name L.parts blank.name blank.parts }
        requires unspent { self.old.spent ≡ false }
        // What the octets add.
        ensures ok { ReadsOn result self.old self.new piece.now out.old out.new }
        // What a refusal tells, and what it leaves.
        ensures refused { RefusesOn result self.old piece.now out.old out.new }
        ensures spent { IsTrue self.new.spent ↔ IsErr result }
    {
        let mut steps = Steps::<L>::new(blank);
        self.feed_counted(piece, out, &mut steps)
    }

    /// Reads pieces one after another, as if they were one: however a stream is cut, the same items and the same
    /// fault come of it.
    pub fn feed_pieces(&mut self, pieces: &Frames, out: &mut Items) -> Fed
        requires { self.old.spent ≡ false }
        // What the octets add.
        ensures ok { ReadsOn result self.old self.new (concat pieces.now) out.old out.new }
        // What a refusal tells, and what it leaves.
        ensures refused { RefusesOn result self.old (concat pieces.now) out.old out.new }
        ensures spent { IsTrue self.new.spent ↔ IsErr result }
    {
        self.feed_pieces_from::<Brand>(pieces, out, Blank::new(1))
    }

    /// Reads pieces as `feed_pieces` does, and counts looks: of n octets there are no more than of one piece with all
    /// of them.
    pub fn feed_pieces_counted<L: Ledger>(
        &mut self,
        pieces: &Frames,
        out: &mut Items,
        steps: &mut Steps<L>,
    ) -> Fed
        requires { self.old.spent ≡ false }
        // What the octets add.
        ensures ok { ReadsOn result self.old self.new (concat pieces.now) out.old out.new }
        // What a refusal tells, and what it leaves.
        ensures refused { RefusesOn result self.old (concat pieces.now) out.old out.new }
        ensures spent { IsTrue self.new.spent ↔ IsErr result }
        // How many octets are looked at.
        ensures looks { LooksOnce steps.old steps.new (kept self.old) (kept self.new) (length (concat pieces.now))
            result }
    {
        for piece in pieces.as_slice() {
            self.feed_counted(piece.as_slice(), out, steps)?;
        }
        Ok(())
    }

    // The counted call with a counter of its own, for a caller that counts nothing.
    fn feed_pieces_from<L: Ledger>(&mut self, pieces: &Frames, out: &mut Items, blank: Blank) -> Fed
        // What a caller knows.
        requires blank { IsOpenTo L.name L.parts blank.name blank.parts }
        requires unspent { self.old.spent ≡ false }
        // What the octets add.
        ensures ok { ReadsOn result self.old self.new (concat pieces.now) out.old out.new }
        // What a refusal tells, and what it leaves.
        ensures refused { RefusesOn result self.old (concat pieces.now) out.old out.new }
        ensures spent { IsTrue self.new.spent ↔ IsErr result }
    {
        let mut steps = Steps::<L>::new(blank);
        self.feed_pieces_counted(pieces, out, &mut steps)
    }

    /// Whether no message is unfinished, and no octet stands after the last item.
    pub fn at_rest(&self) -> bool
        ensures { (want : WantValue) (kind : Kind) (o : List ℕ) → Reads want kind o self.now →
            (IsTrue result ↔ IsAtRest want kind o) }
    {
        self.left_len() == 0 && self.progress.opened.len() == 0
    }

    /// Whether a piece was refused.
    pub fn spent(&self) -> bool
        ensures { result ≡ self.now.spent }
    {
        self.spent
    }

    /// How many octets are kept: those of the bodies of an unfinished message, and those of an unfinished greeting or
    /// frame.
    pub fn kept(&self) -> u64
        ensures { (want : WantValue) (kind : Kind) (o : List ℕ) → Reads want kind o self.now →
            (result ≡ kept self.now) × (result ≤ MESSAGE_OCTETS + 9 + COMMAND_OCTETS) }
    {
        let bodies = self.progress.opened.octets();
        bodies.saturating_add(self.left_len())
    }

    fn left_len(&self) -> u64
        ensures { result ≡ min (length self.now.left) (2 ^ 64 - 1) }
    {
        match self.progress.expected {
            Expected::Greeting => self.progress.greeting.len() as u64,
            Expected::Ready | Expected::Traffic => {
                let head = self.progress.partial.head.len() as u64;
                head.saturating_add(self.progress.partial.body.len() as u64)
            }
        }
    }

    fn expecting(alloc: Global, want: Want, expected: Expected) -> Self
        ensures { result ≡ record {
          before = record { expected = expected; place = 0; opened = []; start = 0 };
          left = [];
          spent = false;
          wanted = want;
        } }
    {
        Reader {
            want,
            progress: Progress {
                alloc,
                expected,
                place: 0,
                opened: Opened::new(alloc),
                start: 0,
                greeting: Store::new(alloc),
                partial: Partial::new(alloc),
            },
            spent: false,
        }
    }
}
