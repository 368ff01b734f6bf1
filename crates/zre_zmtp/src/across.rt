//! Pieces that hold octets of both frames of a message: they are taken without an item.

ghost use Rattle.std.specs.Prelude.{◌≡◌, ◌≢◌, ◌+◌, ◌≤◌, true, [], ◌++◌, length, Some, Ok, IfOk, IfSome, OnOk};
ghost use Rattle.zre_values.specs.declared.limits.TheConstants.{MESSAGE_OCTETS};
ghost use Rattle.zre_zmtp.specs.Frame.{header_of, header_len as header_len_of};
ghost use Rattle.zre_zmtp.specs.Frame.{is_message as message_test, has_more as more_test};
ghost use Rattle.zre_zmtp.specs.Looks.{IsPaid};
ghost use Rattle.zre_zmtp.specs.Shown.{held, before_of, left_of};
ghost use Rattle.zre_zmtp.specs.Lending.{TakesPiece, LooksIfTaken, IsBetweenFrames, IsInBody};
ghost use Rattle.zre_zmtp.specs.Across.{Follows, octets_of, mid_of, Crosses};

use crate::bodies::{Bodies, Came, LentBodies, Taken};
use crate::expected::Expected;
use crate::header::{Header, has_more, header_len, is_message, read_header};
use crate::looks::Steps;
use crate::progress::Progress;
use crate::turns::end_of;
use std::sync::ledger::Ledger;
use zre_values::limits::MESSAGE_OCTETS;
use zre_values::{Octets, OutOfMemory};

/// The second frame of a message, as far as it is there: its header is whole.
#[derive(Clone, Copy)]
pub struct Second<'a> {
    /// What the header says.
    pub header: Header,
    /// The octets of the header.
    pub head: &'a [u8],
    /// What there is of the body.
    pub body: &'a [u8],
}

/// What stands after the first frame of a message.
#[derive(Clone, Copy)]
pub enum Next<'a> {
    /// No octet.
    Nothing,
    /// A part of a header.
    Head(&'a [u8]),
    /// A frame whose body isn't whole.
    Part(Second<'a>),
    /// The last frame of the message, and nothing after it.
    Last(Second<'a>),
}

// What these octets are after a first frame with a body of so many octets, unless they are something else.
#[inline(always)]
fn next_in(size: u64, octets: &[u8]) -> Option<Next<'_>>
    ensures follows { IfSome result (λ next. Follows size next) }
    ensures all { IfSome result (λ next. octets.now ≡ octets_of next) }
    ensures room { IfSome result (λ next. size ≤ MESSAGE_OCTETS) }
{
    let room = (MESSAGE_OCTETS as u64).checked_sub(size)?;
    if octets.is_empty() {
        return Some(Next::Nothing);
    }
    let Some(header) = read_header(octets) else {
        return if is_message(octets[0]) {
            Some(Next::Head(octets))
        } else {
            None
        };
    };
    if !is_message(header.flags) || header.size > room {
        return None;
    }
    let (head, body) = octets.split_at(header_len(octets));
    let len = body.len() as u64;
    if len < header.size {
        return Some(Next::Part(Second { header, head, body }));
    }
    if len > header.size || has_more(header.flags) {
        return None;
    }
    Some(Next::Last(Second { header, head, body }))
}

impl Progress {
    // The first frame of a message ends with these octets, and another is to come: its body is kept. Its header has so
    // many octets. The room that a body had goes round.
    #[inline(always)]
    fn keep_first<L: Ledger>(
        &mut self,
        front: &[u8],
        header_len: usize,
        first: &mut Octets,
        steps: &mut Steps<L>,
    ) -> Result<(), OutOfMemory>
        // No frame of the message was kept before.
        requires traffic { self.old.expected ≡ Expected.Traffic }
        requires alone { self.old.opened ≡ [] }
        // What is kept.
        ensures before { OnOk result
            (before_of self.new ≡ mid_of self.old header_len (self.old.partial.body ++ front.now)) }
        ensures head { OnOk result (self.new.partial.head ≡ []) }
        ensures body { OnOk result (self.new.partial.body ≡ []) }
        // How many octets are looked at.
        ensures once { steps.new ≤ steps.old + length front.now }
    {
        self.partial.end_in(front, first, steps)?;
        let Some(end) = end_of(self.place, header_len, first.len()) else {
            return Err(OutOfMemory);
        };
        self.opened.push_from(self.alloc, first)?;
        self.place = end;
        Ok(())
    }

    // The first frame of a message ends with these octets, and after it stands what is told. Its header has so many.
    #[inline(always)]
    fn cross<'a, L: Ledger>(
        &mut self,
        header_len: usize,
        front: &'a [u8],
        next: Next<'a>,
        first: &'a mut Octets,
        steps: &mut Steps<L>,
    ) -> Taken<'a>
        requires traffic { self.old.expected ≡ Expected.Traffic }
        requires alone { self.old.opened ≡ [] }
        requires follows { Follows (length self.old.partial.body + length front.now) next }
        ensures taken { IfOk result (λ came. Crosses came self.old self.new header_len
            (self.old.partial.body ++ front.now) (octets_of next.entry)) }
        ensures some { result ≢ Ok Came.Other }
        // Each octet is looked at once at most.
        ensures once { steps.new ≤ steps.old + (length front.now + length (octets_of next.entry)) }
        ensures looks { OnOk result (IsPaid steps.old steps.new (length self.old.partial.body) (held self.new)
            (length front.now + length (octets_of next.entry))) }
    {
        let Second { header, head, body } = match next {
            Next::Last(second) => {
                let whole = self.partial.end(front, first, steps)?;
                let Some(place) = end_of(self.place, header_len, whole.len()) else {
                    return Err(OutOfMemory);
                };
                let Some(end) = end_of(place, second.head.len(), second.body.len()) else {
                    return Err(OutOfMemory);
                };
                self.place = end;
                self.start = end;
                return Ok(Came::Message(LentBodies {
                    first: whole,
                    second: Some(second.body),
                }));
            }
            Next::Nothing => {
                self.keep_first(front, header_len, first, steps)?;
                return Ok(Came::Part);
            }
            Next::Head(head) => {
                self.keep_first(front, header_len, first, steps)?;
                self.partial.begin_head(head);
                return Ok(Came::Part);
            }
            Next::Part(second) => second,
        };
        self.keep_first(front, header_len, first, steps)?;
        self.partial.begin(header, head, body, steps)?;
        Ok(Came::Part)
    }

    // A piece comes that holds all that the first frame of a message misses, where the header of that is known.
    #[inline(always)]
    pub(crate) fn go_past<'a, L: Ledger>(
        &mut self,
        header: Header,
        piece: &'a [u8],
        bodies: &'a mut Bodies,
        steps: &mut Steps<L>,
    ) -> Taken<'a>
        // The frame of this header is the first of a message, and ends in the piece.
        requires in_body { IsInBody self.old header }
        requires message { message_test header.flags ≡ true }
        requires more { more_test header.flags ≡ true }
        requires all { header.size ≤ length self.old.partial.body + length piece.now }
        // What the piece brings.
        ensures taken { IfOk result (λ came. TakesPiece came self.old self.new piece.now) }
        // How many octets are looked at.
        ensures looks { LooksIfTaken steps.old steps.new (held self.old) (held self.new) (length piece.now) result }
    {
        if self.opened.len() > 0 {
            return Ok(Came::Other);
        }
        let missing = header.size - self.partial.body.len() as u64;
        let (front, rest) = piece.split_at(missing as usize);
        let Some(next) = next_in(header.size, rest) else {
            return Ok(Came::Other);
        };
        let header_len = self.partial.head.len();
        self.cross(header_len, front, next, &mut bodies.first, steps)
    }

    // A piece comes that begins a message, and holds all of its first frame, with this header.
    #[inline(always)]
    pub(crate) fn begin_past<'a, L: Ledger>(
        &mut self,
        piece: &'a [u8],
        header: Header,
        bodies: &'a mut Bodies,
        steps: &mut Steps<L>,
    ) -> Taken<'a>
        // The piece begins a frame, and holds all of it.
        requires between { IsBetweenFrames self.old }
        requires header { header_of piece.now ≡ Some header }
        requires all { header_len_of piece.now + header.size ≤ length piece.now }
        // What the piece brings.
        ensures taken { IfOk result (λ came. TakesPiece came self.old self.new piece.now) }
        // How many octets are looked at.
        ensures looks { LooksIfTaken steps.old steps.new (held self.old) (held self.new) (length piece.now) result }
    {
        if self.opened.len() > 0 || !is_message(header.flags) || !has_more(header.flags) {
            return Ok(Came::Other);
        }
        let (head, later) = piece.split_at(header_len(piece));
        let (front, rest) = later.split_at(header.size as usize);
        let Some(next) = next_in(header.size, rest) else {
            return Ok(Came::Other);
        };
        self.cross(head.len(), front, next, &mut bodies.first, steps)
    }
}
