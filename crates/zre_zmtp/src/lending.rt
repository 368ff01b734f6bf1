//! Pieces that end a message or are a part of one: they are taken without an item.

ghost use Rattle.std.specs.Prelude.{◌≡◌, ◌+◌, ◌≤◌, [], ◌∷◌, ◌++◌, length, IfOk, IfSome, OnOk};
ghost use Rattle.zre_zmtp.specs.Shown.{held};
ghost use Rattle.zre_zmtp.specs.Lending.{bodies_in, IsLast, EndsWith, TakesPiece, LooksIfTaken};
ghost use Rattle.zre_zmtp.specs.Lending.{IsBetweenFrames, IsInBody};

use crate::bodies::{Bodies, Came, LentBodies, Taken};
use crate::expected::Expected;
use crate::faults::fault_of_whole;
use crate::front::frame_at;
use crate::header::{Header, has_more, header_len, is_message, read_header};
use crate::looks::Steps;
use crate::progress::Progress;
use crate::turns::end_of;
use std::sync::ledger::Ledger;
use zre_values::limits::MESSAGE_OCTETS;
use zre_values::{Octets, OutOfMemory};

// The last frame of a message, which these octets are, with no larger a body than there is room for.
#[inline(always)]
fn last_in(octets: &[u8], room: u64) -> Option<(Header, &[u8])>
    ensures { IfSome result (λ found. IsLast found.0 found.1.now octets.now × (length found.1.now ≤ room)) }
{
    let (header, body, rest) = frame_at(octets)?;
    if has_more(header.flags) || !rest.is_empty() || body.len() as u64 > room {
        return None;
    }
    Some((header, body))
}

impl Progress {
    // The message ends with a frame whose header has so many octets, and whose body lies here. The body of the frame
    // before it goes where there is room for it.
    #[inline(always)]
    fn end_lent<'a>(
        &mut self,
        header_len: usize,
        body: &'a [u8],
        first: &'a mut Octets,
    ) -> Result<LentBodies<'a>, OutOfMemory>
        requires { length self.old.opened ≤ 1 }
        ensures bodies { IfOk result (λ lent. bodies_in lent ≡ self.old.opened ++ body.now ∷ []) }
        ensures after { OnOk result (self.new ≡ record self.old {
          place = self.old.place + (header_len + length body.now);
          start = self.old.place + (header_len + length body.now);
          opened = [];
        }) }
    {
        let Some(end) = end_of(self.place, header_len, body.len()) else {
            return Err(OutOfMemory);
        };
        self.place = end;
        self.start = end;
        if self.opened.len() == 0 {
            let second = None;
            return Ok(LentBodies {
                first: body,
                second,
            });
        }
        self.opened.give(first);
        Ok(LentBodies {
            first: first.as_slice(),
            second: Some(body),
        })
    }

    // A piece comes, where the header of the unfinished frame is known.
    #[inline(always)]
    pub(crate) fn go_on<'a, L: Ledger>(
        &mut self,
        header: Header,
        piece: &'a [u8],
        bodies: &'a mut Bodies,
        steps: &mut Steps<L>,
    ) -> Taken<'a>
        requires { IsInBody self.old header }
        ensures taken { IfOk result (λ came. TakesPiece came self.old self.new piece.now) }
        ensures looks { LooksIfTaken steps.old steps.new (held self.old) (held self.new) (length piece.now) result }
    {
        let missing = header.size - self.partial.body.len() as u64;
        let len = piece.len() as u64;
        if len < missing {
            self.partial.add(piece, steps)?;
            return Ok(Came::Part);
        }
        if !is_message(header.flags) {
            return Ok(Came::Other);
        }
        if has_more(header.flags) {
            return self.go_past(header, piece, bodies, steps);
        }
        if len > missing || self.opened.len() > 1 {
            return Ok(Came::Other);
        }
        let header_len = self.partial.head.len();
        let Bodies { first, last } = bodies;
        let body = self.partial.end(piece, last, steps)?;
        let lent = self.end_lent(header_len, body, first)?;
        Ok(Came::Message(lent))
    }

    // The second frame of a message, which these octets are, and which ends it.
    #[inline(always)]
    fn last_frame<'a>(&self, octets: &'a [u8]) -> Option<(Header, &'a [u8])>
        ensures { IfSome result (λ found. EndsWith self.now found.0 found.1.now octets.now) }
    {
        if self.opened.len() != 1 {
            return None;
        }
        let room = (MESSAGE_OCTETS as u64).checked_sub(self.opened.octets())?;
        last_in(octets, room)
    }

    // A piece comes that begins a frame: it is the last one of a message whose first frame is there, or a part of one.
    #[inline(always)]
    fn begin<'a, L: Ledger>(
        &mut self,
        piece: &'a [u8],
        bodies: &'a mut Bodies,
        steps: &mut Steps<L>,
    ) -> Taken<'a>
        requires { IsBetweenFrames self.old }
        ensures taken { IfOk result (λ came. TakesPiece came self.old self.new piece.now) }
        ensures looks { LooksIfTaken steps.old steps.new (held self.old) (held self.new) (length piece.now) result }
    {
        if let Some((_, body)) = self.last_frame(piece) {
            let header_len = piece.len() - body.len();
            let lent = self.end_lent(header_len, body, &mut bodies.first)?;
            return Ok(Came::Message(lent));
        }
        let Some(header) = read_header(piece) else {
            return Ok(self.begin_head(piece));
        };
        let (head, later) = piece.split_at(header_len(piece));
        if header.size <= later.len() as u64 {
            return self.begin_past(piece, header, bodies, steps);
        }
        if let Some(_) = fault_of_whole(self, header) {
            return Ok(Came::Other);
        }
        self.partial.begin(header, head, later, steps)?;
        Ok(Came::Part)
    }

    /// Takes a piece that ends a message of one or two frames, or is a part of a frame, with no item made.
    #[inline(always)]
    pub(crate) fn take_piece<'a, L: Ledger>(
        &mut self,
        piece: &'a [u8],
        bodies: &'a mut Bodies,
        steps: &mut Steps<L>,
    ) -> Taken<'a>
        ensures taken { IfOk result (λ came. TakesPiece came self.old self.new piece.now) }
        ensures looks { LooksIfTaken steps.old steps.new (held self.old) (held self.new) (length piece.now) result }
    {
        if self.expected != Expected::Traffic {
            return Ok(Came::Other);
        }
        match self.partial.header {
            Some(header) => self.go_on(header, piece, bodies, steps),
            None if self.partial.head.len() == 0 => self.begin(piece, bodies, steps),
            None => self.end_head(piece, bodies, steps),
        }
    }
}
