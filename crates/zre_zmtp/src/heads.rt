//! Pieces that end in a header, and those that come after one.

ghost use Rattle.std.specs.Prelude.{◌≡◌, ◌+◌, ◌≤◌, length, None, IfOk};
ghost use Rattle.zre_zmtp.specs.Frame.{header_of};
ghost use Rattle.zre_zmtp.specs.Lending.{TakesPiece, LooksIfTaken, IsBetweenFrames, IsInHeader};
ghost use Rattle.zre_zmtp.specs.Shown.{held};

use crate::bodies::{Bodies, Came, Taken};
use crate::faults::{fault_of_header, fault_of_whole};
use crate::head::Head;
use crate::header::read_header;
use crate::looks::{Steps, Store};
use crate::partial::Partial;
use crate::progress::Progress;
use std::mem;
use std::sync::ledger::Ledger;

impl Progress {
    // A piece comes that is a part of the header of a frame: it is kept, unless something is wrong with it.
    pub(crate) fn begin_head<'a>(&mut self, piece: &[u8]) -> Came<'a>
        // The piece begins a frame, and ends in its header.
        requires between { IsBetweenFrames self.old }
        requires short { header_of piece.now ≡ None }
        // What the piece brings, and how many octets are kept.
        ensures taken { TakesPiece result self.old self.new piece.now }
        ensures held { held self.new ≤ held self.old + length piece.now }
    {
        if let Some(_) = fault_of_header(self, piece) {
            return Came::Other;
        }
        self.partial.begin_head(piece);
        Came::Part
    }

    // A piece comes whose first octet ends the header of the unfinished frame.
    pub(crate) fn end_head<'a, L: Ledger>(
        &mut self,
        piece: &'a [u8],
        bodies: &'a mut Bodies,
        steps: &mut Steps<L>,
    ) -> Taken<'a>
        requires { IsInHeader self.old }
        ensures taken { IfOk result (λ came. TakesPiece came self.old self.new piece.now) }
        ensures looks { LooksIfTaken steps.old steps.new (held self.old) (held self.new) (length piece.now) result }
    {
        if piece.is_empty() {
            return Ok(Came::Other);
        }
        let mut head = Head::of(self.partial.head.as_slice());
        head.push(piece[0]);
        let Some(header) = read_header(head.as_slice()) else {
            return Ok(Came::Other);
        };
        if header.size == 0 {
            return Ok(Came::Other);
        }
        if let Some(_) = fault_of_whole(self, header) {
            return Ok(Came::Other);
        }
        let (_, later) = piece.split_at(1);
        let partial = Partial {
            head,
            header: Some(header),
            body: Store::new(self.alloc),
        };
        let kept = mem::replace(&mut self.partial, partial);
        match self.go_on(header, later, bodies, steps)? {
            Came::Message(lent) => Ok(Came::Message(lent)),
            Came::Part => Ok(Came::Part),
            Came::Other => {
                self.partial = kept;
                Ok(Came::Other)
            }
        }
    }
}
