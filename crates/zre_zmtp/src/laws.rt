//! Laws of streams. What the functions ensure is for proofs: they do nothing, or what their law speaks of.

ghost use Rattle.std.specs.Prelude.{◌≡◌, ℕ, ◌+◌, ◌*◌, ◌≤◌, List, [], length, Option, IfSome, OnOk};
ghost use Rattle.std.specs.List.{concat};
ghost use Rattle.zre_values.specs.declared.peer_id.PeerId.{PeerId};
ghost use Rattle.zre_zmtp.specs.declared.writing.SocketType.{SocketType};
ghost use Rattle.zre_zmtp.specs.Stream.{Want as WantValue, Kind, Any, Traffic};
ghost use Rattle.zre_zmtp.specs.Reading.{Adds};
ghost use Rattle.zre_zmtp.specs.Laws.{AwaitsMessage, IsWithinLimits, ReadsMessage, IsWanted, ReadsHandshake};

use crate::fault::Fed;
use crate::item::Items;
use crate::looks::Steps;
use crate::reader::Reader;
use std::alloc::Global;
use std::sync::ledger::Ledger;
use zre_values::Frames;

/// Whatever stream a message within the limits is written after, it is read as that message.
pub fn messages_are_read()
    ensures { (want : WantValue) (kind : Kind) (o : List ℕ) (message : List (List ℕ)) →
        AwaitsMessage want kind o → IsWithinLimits message → ReadsMessage want kind o message }
{}

/// The greeting and READY of a node are read as what they say, where READY is the one that is wanted.
pub fn handshakes_are_read()
    ensures { (want : WantValue) (kind : SocketType) (identity : Option PeerId) →
        IfSome identity (λ id. length id.0 ≡ 16) → IsWanted want kind identity →
        ReadsHandshake want kind identity }
{}

/// However traffic of n octets is cut, a reader of it takes at most 4n looks: at a frame of 49 octets 196, also where
/// each octet comes alone.
pub fn looks_are_few<L: Ledger>(
    alloc: Global,
    pieces: &Frames,
    out: &mut Items,
    steps: &mut Steps<L>,
) -> Fed
    ensures read { OnOk result (Adds Any Traffic [] (concat pieces.now) out.old out.new) }
    ensures once { steps.new ≤ steps.old + length (concat pieces.now) }
    ensures looks { steps.new ≤ steps.old + 4 * length (concat pieces.now) }
{
    let mut reader = Reader::traffic(alloc);
    reader.feed_pieces_counted(pieces, out, steps)
}
