//! Octets of connections come.

ghost use Rattle.std.specs.Prelude.{◌≡◌, ◌≤◌, ◌<◌, ◌-◌, List, Some, true, IfOk, OnOk};
ghost use Rattle.zre_net.specs.declared.moves.Move.TheVariants as MoveValue;
ghost use Rattle.zre_net.specs.Comes.{with_move};
ghost use Rattle.zre_net.specs.History.{Happening};
ghost use Rattle.zre_net.specs.Lists.{nth as nth_of};
ghost use Rattle.zre_net.specs.Numbers.{CarriedConn, conns};
ghost use Rattle.zre_net.specs.Rows.{has_waiting, IsHeard};
ghost use Rattle.zre_net.specs.Running.{StandsAfter, IsPlayed};

use crate::running::network::Network;
use crate::running::nth::{nth, place_of};
use crate::running::rows::Carrier;
use bytes::Bytes;
use zre_outside::Input;
use zre_values::{Octets, OutOfMemory};

// The next octets of a connection, of one part: so many of them at most. They complete one place at most.
fn hear(carrier: &mut Carrier, most: u64) -> Result<Bytes, OutOfMemory>
    ensures { IfOk result (λ b. IsHeard carrier.old most b carrier.new) }
{
    let octets = carrier.waiting.take(most)?;
    if carrier.read_side.hear(octets.as_slice())? > 1 {
        return Err(OutOfMemory);
    }
    Ok(octets)
}

impl Network {
    // The next octets of a connection come to the start at which it opened: so many of them at most. They are of one
    // part, so that no more than one part is copied, and no more than one message comes. Gives how many came.
    fn hand(&mut self, to: u64, conn: u64, most: u64, at: u64) -> Result<u64, OutOfMemory>
        // So many wait.
        requires { has_waiting most (nth_of conn self.old.conns.items) ≡ true }
        // One comes at least, if any is to; the others still wait.
        ensures few { IfOk result (λ count. count ≤ most) }
        ensures some { 0 < most → IfOk result (λ count. 0 < count) }
        ensures waiting { IfOk result (λ count. has_waiting (most - count) (nth_of conn self.new.conns.items) ≡ true) }
        // What comes is a piece.
        ensures come { (H : List Happening) (c : CarriedConn) →
            StandsAfter H self.old → nth_of conn (conns H) ≡ Some c →
            to ≡ c.to.number →
            IfOk result (λ count. StandsAfter (with_move (MoveValue.Piece conn count at) H) self.new) }
    {
        let Some(place) = place_of(self.conns.as_slice(), conn) else {
            unreachable!();
        };
        let octets = hear(&mut self.conns[place], most)?;
        let count = octets.len() as u64;
        let Some(pending) = self.pending.checked_sub(count) else {
            return Err(OutOfMemory);
        };
        self.pending = pending;
        let bytes = Octets::copy(self.alloc, octets.as_slice())?;
        self.step(to, at, Input::Piece { conn, bytes })?;
        Ok(count)
    }

    // So many octets come, part by part: cut or not, a piece brings about the same.
    fn hand_all(&mut self, to: u64, conn: u64, count: u64, at: u64) -> Result<(), OutOfMemory>
        requires { has_waiting count (nth_of conn self.old.conns.items) ≡ true }
        ensures { (H : List Happening) (c : CarriedConn) → StandsAfter H self.old → nth_of conn (conns H) ≡ Some c →
            to ≡ c.to.number → OnOk result (StandsAfter (with_move (MoveValue.Piece conn count at) H) self.new) }
    {
        let mut left = count - self.hand(to, conn, count, at)?;
        'parts: while left > 0 {
            let came = self.hand(to, conn, left, at)?;
            left -= came;
        }
        Ok(())
    }

    // Whether so many octets wait on a connection, where it is there.
    fn has_waiting(&self, conn: u64, count: u64) -> bool
        ensures { result ≡ has_waiting count (nth_of conn self.now.conns.items) }
    {
        match nth(self.conns.as_slice(), conn) {
            Some(carrier) => count <= carrier.waiting.len(),
            None => false,
        }
    }

    /// The next octets of a connection come.
    pub(crate) fn piece(&mut self, conn: u64, count: u64, at: u64) -> Result<bool, OutOfMemory>
        ensures { (H : List Happening) → StandsAfter H self.old →
            IfOk result (λ may. IsPlayed (MoveValue.Piece conn count at) H may self.new) }
    {
        let Some(to) = self.receiver(conn) else {
            return Ok(false);
        };
        if !self.has_waiting(conn, count) {
            return Ok(false);
        }
        self.hand_all(to, conn, count, at)?;
        Ok(true)
    }
}
