//! What comes back.

ghost use Rattle.std.specs.Prelude.{◌≡◌, ℕ, ◌+◌, ◌≤◌, List, [], ◌++◌, length, None, IfOk, OnOk, IfErr, OnErr};
ghost use Rattle.zre_values.specs.declared.limits.TheConstants.{MESSAGE_OCTETS, COMMAND_OCTETS};
ghost use Rattle.zre_zmtp.specs.Reading.{Reads as IsAfter, Refuses, kept};
ghost use Rattle.zre_zmtp.specs.Looks.{Looks};
ghost use Rattle.zre_zmtp.specs.Ping.{contexts_in};
ghost use Rattle.zre_zmtp.specs.Stream.{Whole};
ghost use Rattle.zre_zmtp.specs.declared.want.Want.TheVariants.{Router};
ghost use Rattle.zre_link.specs.Heard.{reply_fault, new_pings, awaited, heard_after, held_of, expected_of};

use crate::awaits::Awaits;
use crate::hearing::Hearing;
use std::alloc::Global;
use std::marker::Model;
use std::sync::ledger::Ledger;
use zre_values::take_apart;
use zre_zmtp::{Fed, FeedFault, Items, Reader, Steps, Want};

/// The replies on a link, read as the stream of a ROUTER.
pub struct Replies {
    awaits: Awaits,
    hearing: Hearing,
}

impl Drop for Replies {
    fn drop(self) {
        take_apart!(self, Replies: awaits, hearing);
    }
}

impl Model for Replies {
    ghost use Rattle.zre_link.specs.Heard.{Heard, expected_of};

    ghost Value = { Heard };

    ghost view = { λ r. record { awaits = expected_of r.awaits; hearing = r.hearing } };
}

impl Awaits {
    // Reads a piece into an empty list, and notes what is awaited after it.
    fn read_piece<L: Ledger>(
        &mut self,
        reader: &mut Reader,
        piece: &[u8],
        out: &mut Items,
        steps: &mut Steps<L>,
    ) -> Fed
        requires { out.old ≡ [] }
        // What the piece brings.
        ensures ok { (o : List ℕ) → IsAfter Router Whole o reader.old → expected_of self.old ≡ awaited o →
            OnOk result (IsAfter Router Whole (o ++ piece.now) reader.new
            × (expected_of self.new ≡ awaited (o ++ piece.now))
            × (contexts_in out.new ≡ new_pings o piece.now)) }
        // What a refusal tells, and what it leaves.
        ensures refused { (o : List ℕ) → IsAfter Router Whole o reader.old → expected_of self.old ≡ awaited o →
            IfErr result (λ e. Refuses e (reply_fault (o ++ piece.now))
            ((expected_of self.new ≡ awaited (o ++ piece.now)) × (contexts_in out.new ≡ new_pings o piece.now))) }
        // How many octets are looked at.
        ensures once { steps.new ≤ steps.old + length piece.now }
        ensures looks { Looks steps.old steps.new (kept reader.old) (kept reader.new) (length piece.now) result }
    {
        if reader.spent() {
            return Err(FeedFault::OutOfMemory);
        }
        let fed = reader.feed_counted(piece, out, steps);
        *self = self.after(out.len());
        match fed {
            Ok(()) => Ok(()),
            Err(fault) => Err(fault),
        }
    }
}

impl Replies {
    /// No octet has come yet.
    pub fn new(alloc: Global) -> Self
        ensures { result ≡ heard_after [] }
    {
        Replies {
            awaits: Awaits::Greeting,
            hearing: Hearing::Reads(Reader::wanting(alloc, Want::Router)),
        }
    }

    /// Reads one more piece into an empty list. A refusal stays, and is told of each further piece.
    pub fn feed<L: Ledger>(&mut self, piece: &[u8], out: &mut Items, steps: &mut Steps<L>) -> Fed
        // The list is empty.
        requires { out.old ≡ [] }
        // What is read, and what becomes whole.
        ensures ok { (o : List ℕ) → self.old ≡ heard_after o →
            OnOk result ((reply_fault (o ++ piece.now) ≡ None) × (self.new ≡ heard_after (o ++ piece.now))
            × (contexts_in out.new ≡ new_pings o piece.now)) }
        ensures refused { (o : List ℕ) → self.old ≡ heard_after o →
            IfErr result (λ e. Refuses e (reply_fault (o ++ piece.now)) ((self.new ≡ heard_after (o ++ piece.now))
            × (contexts_in out.new ≡ new_pings o piece.now))) }
        // How many octets are looked at.
        ensures once { steps.new ≤ steps.old + length piece.now }
        ensures looks { Looks steps.old steps.new (held_of self.old) (held_of self.new) (length piece.now) result }
        // After a refusal no octets are held.
        ensures emptied { OnErr result (held_of self.new ≡ 0) }
    {
        let reader = match &mut self.hearing {
            Hearing::Reads(reader) => reader,
            Hearing::Refused(fault) => return Err(*fault),
        };
        match self.awaits.read_piece(reader, piece, out, steps) {
            Ok(()) => Ok(()),
            Err(fault) => {
                self.hearing = Hearing::Refused(fault);
                Err(fault)
            }
        }
    }

    /// What the other end has to send next.
    pub fn awaits(&self) -> Awaits
        ensures { expected_of result ≡ self.now.awaits }
    {
        self.awaits
    }

    /// How many octets are held: those of the bodies of an unfinished message, and those of an unfinished greeting or
    /// frame.
    pub fn kept(&self) -> u64
        ensures { (o : List ℕ) → self.now ≡ heard_after o →
            (result ≡ held_of (heard_after o)) × (result ≤ MESSAGE_OCTETS + 9 + COMMAND_OCTETS) }
    {
        match &self.hearing {
            Hearing::Reads(reader) => reader.kept(),
            Hearing::Refused(_) => 0,
        }
    }
}
