//! One outgoing connection.

ghost use Rattle.std.specs.Prelude.{◌≡◌, ◌≢◌, ℕ, ◌+◌, ◌-◌, ◌<◌, ◌≤◌, Bool, true, false, List, [], ◌++◌};
ghost use Rattle.std.specs.Prelude.{length, drop, None, IfOk, OnOk, IfErr, OnErr};
ghost use Rattle.zre_values.specs.declared.limits.TheConstants.{MESSAGE_OCTETS, COMMAND_OCTETS, UNSENT_OCTETS};
ghost use Rattle.zre_values.specs.declared.peer_id.PeerId.{PeerId as PeerIdValue};
ghost use Rattle.zre_zmtp.specs.Laws.{handshake};
ghost use Rattle.zre_zmtp.specs.declared.writing.SocketType.TheVariants.{Dealer};
ghost use Rattle.zre_zmtp.specs.Looks.{Looks, IsPaid, IsOpenTo};
ghost use Rattle.zre_zmtp.specs.Ping.{contexts_in};
ghost use Rattle.zre_msg.specs.declared.message.Body.TheVariants.{Ping, Shout};
ghost use Rattle.zre_msg.specs.Spelling.{FitsBody, FitsString};
ghost use Rattle.zre_link.specs.Front.{IsFront};
ghost use Rattle.zre_link.specs.Text.{Member, bodies_in, text_of};
ghost use Rattle.zre_link.specs.Heard.{heard_after, held_of};
ghost use Rattle.zre_link.specs.Link.{link_after, gate_at, has_front, front_of, taken_by, unsent_of, slow_at};
ghost use Rattle.zre_link.specs.Link.{answering, Puts, RefusesToPut, Answers, RefusesToAnswer, RefusesReply};
ghost use Rattle.zre_link.specs.Link.{IsOnlyAnswered};

use crate::answers::answer_all;
use crate::awaits::Awaits;
use crate::fault::{PushFault, ReplyFault};
use crate::putting::{NumberedShout, queue_message, queue_ping, queue_shout};
use crate::queue::Queue;
use crate::replies::Replies;
use crate::tail::Tail;
use std::alloc::Global;
use std::marker::{Brand, Model};
use std::mem;
use std::sync::ledger::{Blank, Ledger};
use zre_msg::{Body, Message};
use zre_values::{Octets, OutOfMemory, PeerId, take_apart};
use zre_zmtp::{FeedFault, Item, Items, SocketType, Steps, greeting, ready};

/// The connection of a node to the mailbox of a peer. The node speaks as a DEALER with the identity 01 and its UUID:
/// its greeting, READY, and then the messages that are put, numbered from 1. The octets wait here until the socket
/// takes them, each kind once the other end has come far enough.
pub struct Link {
    alloc: Global,
    queue: Queue,
    /// Where short messages are spelled before they are queued. It's empty between two calls.
    spelled: Octets,
    sent: u64,
    /// All octets so far: those that wait and those that were taken.
    written: u64,
    taken: u64,
    linked: bool,
    replies: Replies,
}

impl Drop for Link {
    fn drop(self) {
        take_apart!(self, Link: alloc, queue, spelled, sent, written, taken, linked, replies);
    }
}

impl Model for Link {
    ghost use Rattle.std.specs.Prelude.{◌≡◌, ◌+◌, ◌≤◌, [], length};
    ghost use Rattle.zre_values.specs.declared.limits.TheConstants.{UNSENT_OCTETS};
    ghost use Rattle.zre_link.specs.Link.{Sending};

    ghost Value = { Sending };

    ghost view = { λ l. record {
      queue = l.queue;
      sent = l.sent;
      written = l.written;
      taken = l.taken;
      linked = l.linked;
      replies = l.replies;
    } };

    ghost invariant = { λ l. (l.taken + length l.queue ≡ l.written)
        × (124 ≤ l.written)
        × (length l.queue ≤ UNSENT_OCTETS)
        × (l.spelled ≡ []) };
}

// The greeting and READY of a node with this UUID.
fn handshake_of(alloc: Global, own: PeerId) -> Result<Queue, OutOfMemory>
    ensures handshake { IfOk result (λ queue. queue ≡ handshake Dealer (Some own)) }
    ensures count { IfOk result (λ queue. length queue ≡ 124) }
{
    let mut queue = Queue::new(alloc, &greeting())?;
    queue.append(ready(alloc, SocketType::Dealer, Some(own))?.as_slice())?;
    Ok(queue)
}

impl Link {
    /// The link of the node with this UUID: its greeting and READY wait, 124 octets.
    pub fn new(alloc: Global, own: PeerId) -> Result<Link, OutOfMemory>
        ensures { IfOk result (λ link. link ≡ link_after own [] false [] 0) }
    {
        Ok(Link {
            alloc,
            queue: handshake_of(alloc, own)?,
            spelled: Octets::new(alloc),
            sent: 0,
            written: 124,
            taken: 0,
            linked: false,
            replies: Replies::new(alloc),
        })
    }

    /// Puts a body: it goes out in a message with the next number. `Slow` comes where more than 4,194,304 octets would
    /// wait then. The body is lent, and handed back as it was.
    pub fn push(&mut self, body: &mut Body) -> Result<(), PushFault>
        // It has a spelling.
        requires { FitsBody body.old }
        // It stands at the end of the line, or is refused and nothing changes.
        ensures ok { Puts result self.old self.new body.old }
        ensures refused { RefusesToPut result self.old body.old }
        ensures unchanged { OnErr result (self.new ≡ self.old) }
        // It is handed back.
        ensures lent { body.new ≡ body.old }
    {
        let Some(sent) = self.sent.checked_add(1) else {
            return Err(PushFault::OutOfMemory);
        };
        let mut message = Message {
            sequence: (sent % 65536) as u16,
            body: Body::Ping,
        };
        mem::swap(&mut message.body, body);
        let queued = queue_message(
            self.alloc,
            &mut self.queue,
            &mut self.spelled,
            self.written,
            &message,
        );
        mem::swap(&mut message.body, body);
        drop(message);
        self.written = queued?;
        self.sent = sent;
        Ok(())
    }

    /// Puts a PING: it goes out in a message with the next number. `Slow` comes where more than 4,194,304 octets would
    /// wait then.
    pub fn push_ping(&mut self) -> Result<(), PushFault>
        ensures ok { Puts result self.old self.new Ping }
        ensures refused { RefusesToPut result self.old Ping }
        ensures unchanged { OnErr result (self.new ≡ self.old) }
    {
        let Some(sent) = self.sent.checked_add(1) else {
            return Err(PushFault::OutOfMemory);
        };
        let number = (sent % 65536) as u16;
        self.written = queue_ping(&mut self.queue, self.written, number)?;
        self.sent = sent;
        Ok(())
    }

    /// Puts a SHOUT to this group with the content of the tail: it goes out in a message with the next number. `Slow`
    /// comes where more than 4,194,304 octets would wait then.
    pub fn push_shout(&mut self, group: &[u8], tail: &Tail) -> Result<(), PushFault>
        // The group has a spelling.
        requires { FitsString group.now }
        // It stands at the end of the line, or is refused and nothing changes.
        ensures ok { Puts result self.old self.new (Shout group.now tail.now) }
        ensures refused { RefusesToPut result self.old (Shout group.now tail.now) }
        ensures unchanged { OnErr result (self.new ≡ self.old) }
    {
        let Some(sent) = self.sent.checked_add(1) else {
            return Err(PushFault::OutOfMemory);
        };
        let number = (sent % 65536) as u16;
        let shout = NumberedShout {
            sequence: number,
            group,
            tail,
        };
        self.written = queue_shout(&mut self.queue, &mut self.spelled, self.written, &shout)?;
        self.sent = sent;
        Ok(())
    }

    /// Says that the connection is established: from now on octets may go out. A second call does nothing.
    pub fn linked(&mut self)
        ensures { (own : PeerIdValue) (line : List Member) (linked : Bool) (o : List ℕ) (n : ℕ) →
            self.old ≡ link_after own line linked o n → self.new ≡ link_after own line true o n }
    {
        self.linked = true;
    }

    /// Whether the connection is established.
    pub fn is_linked(&self) -> bool
        ensures { result ≡ self.now.linked }
    {
        self.linked
    }

    /// Reads one more piece of what comes back, which is the stream of a ROUTER (RFC 23). Each PING that becomes whole
    /// with it is answered by a PONG at the end of what waits; other commands and messages are dropped. `Slow` comes at
    /// the first PONG with which more than 4,194,304 octets would wait: those before it were put, and no fault is
    /// told. A fault stays: each further piece is refused with it. After OutOfMemory any octets of the replies may
    /// be held, and any of the PONGs may have been put.
    pub fn reply(&mut self, piece: &[u8]) -> Result<(), ReplyFault>
        // The connection is established.
        requires { self.old.linked ≡ true }
        // What is read, and what is answered.
        ensures ok { Answers result self.old self.new piece.now }
        ensures refused { RefusesToAnswer result self.old self.new piece.now }
        // No body was put, and nothing has gone out.
        ensures only_answered { IsOnlyAnswered self.old self.new }
    {
        self.reply_from::<Brand>(piece, Blank::new(1))
    }

    /// Reads one more piece of what comes back as [`reply`](Link::reply) does, and counts in `steps` how many octets
    /// are looked at: at most as many as the piece has.
    pub fn reply_counted<L: Ledger>(
        &mut self,
        piece: &[u8],
        steps: &mut Steps<L>,
    ) -> Result<(), ReplyFault>
        // The connection is established.
        requires { self.old.linked ≡ true }
        // What is read, and what is answered.
        ensures ok { Answers result self.old self.new piece.now }
        ensures refused { RefusesToAnswer result self.old self.new piece.now }
        // No body was put, and nothing has gone out.
        ensures only_answered { IsOnlyAnswered self.old self.new }
        // How many octets are looked at.
        ensures once { steps.new ≤ steps.old + length piece.now }
        ensures looks { Looks steps.old steps.new (held_of self.old.replies) (held_of self.new.replies)
            (length piece.now) result }
        ensures paid { IfErr result (λ e. e ≢ ReplyFault.OutOfMemory
            → IsPaid steps.old steps.new (held_of self.old.replies)
            (held_of self.new.replies) (length piece.now)) }
    {
        let mut items = Items::new(self.alloc);
        match self.replies.feed(piece, &mut items, steps) {
            Ok(()) => match self.answer(items.as_slice()) {
                Ok(()) => Ok(()),
                Err(slow) => Err(slow),
            },
            Err(FeedFault::Zmtp(fault)) => match self.answer(items.as_slice()) {
                Ok(()) => Err(ReplyFault::Zmtp(fault)),
                Err(slow) => Err(slow),
            },
            Err(FeedFault::OutOfMemory) => Err(ReplyFault::OutOfMemory),
        }
    }

    // `reply_counted` with a counter of its own, for a caller that counts nothing.
    fn reply_from<L: Ledger>(&mut self, piece: &[u8], blank: Blank) -> Result<(), ReplyFault>
        // A count can begin, and the connection is established.
        requires blank { IsOpenTo L.name L.parts blank.name blank.parts }
        requires linked { self.old.linked ≡ true }
        // What is read, and what is answered.
        ensures ok { Answers result self.old self.new piece.now }
        ensures refused { RefusesToAnswer result self.old self.new piece.now }
        // No body was put, and nothing has gone out.
        ensures only_answered { IsOnlyAnswered self.old self.new }
    {
        let mut steps = Steps::<L>::new(blank);
        self.reply_counted(piece, &mut steps)
    }

    // Puts a PONG for each PING among the items, up to the first with which more octets would wait than may.
    fn answer(&mut self, items: &[Item]) -> Result<(), ReplyFault>
        ensures ok { (own : PeerIdValue) (line : List Member) (linked : Bool) (o : List ℕ) (n : ℕ) →
            self.old ≡ link_after own line linked o n →
            OnOk result ((slow_at (unsent_of own line n) (contexts_in items.now) ≡ None)
            × (self.new ≡ link_after own (answering own line n (contexts_in items.now)) linked o n)) }
        ensures refused { (own : PeerIdValue) (line : List Member) (linked : Bool) (o : List ℕ) (n : ℕ) →
            self.old ≡ link_after own line linked o n →
            IfErr result (λ e. RefusesReply e (slow_at (unsent_of own line n) (contexts_in items.now)) None
            (self.new ≡ link_after own (answering own line n (contexts_in items.now)) linked o n)) }
        ensures unchanged { (self.new.sent ≡ self.old.sent) × (self.new.taken ≡ self.old.taken)
            × (self.new.linked ≡ self.old.linked) × (self.new.replies ≡ self.old.replies) }
    {
        answer_all(self.alloc, &mut self.queue, &mut self.written, items)
    }

    /// The first of the octets that may go out now: what is left of the first part that waits, as far as it may go.
    pub fn front(&self) -> &[u8]
        ensures front { (own : PeerIdValue) (line : List Member) (linked : Bool) (o : List ℕ) (n : ℕ) →
            self.now ≡ link_after own line linked o n → IsFront (front_of own line linked o n) result.now }
        ensures not_empty { has_front self.now ≡ true → result.now ≢ [] }
    {
        let part = self.queue.front();
        &part[..self.open().min(part.len())]
    }

    /// Whether there are octets that may go out now.
    pub fn is_offered(&self) -> bool
        ensures { result ≡ has_front self.now }
    {
        self.taken < self.gate()
    }

    /// Removes octets that have gone out: as many as `count`, or all that may go out where they are fewer.
    pub fn took(&mut self, count: u64)
        ensures { (own : PeerIdValue) (line : List Member) (linked : Bool) (o : List ℕ) (n : ℕ) →
            self.old ≡ link_after own line linked o n →
            self.new ≡ link_after own line linked o (taken_by own line linked o n count) }
    {
        let taken = count.min(self.open() as u64);
        self.queue.remove(taken as usize);
        self.taken += taken;
    }

    /// How many octets wait.
    pub fn unsent(&self) -> u64
        ensures unsent { (own : PeerIdValue) (line : List Member) (linked : Bool) (o : List ℕ) (n : ℕ) →
            self.now ≡ link_after own line linked o n →
            (result ≡ unsent_of own line n) × (n ≤ length (text_of own line)) }
        ensures within { result ≤ UNSENT_OCTETS }
    {
        self.queue.len() as u64
    }

    /// The octets that wait.
    pub fn waiting(&self) -> &Queue
        ensures { (own : PeerIdValue) (line : List Member) (linked : Bool) (o : List ℕ) (n : ℕ) →
            self.now ≡ link_after own line linked o n →
            (result.now ≡ drop n (text_of own line)) × (n ≤ length (text_of own line)) }
    {
        &self.queue
    }

    /// How many messages were put.
    pub fn sent(&self) -> u64
        ensures { (own : PeerIdValue) (line : List Member) (linked : Bool) (o : List ℕ) (n : ℕ) →
            self.now ≡ link_after own line linked o n → result ≡ length (bodies_in line) }
    {
        self.sent
    }

    /// How many octets of the replies are held: those of the bodies of an unfinished message, and those of an
    /// unfinished greeting or frame.
    pub fn kept(&self) -> u64
        ensures { (own : PeerIdValue) (line : List Member) (linked : Bool) (o : List ℕ) (n : ℕ) →
            self.now ≡ link_after own line linked o n →
            (result ≡ held_of (heard_after o)) × (result ≤ MESSAGE_OCTETS + 9 + COMMAND_OCTETS) }
    {
        self.replies.kept()
    }

    // How many of all octets may go out.
    fn gate(&self) -> u64
        ensures { result ≡ gate_at self.now.linked self.now.replies.awaits self.now.written }
    {
        if !self.linked {
            return 0;
        }
        match self.replies.awaits() {
            Awaits::Greeting => 64,
            Awaits::Ready => 124,
            Awaits::Traffic => self.written,
        }
    }

    // How many octets of the queue may go out.
    fn open(&self) -> usize
        ensures open { result ≡ gate_at self.now.linked self.now.replies.awaits self.now.written - self.now.taken }
        ensures within { result ≤ length self.now.queue }
    {
        self.gate().saturating_sub(self.taken) as usize
    }
}
