ghost use Rattle.std.specs.Prelude.{◌≡◌, ◌<◌, ◌≤◌, [], false, length, IfOk};
ghost use Rattle.zre_peer.specs.Standing.{is_spent};

use crate::follow::taking::{take_front, take_items};
use crate::pump::{Going, Machine};
use crate::stream::{going_after, push_end, read_piece};
use std::alloc::Global;
use zre_outside::{NextFault, Sink};
use zre_peer::Teller;
use zre_values::{Octets, OutOfMemory, PeerId};
use zre_zmtp::{Items, Reader, ZmtpFault};

/// The machine of `follow`: the traffic of one connection, after its handshake, of a peer that is known. It keeps
/// the octets of an unfinished message, and reads no more once the run has ended.
#[derive(Drop)]
pub struct Follower {
    alloc: Global,
    reader: Reader,
    fault: Option<ZmtpFault>,
    run: Teller,
    items: Items,
}

impl Follower {
    ghost use Rattle.zre_commands.specs.follow.Follow.{follow};
    ghost use Rattle.zre_commands.specs.follow.Follower.{Fed, peer_of};

    /// Follows a connection of this peer, of which no octet has come yet.
    pub fn new(alloc: Global, id: PeerId) -> Self
        ensures fed { Fed result [] }
        ensures peer { peer_of result ≡ id }
        // No octets have no text, and may go on.
        ensures going { (follow id).is_stopped [] ≡ false }
    {
        Follower {
            alloc,
            reader: Reader::traffic(alloc),
            fault: None,
            run: Teller::new(alloc, id),
            items: Items::new(alloc),
        }
    }
}

impl Follower {
    ghost use Rattle.zre_commands.specs.follow.Follower.{GoesOn, FeedsFront, peer_of};

    // Whether more octets are read.
    fn goes_on(&self) -> bool
        ensures { GoesOn result self.now }
    {
        if self.run.spent() {
            return false;
        }
        if self.reader.spent() {
            return false;
        }
        if self.fault.is_some() {
            return false;
        }
        true
    }

    // Takes octets from the front of these, and appends the text that they add: a message that lies there whole is read
    // where it lies, and else what is unfinished goes on. Gives how many there were.
    fn feed_front(&mut self, octets: &[u8], out: &mut Octets) -> Result<usize, OutOfMemory>
        // What a caller knows.
        requires some { 0 < length octets.now }
        requires running { is_spent self.old.run ≡ false }
        requires reading { self.old.reader.spent ≡ false }
        // What the front of the octets adds.
        ensures fed { FeedsFront result self.old self.new octets.now out.old out.new }
        ensures unchanged { peer_of self.new ≡ peer_of self.old }
        ensures within { IfOk result (λ len. (0 < len) × (len ≤ length octets.now)) }
    {
        if let Some(front) = self.reader.pass(octets) {
            take_front(self.alloc, &front, &mut self.run, out)?;
            return Ok(front.len);
        }
        let len = self.reader.missing(octets);
        let (part, _) = octets.split_at(len);
        self.items.clear();
        let fault = read_piece(&mut self.reader, part, &mut self.items)?;
        take_items(self.alloc, self.items.as_slice(), &mut self.run, out)?;
        self.fault = fault;
        Ok(len)
    }
}

impl Machine for Follower {
    ghost use Rattle.zre_commands.specs.follow.Follow.{follow};
    ghost use Rattle.zre_commands.specs.follow.Follower.{Fed, peer_of};

    ghost fed = { Fed };

    ghost says = { λ f. follow (peer_of f) };

    fn begin(&self, _out: &mut Octets) -> Result<(), OutOfMemory> {
        Ok(())
    }

    #[tactic(auto, using(crate::proofs::follow::TextIsMonotone::text_grows))]
    fn feed(&mut self, piece: &[u8], out: &mut Octets) -> Result<Going, OutOfMemory> {
        if self.run.spent() {
            return Ok(Going::On);
        }
        if self.reader.spent() {
            return Ok(Going::Stop);
        }
        let mut rest = piece;
        while !rest.is_empty() {
            if !self.goes_on() {
                return Ok(going_after(&self.fault, self.run.spent()));
            }
            let len = self.feed_front(rest, out)?;
            let (_, later) = rest.split_at(len);
            rest = later;
        }
        Ok(going_after(&self.fault, self.run.spent()))
    }

    fn finish<O: Sink>(&self, taken: u64, text: &mut Octets, _: &mut O) -> Result<bool, NextFault> {
        if self.run.spent() {
            return Ok(false);
        }
        Ok(push_end(&self.reader, self.fault, taken, text)?)
    }
}
