//! Peers are born, and their beacons are heard.

ghost use Rattle.std.specs.Prelude.{◌≡◌, List, ℕ, ◌∷◌, [], OnOk, IfOk, IsSome, false, length};
ghost use Rattle.zre_values.specs.declared.settings.Settings.{Settings as Config};
ghost use Rattle.zre_journal.specs.Chronicle.{Mark, Ends, HearsBeacon};
ghost use Rattle.zre_journal.specs.Peers.{life};
ghost use Rattle.zre_journal.specs.Pushes.{hello, birth};
ghost use Rattle.zre_journal.specs.Happens.{is_welcome as welcome, at_datagram};
ghost use Rattle.zre_beacon.specs.Beacon.{beacon_in};
ghost use Rattle.zre_msg.specs.declared.message.Body.{Body as BodyValue};
ghost use Rattle.zre_msg.specs.Spelling.{FitsBody};
ghost use Rattle.zre_link.specs.Link.{link_after};
ghost use Rattle.zre_link.specs.Text.{Says};
ghost use Rattle.zre_node.specs.Stands.{Keeps, Holds, Did};

use crate::effects::Effects;
use crate::tables::Tables;
use std::alloc::Global;
use zre_beacon::Beacon;
use zre_link::{Link, PushFault};
use zre_msg::{Body, Message};
use zre_outside::Act;
use zre_peer::Cause;
use zre_values::limits::PEERS;
use zre_values::{Endpoint, Frames, Octets, OutOfMemory, Pairs, PeerId};

// A link on which this body is put. HELLO is far from the limit of a link.
fn link_with(alloc: Global, own: PeerId, body: &mut Body) -> Result<Link, OutOfMemory>
    requires { FitsBody body.old }
    ensures { IfOk result (λ link. link ≡ link_after own (Says body.old ∷ []) false [] 0) }
{
    let mut link = Link::new(alloc, own)?;
    match link.push(body) {
        Ok(()) => Ok(link),
        Err(PushFault::OutOfMemory) | Err(PushFault::Slow { .. }) => Err(OutOfMemory),
    }
}

impl Tables {
    // The groups that the node is in, copied.
    fn groups(&self) -> Result<Frames, OutOfMemory>
        ensures { IfOk result (λ groups. groups ≡ self.now.own.groups) }
    {
        let mut groups = Frames::new(self.alloc);
        for i in 0..self.own.len() {
            groups.push(Octets::copy(self.alloc, self.own.get(i))?)?;
        }
        Ok(groups)
    }

    // HELLO, as it is put on a link that is made now.
    fn hello(&self) -> Result<Body, OutOfMemory>
        ensures { IfOk result (λ b. b ≡ BodyValue.Hello self.now.mailbox self.now.own.groups
            self.now.own.status self.now.config.name self.now.config.headers) }
    {
        Ok(Body::Hello {
            endpoint: Octets::copy(self.alloc, self.mailbox.as_slice())?,
            groups: self.groups()?,
            status: self.own.status(),
            name: Octets::copy(self.alloc, self.config.name.as_slice())?,
            headers: Pairs::copy(self.alloc, &self.config.headers)?,
        })
    }

    // A link on which HELLO is put. HELLO of settings that are valid fits, and is far from the limit of a link.
    fn greeted_link(&self) -> Result<Link, OutOfMemory>
        ensures { (g : Config) (H : List Mark) → Keeps g H self.now →
            IfOk result (λ link. link ≡ link_after g.id (Says (hello g H) ∷ []) false [] 0) }
    {
        let mut hello = Message {
            sequence: 1,
            body: self.hello()?,
        };
        if !hello.fits() {
            drop(hello);
            return Err(OutOfMemory);
        }
        let link = link_with(self.alloc, self.config.id, &mut hello.body);
        drop(hello);
        link
    }

    /// A peer is born: a link to its endpoint is asked for, and HELLO is put on it.
    pub fn born(&mut self, out: &mut Effects, id: PeerId, to: Endpoint) -> Result<(), OutOfMemory>
        ensures { (g : Config) (H : List Mark) → Holds g H self.old →
            OnOk result (Did g (birth g id to H) H self.new out.old out.new) }
    {
        let Some(births) = self.births.checked_add(1) else {
            return Err(OutOfMemory);
        };
        let link = self.greeted_link()?;
        self.births = births;
        self.peers.insert(births, id, link, self.clock)?;
        out.pushed.push(births)?;
        out.act(Act::Connect { link: births, to })
    }

    // A beacon of a known peer is heard.
    fn renew(&mut self, link: u64)
        ensures { (g : Config) (H : List Mark) → Holds g H self.old → IsSome (life link H) →
            Holds g (HearsBeacon link ∷ H) self.new }
    {
        self.peers.touch(link, self.clock);
    }

    // Whether a beacon of an unknown peer makes it known.
    fn is_welcome(&self, id: PeerId, port: u16) -> bool
        ensures { result ≡ welcome self.now.config id port (length self.now.peers) }
    {
        port != 0 && id != self.config.id && self.peers.len() < PEERS
    }

    /// A datagram comes.
    pub fn datagram(
        &mut self,
        out: &mut Effects,
        from: [u8; 4],
        bytes: &[u8],
    ) -> Result<(), OutOfMemory>
        ensures { (g : Config) (H : List Mark) → Holds g H self.old →
            OnOk result (Did g (at_datagram g from (beacon_in bytes.now) H) H self.new out.old out.new) }
    {
        let Some(Beacon { id, port }) = Beacon::read(bytes) else {
            return Ok(());
        };
        match self.peers.link_of(id) {
            Some(link) => {
                if port == 0 {
                    return self.end(out, link, Cause::Beacon);
                }
                self.renew(link);
                Ok(())
            }
            None => {
                if !self.is_welcome(id, port) {
                    return Ok(());
                }
                self.born(out, id, Endpoint { addr: from, port })
            }
        }
    }
}
