//! What a node is asked between its steps. After OutOfMemory nothing is said of the answers.

ghost use Rattle.std.specs.Prelude.{◌≡◌, ◌<◌, ◌≤◌, ℕ, List, [], Some, None, is_some, length, option_map};
ghost use Rattle.std.specs.Prelude.{option_copied, IfOk, IfSome};
ghost use Rattle.zre_outside.specs.declared.entry.Entry.{Entry as EntryValue};
ghost use Rattle.zre_journal.specs.Asked.{bound_after, entered_after, front_after, held_after, link_later};
ghost use Rattle.zre_journal.specs.Asked.{unsent_after, view_after, HasFront, HasSome, IsDue};
ghost use Rattle.zre_values.specs.declared.settings.Settings.{Settings as ConfigValue};
ghost use Rattle.zre_journal.specs.Events.{chronicle};
ghost use Rattle.zre_journal.specs.Happens.{has_stopped};
ghost use Rattle.zre_journal.specs.Links.{taken, text};
ghost use Rattle.zre_journal.specs.Peers.{lives};
ghost use Rattle.zre_node.specs.Journal.{StandsFor};
ghost use Rattle.zre_node.specs.Asked.{sent_after, waiting_after, links_after};

use crate::node::Node;
use zre_link::Queue;
use zre_peer::View;
use zre_tables::{Ids, Links};
use zre_values::{OutOfMemory, PeerId};

impl Node {
    /// What the peer with this id has told in its run: its name, its endpoint, its headers and its groups. None where
    /// it isn't entered.
    pub fn peer(&self, id: PeerId) -> Option<&View>
        ensures { (g : ConfigValue) (J : List EntryValue) → StandsFor g J self.now
            → option_copied result ≡ view_after g J id }
    {
        self.tables.peers.view_of(id)
    }

    /// The entered peers, in order of birth.
    pub fn peers(&self) -> Result<Ids, OutOfMemory>
        ensures { (g : ConfigValue) (J : List EntryValue) → StandsFor g J self.now
            → IfOk result (λ ids. ids ≡ entered_after g J) }
    {
        self.tables.peers.entered()
    }

    /// How many peers are known.
    pub fn known(&self) -> usize
        ensures { (g : ConfigValue) (J : List EntryValue) → StandsFor g J self.now
            → result ≡ length (lives (chronicle g J)) }
    {
        self.tables.peers.len()
    }

    /// The link of the peer with this id. None where it isn't known.
    pub fn link_of(&self, id: PeerId) -> Option<u64>
        ensures { (g : ConfigValue) (J : List EntryValue) → StandsFor g J self.now → result ≡ link_later g J id }
    {
        self.tables.peers.link_of(id)
    }

    /// Octets that may go out on a link now: the first of them at least, where there are any. None where the link
    /// isn't that of a known peer.
    pub fn front(&self, link: u64) -> Option<&[u8]>
        ensures front { (g : ConfigValue) (J : List EntryValue) → StandsFor g J self.now →
            HasFront (front_after g J link) (option_map (λ r. r.now) result) }
        ensures due { (g : ConfigValue) (J : List EntryValue) → StandsFor g J self.now → IsDue g (chronicle g J) link →
            HasSome (option_map (λ r. r.now) result) }
    {
        match self.tables.peers.get(link) {
            Some(peer) => Some(peer.link.front()),
            None => None,
        }
    }

    /// How many octets wait on a link. None where the link isn't that of a known peer.
    pub fn unsent(&self, link: u64) -> Option<u64>
        ensures { (g : ConfigValue) (J : List EntryValue) → StandsFor g J self.now → result ≡ unsent_after g J link }
    {
        match self.tables.peers.get(link) {
            Some(peer) => Some(peer.link.unsent()),
            None => None,
        }
    }

    /// How many messages were put on a link. None where the link isn't that of a known peer.
    pub fn sent(&self, link: u64) -> Option<u64>
        ensures { (g : ConfigValue) (J : List EntryValue) → StandsFor g J self.now → result ≡ sent_after g J link }
    {
        match self.tables.peers.get(link) {
            Some(peer) => Some(peer.link.sent()),
            None => None,
        }
    }

    /// The octets that wait on a link. None where the link isn't that of a known peer.
    pub fn waiting(&self, link: u64) -> Option<&Queue>
        ensures octets { (g : ConfigValue) (J : List EntryValue) → StandsFor g J self.now
            → option_map (λ r. r.now) result ≡ waiting_after g J link }
        ensures within { (g : ConfigValue) (J : List EntryValue) → StandsFor g J self.now
            → IfSome result (λ _. taken link (chronicle g J) ≤ length (text g link (chronicle g J))) }
    {
        match self.tables.peers.get(link) {
            Some(peer) => Some(peer.link.waiting()),
            None => None,
        }
    }

    /// The links of the known peers, in order of birth.
    pub fn links(&self) -> Result<Links, OutOfMemory>
        ensures { (g : ConfigValue) (J : List EntryValue) → StandsFor g J self.now
            → IfOk result (λ links. links ≡ links_after g J) }
    {
        self.tables.peers.links()
    }

    /// How many octets the node keeps. Of each connection that is heard, and of the replies on each link, they are
    /// those of the bodies of an unfinished message and of an unfinished greeting or frame; of each link those that
    /// wait; of each entered peer the name, the endpoint, the headers and the groups that it has told; and of the
    /// node itself the name, the headers and the groups. Neither room that lists keep in reserve is counted nor what
    /// is of one size in each row.
    pub fn held(&self) -> u64
        ensures exact { (g : ConfigValue) (J : List EntryValue) → StandsFor g J self.now → result ≡ held_after g J }
        ensures within { (g : ConfigValue) (J : List EntryValue) → StandsFor g J self.now → result ≤ bound_after g J }
    {
        self.tables.octets()
    }

    /// Whether the node has stopped.
    pub fn stopped(&self) -> bool
        ensures { (g : ConfigValue) (J : List EntryValue) → StandsFor g J self.now
            → result ≡ has_stopped (chronicle g J) }
    {
        self.tables.stopped
    }
}
