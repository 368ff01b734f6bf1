//! The known peers.

ghost use Rattle.std.specs.Prelude.{◌≡◌, ◌+◌, ◌≤◌, ℕ, Bool, true, List, [], ◌∷◌, ◌++◌, Some, None, length};
ghost use Rattle.std.specs.Prelude.{is_some, option_copied, OnOk, OnErr, IfErr, Ok, ◌||◌, nat_lt};
ghost use Rattle.std.specs.BTreeMap.{insert_entry};
ghost use Rattle.std.specs.Ordering.{nat_cmp};
ghost use Rattle.zre_values.specs.declared.limits.TheConstants.{UNSENT_OCTETS};
ghost use Rattle.zre_values.specs.declared.peer_id.PeerId.{PeerId as PeerIdValue};
ghost use Rattle.zre_msg.specs.declared.message.Body.TheVariants.{Shout};
ghost use Rattle.zre_msg.specs.Spelling.{FitsBody, FitsString};
ghost use Rattle.zre_link.specs.Link.{link_after, taken_by, unsent_of, RefusesPush};
ghost use Rattle.zre_link.specs.Text.{Member, Says, size_of};
ghost use Rattle.zre_tables.specs.Rows.{row_at, with_row, without_row};
ghost use Rattle.zre_tables.specs.declared.peer.Peer.{Peer as PeerValue};

use crate::peer::{CarriedRun, Peer};
use crate::rows::Rows;
use std::alloc::Global;
use std::marker::Model;
use zre_link::{Link, PushFault, Tail};
use zre_msg::Body;
use zre_timers::Timers;
use zre_values::{List, OutOfMemory, PeerId};

/// A list of peers.
pub type Ids = List<PeerId>;

/// A list of links, by their numbers.
pub type Links = List<u64>;

/// The known peers by their links. It is seen as the list of its rows.
///
/// Beside the rows stands a moment for each, so that the peers that are due are found without a look at the others. A
/// message costs no work at the moments: they are brought up to date where a search comes to them.
#[derive(Drop)]
pub struct Peers {
    pub(crate) rows: Rows<Peer>,
    // For each link a moment at or after which its peer has shown that it is there.
    pub(crate) heard: Timers,
    // Whether a reading went back, so that the moments say nothing.
    pub(crate) rewound: bool,
    // Whether many were found to be evasive the last time, so that the next search goes over all rows at once.
    pub(crate) many: bool,
    pub(crate) alloc: Global,
}

// A peer has shown that it is there: whether a reading has gone back, with this one.
pub(crate) fn renew(peer: &mut Peer, now: u64, rewound: bool) -> bool
    ensures back { result ≡ (rewound || nat_lt now peer.old.active) }
    ensures only { peer.new ≡ record peer.old { active = now } }
{
    let back = now < peer.active;
    peer.active = now;
    rewound || back
}

impl Model for Peers {
    ghost use Rattle.std.specs.Prelude.{ℕ, List};
    ghost use Rattle.zre_tables.specs.Agreement.{Agree};
    ghost use Rattle.zre_tables.specs.declared.peer.Peer.{Peer as PeerValue};

    ghost Value = { List (ℕ × PeerValue) };

    ghost view = { λ peers. peers.rows.all.items };

    ghost invariant = { λ peers. Agree peers.rows.all.items peers.heard peers.rewound };
}

impl Peers {
    /// No peers. It takes no memory.
    pub fn new(alloc: Global) -> Self
        ensures { result ≡ [] }
    {
        Peers {
            rows: Rows::new(alloc),
            heard: Timers::new(alloc),
            rewound: false,
            many: false,
            alloc,
        }
    }

    /// How many there are.
    pub fn len(&self) -> usize
        ensures { result ≡ length self.now }
    {
        self.rows.all.len()
    }

    /// The peer of this link.
    pub fn get(&self, link: u64) -> Option<&Peer>
        ensures value { option_copied result ≡ row_at link self.now }
    {
        self.rows.get(link)
    }

    /// Whether a peer has this link.
    pub fn contains(&self, link: u64) -> bool
        ensures { result ≡ is_some (row_at link self.now) }
    {
        self.rows.place(link).is_some()
    }

    /// Lists a peer that isn't entered, with its link, or changes nothing where no memory is left.
    pub fn insert(
        &mut self,
        number: u64,
        id: PeerId,
        link: Link,
        now: u64,
    ) -> Result<(), OutOfMemory>
        ensures ok { OnOk result (self.new ≡ insert_entry nat_cmp self.old number
            (record { id = id; active = now; run = None; link = link })) }
        ensures err { OnErr result (self.new ≡ self.old) }
    {
        self.heard.touch(number, 0)?;
        let peer = Peer {
            id,
            active: now,
            run: None,
            link,
        };
        match self.rows.insert(number, peer) {
            Ok(()) => Ok(()),
            Err(none) => {
                self.heard.forget(number);
                Err(none)
            }
        }
    }

    /// Takes the peer of this link out, if there is one.
    pub fn remove(&mut self, link: u64) -> Option<Peer>
        ensures value { result ≡ row_at link self.old }
        ensures rows { self.new ≡ without_row link self.old }
    {
        self.heard.forget(link);
        self.rows.remove(link)
    }

    /// The peer of this link has shown that it is there.
    pub fn touch(&mut self, link: u64, now: u64)
        ensures found { (x : PeerValue) → row_at link self.old ≡ Some x →
            self.new ≡ with_row link (record x { active = now }) self.old }
        ensures missing { row_at link self.old ≡ None → self.new ≡ self.old }
    {
        let Some(at) = self.rows.place(link) else {
            return;
        };
        self.rewound = renew(&mut self.rows.all[at].1, now, self.rewound);
    }

    /// The peer of this link has a run, which shows that it is there.
    pub fn enter(&mut self, link: u64, running: CarriedRun, now: u64)
        ensures found { (x : PeerValue) → row_at link self.old ≡ Some x →
            self.new ≡ with_row link (record x { run = Some running; active = now }) self.old }
        ensures missing { row_at link self.old ≡ None → self.new ≡ self.old }
    {
        let Some(at) = self.rows.place(link) else {
            return;
        };
        let peer = &mut self.rows.all[at].1;
        self.rewound = renew(peer, now, self.rewound);
        peer.run = Some(running);
    }

    /// This link stands from now on.
    pub fn linked(&mut self, link: u64)
        ensures found { (x : PeerValue) (own : PeerIdValue) (line : List Member) (linked : Bool) (o : List ℕ) (n : ℕ)
            → row_at link self.old ≡ Some x → x.link ≡ link_after own line linked o n →
            self.new ≡ with_row link (record x { link = link_after own line true o n }) self.old }
        ensures missing { row_at link self.old ≡ None → self.new ≡ self.old }
    {
        let Some(at) = self.rows.place(link) else {
            return;
        };
        self.rows.all[at].1.link.linked();
    }

    /// So many octets of this link have gone out, or as many as might.
    pub fn took(&mut self, link: u64, count: u64)
        ensures found { (x : PeerValue) (own : PeerIdValue) (line : List Member) (linked : Bool) (o : List ℕ) (n : ℕ)
            → row_at link self.old ≡ Some x → x.link ≡ link_after own line linked o n →
            self.new ≡ with_row link (record x {
              link = link_after own line linked o (taken_by own line linked o n
                  count);
            }) self.old }
        ensures missing { row_at link self.old ≡ None → self.new ≡ self.old }
    {
        let Some(at) = self.rows.place(link) else {
            return;
        };
        self.rows.all[at].1.link.took(count);
    }

    /// Puts a body on this link. The body is lent, and handed back as it was.
    pub fn push(&mut self, link: u64, body: &mut Body) -> Result<(), PushFault>
        // The body fits.
        requires { FitsBody body.old }
        // It is put on the link, or has no room.
        ensures ok { (x : PeerValue) (own : PeerIdValue) (line : List Member) (linked : Bool) (o : List ℕ) (n : ℕ)
            → row_at link self.old ≡ Some x → x.link ≡ link_after own line linked o n →
            OnOk result ((unsent_of own line n + size_of line body.old ≤ UNSENT_OCTETS)
            × (self.new ≡ with_row link
            (record x { link = link_after own (line ++ Says body.old ∷ []) linked o n }) self.old)) }
        ensures refused { (x : PeerValue) (own : PeerIdValue) (line : List Member) (linked : Bool) (o : List ℕ) (n : ℕ)
            → row_at link self.old ≡ Some x → x.link ≡ link_after own line linked o n →
            IfErr result (λ e. RefusesPush e (unsent_of own line n) (size_of line body.old)) }
        // Nothing changes after an error, and where there is no such peer.
        ensures unchanged { OnErr result (self.new ≡ self.old) }
        ensures missing { row_at link self.old ≡ None → (self.new ≡ self.old) × (result ≡ Ok tt) }
        // The body is as it was.
        ensures lent { body.new ≡ body.old }
    {
        let Some(at) = self.rows.place(link) else {
            return Ok(());
        };
        self.rows.all[at].1.link.push(body)
    }

    /// Puts a SHOUT to this group on this link in the same way: its content is that of the tail.
    pub fn push_shout(&mut self, link: u64, group: &[u8], tail: &Tail) -> Result<(), PushFault>
        // The group fits.
        requires { FitsString group.now }
        // It is put on the link, or has no room.
        ensures ok { (x : PeerValue) (own : PeerIdValue) (line : List Member) (linked : Bool) (o : List ℕ) (n : ℕ)
            → row_at link self.old ≡ Some x → x.link ≡ link_after own line linked o n →
            let body = Shout group.now tail.now in
            OnOk result ((unsent_of own line n + size_of line body ≤ UNSENT_OCTETS)
            × (self.new ≡ with_row link
            (record x { link = link_after own (line ++ Says body ∷ []) linked o n }) self.old)) }
        ensures refused { (x : PeerValue) (own : PeerIdValue) (line : List Member) (linked : Bool) (o : List ℕ) (n : ℕ)
            → row_at link self.old ≡ Some x → x.link ≡ link_after own line linked o n →
            IfErr result (λ e. RefusesPush e (unsent_of own line n) (size_of line (Shout group.now tail.now))) }
        // Nothing changes after an error, and where there is no such peer.
        ensures unchanged { OnErr result (self.new ≡ self.old) }
        ensures missing { row_at link self.old ≡ None → (self.new ≡ self.old) × (result ≡ Ok tt) }
    {
        let Some(at) = self.rows.place(link) else {
            return Ok(());
        };
        self.rows.all[at].1.link.push_shout(group, tail)
    }
}
