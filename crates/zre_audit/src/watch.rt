//! A node, with what was said both ways.

ghost use Rattle.std.specs.Prelude.{◌≡◌, [], ◌∷◌, ◌++◌, true, Some, None, List, IfOk, OnOk};
ghost use Rattle.zre_msg.specs.declared.message.Body.{Body};
ghost use Rattle.zre_outside.specs.declared.entry.Entry.{Entry as EntryValue};
ghost use Rattle.zre_values.specs.declared.settings.Settings.{Settings as ConfigValue};
ghost use Rattle.zre_values.specs.Settings.{is_valid};
ghost use Rattle.zre_audit.specs.Coding.{octets_of};
ghost use Rattle.zre_audit.specs.Seen.{asked_by};
ghost use Rattle.zre_audit.specs.Watching.{Watches};

use crate::peer_runs::PeerRuns;
use crate::put::{Put, counts};
use crate::seen::{announced, asked, born, whispered};
use std::alloc::Global;
use zre_journal::Config;
use zre_node::Node;
use zre_outside::Entry;
use zre_values::{Octets, OutOfMemory, PeerId, take_apart};

/// A node of which the entries of a journal are told one by one, with what was said by WHISPER and SHOUT in each run of
/// each peer and on each link. What it keeps grows with what is said: each message is kept once, and on each link that
/// it was put on as a number.
pub struct Watch {
    pub(crate) alloc: Global,
    pub(crate) id: PeerId,
    node: Node,
    pub(crate) heard: PeerRuns,
    pub(crate) put: Put,
}

impl Drop for Watch {
    fn drop(self) {
        take_apart!(self, Watch: alloc, id, node, heard, put);
    }
}

impl Watch {
    /// A node before any entry. Its settings have to be valid ([`Config::valid`]).
    pub fn new(alloc: Global, config: Config) -> Result<Watch, OutOfMemory>
        requires { is_valid config ≡ true }
        ensures { IfOk result (Watches config []) }
    {
        Ok(Watch {
            alloc,
            id: config.id,
            node: Node::new(alloc, config)?,
            heard: PeerRuns::new(alloc),
            put: Put::new(alloc),
        })
    }

    // An entry that asks for nothing to be said.
    fn hear(&mut self, entry: Entry) -> Result<(), OutOfMemory>
        ensures { (g : ConfigValue) (J : List EntryValue) → asked_by entry.input ≡ None → Watches g J self.old
            → OnOk result (Watches g (J ++ entry ∷ []) self.new) }
    {
        let announced = announced(&entry.input);
        let step = self.node.step(entry)?;
        let events = step.events.as_slice();
        self.heard.take_all(events)?;
        self.put
            .add_line(born(announced, step.acts.as_slice(), events))?;
        Ok(())
    }

    // An entry that asks for a message with these octets to be said.
    fn say(&mut self, entry: Entry, octets: Octets) -> Result<(), OutOfMemory>
        ensures { (g : ConfigValue) (J : List EntryValue) (b : Body) → asked_by entry.input ≡ Some b
            → octets ≡ octets_of b → Watches g J self.old → OnOk result (Watches g (J ++ entry ∷ []) self.new) }
    {
        let to = whispered(&entry.input);
        let before = counts(self.alloc, &self.node, to)?;
        let step = self.node.step(entry)?;
        self.heard.take_all(step.events.as_slice())?;
        self.put.add_message(octets, before.as_slice(), &self.node)?;
        Ok(())
    }

    /// One entry of the journal. After `OutOfMemory` nothing is known of the watch.
    pub fn step(&mut self, entry: Entry) -> Result<(), OutOfMemory>
        ensures { (g : ConfigValue) (J : List EntryValue) → Watches g J self.old
            → OnOk result (Watches g (J ++ entry ∷ []) self.new) }
    {
        match asked(self.alloc, &entry.input)? {
            Some(octets) => self.say(entry, octets),
            None => self.hear(entry),
        }
    }

    /// The identity of the node.
    pub fn id(&self) -> PeerId
        ensures { (g : ConfigValue) (J : List EntryValue) → Watches g J self.now → result ≡ g.id }
    {
        self.id
    }
}
