//! What was said on links. A message that went out on many links is kept once.

ghost use Rattle.std.specs.Prelude.{◌≡◌, [], ◌∷◌, ◌++◌, length, false, nat_lt, List as Values, Some, None, IfOk, OnOk};
ghost use Rattle.std.specs.Option.{option_map_or};
ghost use Rattle.zre_values.specs.declared.settings.Settings.{Settings as Config};
ghost use Rattle.zre_journal.specs.Events.{chronicle};
ghost use Rattle.zre_node.specs.Asked.{sent_after};
ghost use Rattle.zre_node.specs.Journal.{StandsFor};
ghost use Rattle.zre_outside.specs.declared.entry.Entry.{Entry};
ghost use Rattle.zre_audit.specs.Kept.{octets_at, with_place, noted, all_noted, risen as risen_among};
ghost use Rattle.zre_audit.specs.Kept.{lines_with, lines_of, reached, count_on, counts_of};

use std::alloc::Global;
use zre_node::Node;
use zre_values::{Keys, List, Octets, OutOfMemory, PeerId, take_apart};

/// How many messages were put on a link.
#[derive(Clone, Copy)]
pub(crate) struct Count {
    pub link: u64,
    pub count: u64,
}

/// A list of them.
pub(crate) type PutCounts = List<Count>;

/// A link: whose it is, and the places of the messages that were said on it.
pub(crate) struct PutLine {
    pub id: PeerId,
    pub said: Keys,
}

impl Drop for PutLine {
    fn drop(self) {
        take_apart!(self, PutLine: id, said);
    }
}

/// All that was said, each message as octets, and all links that were made, by their numbers from 1 on.
pub(crate) struct Put {
    alloc: Global,
    messages: List<Octets>,
    lines: Vec<PutLine>,
}

impl Drop for Put {
    fn drop(self) {
        take_apart!(self, Put: alloc, messages, lines);
    }
}

// How many messages were put on a link.
fn count_on(node: &Node, link: u64) -> Count
    ensures { (g : Config) (J : Values Entry) → StandsFor g J node.now → result ≡ count_on g J link }
{
    let count = node.sent(link).unwrap_or(0);
    Count { link, count }
}

// How many messages were put on the link of a peer, if it is known.
fn count_to(alloc: Global, node: &Node, id: PeerId) -> Result<PutCounts, OutOfMemory>
    ensures { (g : Config) (J : Values Entry) → StandsFor g J node.now
        → IfOk result (λ counts. counts ≡ counts_of (chronicle g J) (reached (Some id) (chronicle g J))) }
{
    let mut counts = PutCounts::new(alloc);
    if let Some(link) = node.link_of(id) {
        counts.push(count_on(node, link))?;
    }
    Ok(counts)
}

// How many messages were put on the links of the known peers.
fn all_counts(alloc: Global, node: &Node) -> Result<PutCounts, OutOfMemory>
    ensures { (g : Config) (J : Values Entry) → StandsFor g J node.now
        → IfOk result (λ counts. counts ≡ counts_of (chronicle g J) (reached None (chronicle g J))) }
{
    let links = node.links()?;
    let mut counts = PutCounts::new(alloc);
    for link in links.as_slice() {
        counts.push(count_on(node, *link))?;
    }
    Ok(counts)
}

/// How many messages were put on the links on which one may be put: on that of the peer that it is to be said to, if it
/// is one, or on those of all known peers.
pub(crate) fn counts(
    alloc: Global,
    node: &Node,
    to: Option<PeerId>,
) -> Result<PutCounts, OutOfMemory>
    ensures { (g : Config) (J : Values Entry) → StandsFor g J node.now
        → IfOk result (λ counts. counts ≡ counts_of (chronicle g J) (reached to (chronicle g J))) }
{
    match to {
        Some(id) => count_to(alloc, node, id),
        None => all_counts(alloc, node),
    }
}

// Whether more than this was put on a link by now.
fn has_risen(node: &Node, before: Count) -> bool
    ensures { (g : Config) (J : Values Entry) → StandsFor g J node.now
        → result ≡ option_map_or (λ n. nat_lt before.count n) (sent_after g J before.link) false }
{
    match node.sent(before.link) {
        Some(count) => before.count < count,
        None => false,
    }
}

// The links on which more than this was put by now.
fn risen(alloc: Global, node: &Node, before: &[Count]) -> Result<Keys, OutOfMemory>
    ensures { (g : Config) (J : Values Entry) → StandsFor g J node.now
        → IfOk result (λ links. links ≡ risen_among (sent_after g J) before.now) }
{
    let mut links = Keys::new(alloc);
    for one in before {
        if has_risen(node, *one) {
            links.push(one.link)?;
        }
    }
    Ok(links)
}

fn note(line: &mut PutLine, place: u64) -> Result<(), OutOfMemory>
    ensures { OnOk result (line.new ≡ with_place place line.old) }
{
    line.said.push(place)
}

// The message at this place was put on a link.
fn note_at(lines: &mut Vec<PutLine>, link: u64, place: u64) -> Result<(), OutOfMemory>
    ensures { OnOk result (lines.new.items ≡ noted place lines.old.items link) }
{
    let Some(at) = link.checked_sub(1) else {
        return Ok(());
    };
    let at = at as usize;
    if at >= lines.len() {
        return Ok(());
    }
    note(&mut lines[at], place)?;
    Ok(())
}

fn note_all(lines: &mut Vec<PutLine>, links: &[u64], place: u64) -> Result<(), OutOfMemory>
    ensures { OnOk result (lines.new.items ≡ all_noted place lines.old.items links.now) }
{
    for link in links {
        note_at(lines, *link, place)?;
    }
    Ok(())
}

// The octets of the messages at these places.
fn join(alloc: Global, messages: &[Octets], places: &[u64]) -> Result<Octets, OutOfMemory>
    ensures { IfOk result (λ octets. octets ≡ octets_at messages.now places.now) }
{
    let mut octets = Octets::new(alloc);
    for place in places {
        if let Some(message) = messages.get(*place as usize) {
            octets.append(message.as_slice())?;
        }
    }
    Ok(octets)
}

impl Put {
    /// Nothing, which takes no memory.
    pub(crate) fn new(alloc: Global) -> Put
        ensures messages { result.messages ≡ [] }
        ensures lines { result.lines.items ≡ [] }
    {
        Put {
            alloc,
            messages: List::new(alloc),
            lines: Vec::new(alloc),
        }
    }

    /// A link is made, if any, for this peer.
    pub(crate) fn add_line(&mut self, born: Option<PeerId>) -> Result<(), OutOfMemory>
        ensures messages { OnOk result (self.new.messages ≡ self.old.messages) }
        ensures lines { OnOk result (self.new.lines.items ≡ lines_with self.old.lines.items born) }
    {
        if let Some(id) = born {
            let said = Keys::new(self.alloc);
            self.lines.push(PutLine { id, said })?;
        }
        Ok(())
    }

    /// A message was asked to be said. It went out on those links on which more was put since.
    pub(crate) fn add_message(
        &mut self,
        octets: Octets,
        before: &[Count],
        node: &Node,
    ) -> Result<(), OutOfMemory>
        ensures messages { OnOk result (self.new.messages ≡ self.old.messages ++ octets ∷ []) }
        ensures lines { (g : Config) (J : Values Entry) → StandsFor g J node.now → OnOk result (self.new.lines.items
            ≡ all_noted (length self.old.messages) self.old.lines.items (risen_among (sent_after g J) before.now)) }
    {
        let links = risen(self.alloc, node, before)?;
        let place = self.messages.len() as u64;
        self.messages.push(octets)?;
        note_all(&mut self.lines, links.as_slice(), place)
    }

    /// What was said on the links of a peer, one for each birth of it, in order.
    pub(crate) fn links(&self, id: PeerId) -> Result<List<Octets>, OutOfMemory>
        ensures { IfOk result (λ links. links ≡ lines_of self.now.messages self.now.lines.items id) }
    {
        let mut links = List::new(self.alloc);
        for line in self.lines.as_slice() {
            if line.id == id {
                links.push(join(self.alloc, self.messages.as_slice(), line.said.as_slice())?)?;
            }
        }
        Ok(links)
    }
}
