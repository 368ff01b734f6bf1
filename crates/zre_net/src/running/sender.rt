//! A node, and all messages that it has put on its links.

ghost use Rattle.std.specs.Prelude.{◌≡◌, ◌++◌, ◌∷◌, [], List, length, replicate, true, false, is_some, OnOk, IfOk};
ghost use Rattle.std.specs.Prelude.{IfSome};
ghost use Rattle.zre_outside.specs.declared.entry.Entry.{Entry as EntryValue};
ghost use Rattle.zre_zmtp.specs.Laws.{handshake as handshake_of};
ghost use Rattle.zre_zmtp.specs.declared.writing.SocketType.TheVariants.{Dealer};
ghost use Rattle.zre_values.specs.declared.settings.Settings.{Settings as Config};
ghost use Rattle.zre_journal.specs.Events.{chronicle};
ghost use Rattle.zre_journal.specs.Chronicle.{Comes};
ghost use Rattle.zre_node.specs.Journal.{StandsFor};
ghost use Rattle.zre_net.specs.Lines.{connects, fresh};
ghost use Rattle.zre_net.specs.Sender.{is_slight, Keeps, IsLookedAt, IsLooked};
ghost use Rattle.zre_net.specs.Sending.{HasSent, Stepped};

use crate::running::lines::Lines;
use std::alloc::Global;
use zre_node::{Node, Step};
use zre_outside::{Act, Entry};
use zre_values::{OutOfMemory, take_apart};

/// A node until it crashes, with all messages that it has put on its links, those of peers that are gone too.
pub(crate) struct Sender {
    alloc: Global,
    /// How many octets the greeting and READY have, which wait first on each link.
    handshake: usize,
    node: Option<Node>,
    pub lines: Lines,
}

impl Drop for Sender {
    fn drop(self) {
        take_apart!(self, Sender: alloc, handshake, node, lines);
    }
}

// One line more, where this makes a link.
fn add_line(
    alloc: Global,
    lines: &mut Lines,
    act: &Act,
    handshake: usize,
) -> Result<(), OutOfMemory>
    ensures { OnOk result (lines.new ≡ lines.old ++ replicate (connects (act.now ∷ [])) (fresh handshake)) }
{
    if let Act::Connect { .. } = act {
        lines.add(alloc, handshake)?;
    }
    Ok(())
}

// One line more for each link that was made.
fn add_lines(
    alloc: Global,
    lines: &mut Lines,
    acts: &[Act],
    handshake: usize,
) -> Result<(), OutOfMemory>
    ensures { OnOk result (lines.new ≡ lines.old ++ replicate (connects acts.now) (fresh handshake)) }
{
    for act in acts {
        add_line(alloc, lines, act, handshake)?;
    }
    Ok(())
}

// What was put on one link.
fn look_at(node: &Node, lines: &mut Lines, link: u64) -> Result<(), OutOfMemory>
    ensures { (g : Config) (J : List EntryValue) → StandsFor g J node.now →
        OnOk result (IsLookedAt g (chronicle g J) link lines.old lines.new) }
{
    let Some(sent) = node.sent(link) else {
        return Err(OutOfMemory);
    };
    let Some(waits) = node.waiting(link) else {
        return Err(OutOfMemory);
    };
    let Some(place) = link.checked_sub(1) else {
        return Err(OutOfMemory);
    };
    lines.note(place as usize, sent, waits)
}

// What was put on each link of a known peer.
fn look(node: &Node, lines: &mut Lines) -> Result<(), OutOfMemory>
    ensures { (g : Config) (J : List EntryValue) → StandsFor g J node.now →
        OnOk result (IsLooked g (chronicle g J) lines.old lines.new) }
{
    let links = node.links()?;
    for link in links.as_slice() {
        look_at(node, lines, *link)?;
    }
    Ok(())
}

// One entry of a node, and what it puts on links. At most one message may come with it.
fn step(
    alloc: Global,
    node: &mut Node,
    lines: &mut Lines,
    handshake: usize,
    entry: Entry,
) -> Result<Step, OutOfMemory>
    ensures { (g : Config) (J : List EntryValue) → StandsFor g J node.old →
        handshake ≡ length (handshake_of Dealer (Some g.id)) → Keeps g (chronicle g J) handshake lines.old →
        is_slight g entry.input (chronicle g J) (Comes entry ∷ chronicle g J) →
        IfOk result (λ s. Stepped g J entry s × StandsFor g (J ++ entry ∷ []) node.new
        × Keeps g (chronicle g (J ++ entry ∷ [])) handshake lines.new) }
{
    let step = node.step(entry)?;
    let Ok(()) = add_lines(alloc, lines, step.acts.as_slice(), handshake) else {
        drop(step);
        return Err(OutOfMemory);
    };
    let Ok(()) = look(node, lines) else {
        drop(step);
        return Err(OutOfMemory);
    };
    Ok(step)
}

impl Sender {
    /// A node that was made now: nothing was put on a link.
    pub fn new(alloc: Global, node: Node) -> Sender
        ensures sent { (g : Config) → StandsFor g [] node → HasSent g [] result }
        ensures live { is_some result.node ≡ true }
    {
        Sender {
            alloc,
            handshake: 124,
            node: Some(node),
            lines: Lines::new(alloc),
        }
    }

    /// One entry of the node, and what it puts on links. At most one message may come with it.
    pub fn step(&mut self, entry: Entry) -> Result<Step, OutOfMemory>
        ensures steps { (g : Config) (J : List EntryValue) → HasSent g J self.old →
            is_slight g entry.input (chronicle g J) (Comes entry ∷ chronicle g J) →
            IfOk result (λ s. Stepped g J entry s × HasSent g (J ++ entry ∷ []) self.new) }
        ensures live { OnOk result ((is_some self.old.node ≡ true) × (is_some self.new.node ≡ true)) }
    {
        match &mut self.node {
            Some(node) => step(self.alloc, node, &mut self.lines, self.handshake, entry),
            None => {
                drop(entry);
                Err(OutOfMemory)
            }
        }
    }

    /// The node, until it crashes.
    pub fn node(&self) -> Option<&Node>
        ensures there { is_some result ≡ is_some self.now.node }
        ensures stands { (g : Config) (J : List EntryValue) → HasSent g J self.now →
            IfSome result (λ n. StandsFor g J n.now) }
    {
        self.node.as_ref()
    }

    /// The node is gone. What it had put on its links stays.
    pub fn stop(&mut self)
        ensures gone { is_some self.new.node ≡ false }
        ensures sent { (g : Config) (J : List EntryValue) → HasSent g J self.old → HasSent g J self.new }
        ensures lines { self.new.lines ≡ self.old.lines }
    {
        self.node = None;
    }
}
