//! The lines of what a node tells. A tick tells EVASIVE of each silent peer anew, so these lines are kept.

ghost use Rattle.std.specs.Prelude.{◌≡◌, ◌++◌, List, OnOk, IfOk, true};
ghost use Rattle.zre_peer.specs.Lines.{line, lines};
ghost use Rattle.zre_peer.specs.declared.event.Event.TheVariants.{Evasive};
ghost use Rattle.zre_records.specs.replay.Telling.{Kept, TellsWhere};

use std::alloc::Global;
use std::marker::Model;
use zre_peer::{Event, push_line};
use zre_values::{Octets, OutOfMemory, PeerId};

// As many as a node may know peers.
const MOST: usize = 256;

/// The line of EVASIVE of a peer.
#[derive(Drop)]
pub(crate) struct EvasiveLine {
    id: PeerId,
    name: Octets,
    line: Octets,
}

/// Appends the lines of events. It keeps those of EVASIVE in the order in which they were told, which is that of the
/// next tick: so the line that comes next is mostly the one after the last, and after all of them the first.
#[derive(Drop)]
pub(crate) struct EventLines {
    kept: Vec<EvasiveLine>,
    next: usize,
    alloc: Global,
}

impl Model for EventLines {
    ghost use Rattle.std.specs.List.{AllByRecursion};
    ghost use Rattle.std.specs.Prelude.{List};
    ghost use Rattle.zre_records.specs.replay.Telling.{Kept};
    ghost use Rattle.zre_records.specs.declared.replay.event_lines.EvasiveLine.{EvasiveLine as LineValue};

    ghost Value = { List LineValue };

    ghost view = { λ teller. teller.kept.items };

    ghost invariant = { λ teller. AllByRecursion Kept teller.kept.items };
}

// The line of EVASIVE of a peer.
#[inline(never)]
fn line_of(
    alloc: Global,
    id: PeerId,
    name: &Octets,
    event: &Event,
) -> Result<EvasiveLine, OutOfMemory>
    requires { event.now ≡ Evasive id name.now }
    ensures kept { IfOk result (λ kept. Kept kept) }
    ensures line { IfOk result (λ kept. kept.line ≡ line event.now) }
{
    let mut line = Octets::new(alloc);
    push_line(&mut line, event)?;
    Ok(EvasiveLine {
        id,
        name: Octets::copy(alloc, name.as_slice())?,
        line,
    })
}

impl EventLines {
    /// It has kept no line, and takes no memory.
    pub(crate) fn new(alloc: Global) -> Self {
        EventLines {
            kept: Vec::new(alloc),
            next: 0,
            alloc,
        }
    }

    // Appends the line that is kept at a place, where it is that of this peer.
    fn tell_kept(
        &self,
        place: usize,
        id: PeerId,
        name: &Octets,
        out: &mut Octets,
    ) -> Result<bool, OutOfMemory>
        ensures { IfOk result (λ told. TellsWhere told (line (Evasive id name.now)) out.old out.new) }
    {
        let Some(kept) = self.kept.get(place) else {
            return Ok(false);
        };
        if id != kept.id || name.as_slice() != kept.name.as_slice() {
            return Ok(false);
        }
        out.append(kept.line.as_slice())?;
        Ok(true)
    }

    // Keeps a line as the next one and the last. Those that were kept from there on are let go: they come in another
    // order now.
    #[inline(never)]
    fn keep(&mut self, line: EvasiveLine) -> Result<(), OutOfMemory>
        requires { Kept line }
    {
        if self.next < MOST {
            self.kept.truncate(self.next);
        } else {
            self.kept.clear();
        }
        self.kept.push(line)?;
        self.next = self.kept.len();
        Ok(())
    }

    // EVASIVE of a peer: its line is kept as the next one, or after the last comes the first again, or it is made.
    fn tell_evasive(
        &mut self,
        id: PeerId,
        name: &Octets,
        event: &Event,
        out: &mut Octets,
    ) -> Result<(), OutOfMemory>
        requires { event.now ≡ Evasive id name.now }
        ensures { OnOk result (out.new ≡ out.old ++ line event.now) }
    {
        let place = if self.next < self.kept.len() {
            self.next
        } else {
            0
        };
        if self.tell_kept(place, id, name, out)? {
            self.next = place.saturating_add(1);
            return Ok(());
        }
        self.tell_anew(id, name, event, out)
    }

    // EVASIVE of a peer whose line isn't kept as the one that comes: it is made, and kept.
    #[inline(never)]
    fn tell_anew(
        &mut self,
        id: PeerId,
        name: &Octets,
        event: &Event,
        out: &mut Octets,
    ) -> Result<(), OutOfMemory>
        requires { event.now ≡ Evasive id name.now }
        ensures { OnOk result (out.new ≡ out.old ++ line event.now) }
    {
        let line = line_of(self.alloc, id, name, event)?;
        out.append(line.line.as_slice())?;
        self.keep(line)
    }

    // The line of an event.
    fn tell(&mut self, event: &Event, out: &mut Octets) -> Result<(), OutOfMemory>
        ensures { OnOk result (out.new ≡ out.old ++ line event.now) }
    {
        match event {
            Event::Evasive { id, name } => self.tell_evasive(*id, name, event, out),
            _ => push_line(out, event),
        }
    }

    /// Appends the lines of events, in order. After an error a front of them may stand there.
    pub(crate) fn tell_all(&mut self, events: &[Event], out: &mut Octets) -> Result<(), OutOfMemory>
        ensures { OnOk result (out.new ≡ out.old ++ lines events.now) }
    {
        for event in events {
            self.tell(event, out)?;
        }
        Ok(())
    }
}
