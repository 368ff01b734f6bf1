//! The text that waits to be written.

ghost use Rattle.std.specs.Prelude.{◌≡◌, ◌≤◌, ◌++◌, ◌∷◌, ℕ, List, [], Option, None};
ghost use Rattle.std.specs.Prelude.{OnOk, OnErr, IsErrOf};
ghost use Rattle.zre_outside.specs.Causes.{Rose};
ghost use Rattle.zre_outside.specs.Told.{AppendsFront, WritesThrough};
ghost use Rattle.zre_peer.specs.declared.event.Event.{Event as EventValue};
ghost use Rattle.zre_peer.specs.Lines.{line};
ghost use Rattle.zre_console.specs.printer.Pages.{Shows, StillShows, TriesOn, fresh};

use std::alloc::Global;
use zre_outside::{NextFault, Sink, write_gathered, write_much};
use zre_peer::{Event, push_line};
use zre_values::Octets;

/// The lines of events that aren't written yet. After a fault it takes no more.
#[derive(Drop)]
pub struct Page {
    /// What was gathered and isn't written yet.
    pub text: Octets,
    /// Why it takes no more.
    pub fault: Option<NextFault>,
}

impl Page {
    /// Nothing was printed yet.
    pub fn new(alloc: Global) -> Self
        ensures { result ≡ fresh }
    {
        Page {
            text: Octets::new(alloc),
            fault: None,
        }
    }

    // Appends the line of an event, and writes what has been gathered where that is much.
    fn put<O: Sink>(&mut self, event: &Event, out: &mut O) -> Result<(), NextFault>
        // What was written, and what the page holds.
        ensures through { OnOk result (WritesThrough self.old.text self.new.text (O.written out.old) (O.written out.new)
            (line event.now)) }
        ensures front { OnErr result (AppendsFront (O.written out.old) (O.written out.new)
            (self.old.text ++ line event.now)) }
        // A fault is noted elsewhere; the count rises where the sink failed.
        ensures unchanged { self.new.fault ≡ self.old.fault }
        ensures later { O.faults out.old ≤ O.faults out.new }
        ensures failed { IsErrOf result NextFault.Failed → Rose (O.faults out.old) (O.faults out.new) }
        ensures counts { OnOk result (O.refused out.new ≡ O.refused out.old) }
    {
        push_line(&mut self.text, event)?;
        write_much(&mut self.text, out)
    }

    /// Appends the line of an event, and writes what has been gathered where that is much.
    pub fn print<O: Sink>(&mut self, event: &Event, out: &mut O)
        // What was written, and what the page holds.
        ensures shows { (w : Option (List ℕ)) (es : List EventValue) → Shows self.old w (O.written out.old) es →
            Shows self.new w (O.written out.new) (es ++ event.now ∷ []) }
        // After a fault nothing more is printed; the count rises where the sink failed.
        ensures tries { TriesOn O.faults O.refused self.old self.new out.old out.new }
    {
        if self.fault.is_some() {
            return;
        }
        if let Err(fault) = self.put(event, out) {
            self.fault = Some(fault);
        }
    }

    /// Writes what has been gathered.
    pub fn write<O: Sink>(&mut self, out: &mut O)
        // What was written, and what the page holds.
        ensures shows { StillShows self.old self.new (O.written out.old) (O.written out.new) }
        ensures written { self.new.fault ≡ None → self.new.text ≡ [] }
        // After a fault nothing more is written; the count rises where the sink failed.
        ensures tries { TriesOn O.faults O.refused self.old self.new out.old out.new }
    {
        if self.fault.is_some() || self.text.is_empty() {
            return;
        }
        if let Err(fault) = write_gathered(&mut self.text, out) {
            self.fault = Some(fault);
        }
    }

    // Tells the sink by a write of no octets that there is nothing more to come.
    fn tell_end<O: Sink>(&mut self, out: &mut O)
        // No octet is written.
        ensures shows { StillShows self.old self.new (O.written out.old) (O.written out.new) }
        ensures text { self.new.text ≡ self.old.text }
        // A fault stays; the count rises where the sink failed.
        ensures tries { TriesOn O.faults O.refused self.old self.new out.old out.new }
    {
        let told = out.write(&[]);
        if self.fault.is_some() {
            return;
        }
        if let Err(fault) = told {
            self.fault = Some(fault);
        }
    }

    /// Writes what has been gathered, and tells the sink by a write of no octets that there is nothing more to come.
    pub fn close<O: Sink>(&mut self, out: &mut O)
        // What was written, and that nothing is left.
        ensures shows { StillShows self.old self.new (O.written out.old) (O.written out.new) }
        ensures written { self.new.fault ≡ None → self.new.text ≡ [] }
        // After a fault nothing more is written; the count rises where the sink failed.
        ensures tries { TriesOn O.faults O.refused self.old self.new out.old out.new }
    {
        self.write(out);
        self.tell_end(out);
    }
}
