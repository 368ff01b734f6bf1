//! What the node tells is taken and printed until Last.

ghost use Rattle.std.specs.Prelude.{◌≡◌, ◌≤◌, ℕ, List, [], true, Option, None, Some, IsSome, MatchOption};
ghost use Rattle.zre_outside.specs.Causes.{Rose};
ghost use Rattle.zre_outside.specs.declared.sink.NextFault.TheVariants.{Failed};
ghost use Rattle.zre_actor.specs.Passes.{IsCallerOf, IsTakerOf, IsTold, taken_by, last_of};
ghost use Rattle.zre_console.specs.printer.Pages.{StillShows, TriesOn};
ghost use Rattle.zre_actor.specs.declared.passes.TakerPass.{TakerPass as TakerPassValue};
ghost use Rattle.zre_console.specs.declared.printer.asker.Asker.{Asker as AskerValue};
ghost use Rattle.zre_console.specs.printer.Printing.{HasPrinted, Prints, IsLast};

use crate::printer::asker::{Asker, Wish};
use crate::printer::page::Page;
use std::alloc::Global;
use std::sync::Wait;
use std::thread::yield_now;
use zre_actor::{CallerPass, Pipes, TakerPass, Told};
use zre_outside::{NextFault, Sink};

/// What is left after Last.
#[derive(Drop)]
pub struct Printed {
    /// The pass of who took the events.
    pub taker: TakerPass,
    /// The pass under which a Quit was put, if one was.
    pub pass: CallerPass,
    /// Why not all lines were written.
    pub fault: Option<NextFault>,
}

impl Page {
    // The next event, or Last. Before it waits, the page is written; while a Quit is still to be put it doesn't wait.
    fn next_told<O: Sink, T: Wait + Copy>(
        &mut self,
        rt: T,
        pipes: &Pipes,
        taker: TakerPass,
        out: &mut O,
        wish: Wish,
    ) -> (TakerPass, Option<Told>)
        // The pass belongs to the pipes, before and after, and Last is still to come.
        requires pipes { IsTakerOf pipes.now taker }
        requires open { last_of taker ≡ None }
        ensures pipes { IsTakerOf pipes.now result.0 }
        // What was taken, and what was written meanwhile.
        ensures told { MatchOption result.1 ((taken_by result.0 ≡ taken_by taker) × (last_of result.0 ≡ last_of taker))
            (λ told. IsTold taker told result.0) }
        ensures shows { StillShows self.old self.new (O.written out.old) (O.written out.new) }
        ensures tries { TriesOn O.faults O.refused self.old self.new out.old out.new }
    {
        let (taker, found) = pipes.try_take(rt, taker);
        if found.is_some() {
            return (taker, found);
        }
        drop(found);
        self.write(out);
        if wish == Wish::Due || (wish == Wish::No && self.fault.is_some()) {
            return (taker, None);
        }
        let (taker, told) = pipes.take(rt, taker);
        (taker, Some(told))
    }

    // Takes what is next and prints it, if anything is. True after Last, where all is written that can be.
    fn print_next<O: Sink, T: Wait + Copy>(
        &mut self,
        rt: T,
        pipes: &Pipes,
        taker: TakerPass,
        asker: Asker,
        out: &mut O,
    ) -> (TakerPass, Asker, bool)
        // The passes belong to the pipes, before and after, and Last is still to come.
        requires pipes { IsTakerOf pipes.now taker × IsCallerOf pipes.now asker.pass }
        requires open { last_of taker ≡ None }
        ensures pipes { IsTakerOf pipes.now result.0 × IsCallerOf pipes.now result.1.pass }
        // What was taken, written and asked for.
        ensures last { IsLast result.2 (last_of result.0) }
        ensures written { result.2 ≡ true → self.new.fault ≡ None → self.new.text ≡ [] }
        ensures prints { (first : AskerValue) (start : TakerPassValue) (w : Option (List ℕ))
            → Prints first start w asker taker self.old (O.written out.old) →
            Prints first start w result.1 result.0 self.new (O.written out.new) }
        // A fault stays; the count rises where the sink failed.
        ensures tries { TriesOn O.faults O.refused self.old self.new out.old out.new }
    {
        let asker = asker.ask(rt, pipes, self.fault.is_some());
        let (taker, found) = self.next_told(rt, pipes, taker, out, asker.wish);
        match found {
            None => {
                yield_now();
                (taker, asker, false)
            }
            Some(told) => match told {
                Told::Event(event) => {
                    self.print(&event, out);
                    (taker, asker, false)
                }
                Told::Last(_) => {
                    self.close(out);
                    (taker, asker, true)
                }
            },
        }
    }
}

/// Prints the lines of all events up to Last. Where one can't be printed, it asks the node to stop, and goes on to
/// take.
pub fn print_all<O: Sink, T: Wait + Copy>(
    rt: T,
    alloc: Global,
    pipes: &Pipes,
    mut taker: TakerPass,
    mut asker: Asker,
    out: &mut O,
) -> Printed
    // The passes belong to the pipes, before and after, and Last has come.
    requires pipes { IsTakerOf pipes.now taker × IsCallerOf pipes.now asker.pass }
    requires open { last_of taker ≡ None }
    ensures pipes { IsTakerOf pipes.now result.taker × IsCallerOf pipes.now result.pass }
    ensures last { IsSome (last_of result.taker) }
    // What was taken, written and asked for.
    ensures printed { HasPrinted asker taker result.taker result.pass result.fault (O.written out.old)
        (O.written out.new) }
    // The count rises where the sink failed.
    ensures later { O.faults out.old ≤ O.faults out.new }
    ensures failed { result.fault ≡ Some Failed → Rose (O.faults out.old) (O.faults out.new) }
    ensures counts { result.fault ≡ None → O.refused out.new ≡ O.refused out.old }
{
    let mut page = Page::new(alloc);
    for _ in rt.forever() {
        let (pass, caller, is_last) = page.print_next(rt, pipes, taker, asker, out);
        taker = pass;
        asker = caller;
        if is_last {
            return Printed {
                taker,
                pass: asker.pass,
                fault: page.fault,
            };
        }
    }
    unreachable!()
}
