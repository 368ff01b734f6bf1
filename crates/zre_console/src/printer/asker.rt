//! The second caller: it asks the node to stop, at most once.

ghost use Rattle.std.specs.Prelude.{◌≡◌, ◌≢◌, true, false};
ghost use Rattle.zre_actor.specs.declared.passes.CallerPass.{CallerPass as Pass};
ghost use Rattle.zre_actor.specs.Passes.{IsCallerOf, Raised};
ghost use Rattle.zre_console.specs.declared.printer.asker.Wish.TheVariants as wishes;
ghost use Rattle.zre_console.specs.printer.Asking.{HasAsked};

use std::sync::Wait;
use zre_actor::{CallerPass, Full, Pipes};
use zre_outside::Command;

/// Whether a Quit is to be put.
#[derive(Clone, Copy, Debug, PartialEq, Eq)]
pub enum Wish {
    /// So far it isn't.
    No,
    /// It is, as soon as there is room.
    Due,
    /// It was put.
    Put,
}

/// A caller with nothing to put but a Quit.
#[derive(Drop)]
pub struct Asker {
    /// The pass under which the Quit is put.
    pub pass: CallerPass,
    /// Whether it is to be put.
    pub wish: Wish,
}

impl Asker {
    /// Puts a Quit where it is due, or wanted from now on, and wasn't put yet. Where the pipe is full, it stays due.
    pub fn ask<T: Wait + Copy>(self, rt: T, pipes: &Pipes, wanted: bool) -> Asker
        // The pass belongs to the pipes, before and after.
        requires { IsCallerOf pipes.now self.pass }
        ensures pipes { IsCallerOf pipes.now result.pass }
        // What it wishes, and what of it was put.
        ensures asked { (first : Pass) → HasAsked first self → HasAsked first result }
        ensures wished { wanted ≡ true → result.wish ≢ wishes.No }
        ensures full { result.wish ≡ wishes.Due → Raised self.pass.fulls result.pass.fulls }
        ensures calm { wanted ≡ false → self.wish ≡ wishes.No → result.wish ≡ wishes.No }
    {
        let Asker { pass, wish } = self;
        match wish {
            Wish::No if !wanted => return Asker { pass, wish },
            Wish::Put => return Asker { pass, wish },
            _ => {}
        }
        match pipes.put(rt, pass, Command::Quit) {
            Ok(pass) => Asker {
                pass,
                wish: Wish::Put,
            },
            Err(full) => {
                let Full { pass, command: _ } = full;
                Asker {
                    pass,
                    wish: Wish::Due,
                }
            }
        }
    }
}
