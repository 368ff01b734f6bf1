ghost use Rattle.std.specs.Prelude.{◌≡◌, ◌≤◌, ◌||◌, ◌&&◌, true, Some, option_map, IsSome};
ghost use Rattle.std.specs.Prelude.{IfOk, OnOk, OnErr, IsErrOf, nat_le};
ghost use Rattle.zre_outside.specs.declared.deed.Deed.{Deed as DeedValue};
ghost use Rattle.zre_outside.specs.Calls.{no_calls, called, next_is_listed};
ghost use Rattle.zre_outside.specs.Causes.{Rose, counted, is_failed};
ghost use Rattle.zre_outside.specs.Refusals.{refused_after};
ghost use Rattle.zre_outside.specs.Worlds.{with_start, IsTurn, with_deed};
ghost use Rattle.zre_outside.specs.Scripts.{FailingScene, first_scene, row_later, at_look, Plays, Waits, WaitsIn};

use crate::calls::Calls;
use crate::stage::Stage;
use crate::{Act, Command, NextFault, Script, Start, Turn, World};
use std::alloc::Global;
use std::marker::Model;
use zre_values::{OutOfMemory, take_apart};

/// So many looks in a row a [`ScriptWorld`] answers. A further one fails.
pub const LOOKS_IN_A_ROW: u64 = 50000000;

/// A script as a world, as [`crate::SureWorld`]. The calls of `start` and of `next` with the numbers of two lists
/// fail, counted from 1, and so does a look after [`LOOKS_IN_A_ROW`] others.
pub struct ScriptWorld {
    stage: Stage,
    row: u64,
    starts: Calls,
    nexts: Calls,
    faults: u64,
}

impl Drop for ScriptWorld {
    fn drop(self) {
        take_apart!(self, ScriptWorld: stage, row, starts, nexts, faults);
    }
}

impl Model for ScriptWorld {
    ghost Value = { FailingScene };

    ghost view = { λ w. record {
      scene = w.stage;
      row = w.row;
      starts = w.starts;
      nexts = w.nexts;
      faults = w.faults;
    } };
}

impl ScriptWorld {
    /// A world of which no turn was asked.
    pub fn new(alloc: Global, script: Script, start_fails: Vec<u64>, next_fails: Vec<u64>) -> Self
        // Nothing came about yet.
        ensures scene { result.scene ≡ first_scene script }
        ensures row { result.row ≡ 0 }
        ensures calls { (result.starts ≡ no_calls start_fails.items) × (result.nexts ≡ no_calls next_fails.items) }
        ensures faults { result.faults ≡ 0 }
    {
        ScriptWorld {
            stage: Stage::new(alloc, script),
            row: 0,
            starts: Calls::new(start_fails),
            nexts: Calls::new(next_fails),
            faults: 0,
        }
    }

    // Whether the next turn is a look after too many others.
    fn is_stuck(&self, command: &Option<Command>) -> bool
        ensures { result ≡ at_look self.now.scene.left command.now && nat_le 50000000 self.now.row }
    {
        self.stage.is_at_look(command) && self.row >= LOOKS_IN_A_ROW
    }
}

impl World for ScriptWorld {
    ghost told = { λ w. Some w.scene.told };

    ghost looked = { λ w. w.scene.looked };

    ghost faults = { λ w. w.faults };

    ghost refused = { λ w. Some w.faults };

    /// The calls whose numbers are listed fail, and no others.
    fn start(&mut self, s: &Start) -> Result<(), NextFault>
        // What it tells.
        ensures told { OnOk result (Some self.new.scene.told ≡ option_map (with_start s.now)
            (Some self.old.scene.told)) }
        ensures refused { OnErr result (Some self.new.scene.told ≡ Some self.old.scene.told) }
        ensures looked { self.new.scene.looked ≡ self.old.scene.looked }
        // Which counts of faults rise.
        ensures later { self.old.faults ≤ self.new.faults }
        ensures failed { IsErrOf result NextFault.Failed → Rose self.old.faults self.new.faults }
        ensures counts { Some self.new.faults ≡ refused_after (is_failed result) (Some self.old.faults) }
        ensures counted { self.new.faults ≡ counted (is_failed result) self.old.faults }
        // The calls that it lists.
        ensures listed { is_failed result ≡ next_is_listed self.old.starts }
        ensures calls { (self.new.starts ≡ called self.old.starts) × (self.new.nexts ≡ self.old.nexts) }
        // What stays as it was.
        ensures script { Waits self.old.scene self.new.scene × (self.new.row ≡ self.old.row) }
    {
        if self.starts.next_fails() {
            self.faults = self.faults.saturating_add(1);
            return Err(NextFault::Failed);
        }
        Ok(self.stage.start(s)?)
    }

    /// The turn is the script's. The calls whose numbers are listed fail, and a look after too many others, and no
    /// others.
    fn next(&mut self, command: Option<Command>) -> Result<Turn, NextFault>
        requires { IsSome command → self.old.scene.looked ≡ true }
        // The turn.
        ensures turn { IfOk result (λ t. IsTurn command t) }
        ensures script { IfOk result (λ t. Plays command t self.old.scene self.new.scene) }
        // A world that fails.
        ensures refused { OnErr result (self.new.scene ≡ self.old.scene) }
        // Which counts of faults rise.
        ensures later { self.old.faults ≤ self.new.faults }
        ensures failed { IsErrOf result NextFault.Failed → Rose self.old.faults self.new.faults }
        ensures counts { Some self.new.faults ≡ refused_after (is_failed result) (Some self.old.faults) }
        ensures counted { self.new.faults ≡ counted (is_failed result) self.old.faults }
        // What stays as it was.
        ensures row { IfOk result (λ t. self.new.row ≡ row_later self.old.row t) }
        ensures unchanged { OnErr result (self.new.row ≡ self.old.row) }
        // The calls that it lists.
        ensures listed { is_failed result ≡ next_is_listed self.old.nexts
            || (at_look self.old.scene.left command && nat_le 50000000 self.old.row) }
        ensures calls { (self.new.nexts ≡ called self.old.nexts) × (self.new.starts ≡ self.old.starts) }
    {
        if self.nexts.next_fails() || self.is_stuck(&command) {
            self.faults = self.faults.saturating_add(1);
            drop(command);
            return Err(NextFault::Failed);
        }
        let turn = self.stage.next(command)?;
        self.row = row_after(self.row, &turn);
        Ok(turn)
    }

    fn act(&mut self, act: &Act) -> Result<(), OutOfMemory>
        // What is done.
        ensures ok { OnOk result (Some self.new.scene.told ≡ option_map (with_deed (DeedValue.Done act.now))
            (Some self.old.scene.told)) }
        ensures err { OnErr result (Some self.new.scene.told ≡ Some self.old.scene.told) }
        // What stays as it was.
        ensures looked { self.new.scene.looked ≡ self.old.scene.looked }
        ensures faults { self.new.faults ≡ self.old.faults }
        ensures counts { Some self.new.faults ≡ Some self.old.faults }
        ensures script { WaitsIn self.old self.new }
    {
        self.stage.act(act)
    }

    fn offer(&mut self, link: u64, bytes: &[u8]) -> Result<(), OutOfMemory>
        // What is done.
        ensures ok { OnOk result (Some self.new.scene.told ≡ option_map (with_deed (DeedValue.Offered link bytes.now))
            (Some self.old.scene.told)) }
        ensures err { OnErr result (Some self.new.scene.told ≡ Some self.old.scene.told) }
        // What stays as it was.
        ensures looked { self.new.scene.looked ≡ self.old.scene.looked }
        ensures faults { self.new.faults ≡ self.old.faults }
        ensures counts { Some self.new.faults ≡ Some self.old.faults }
        ensures script { WaitsIn self.old self.new }
    {
        self.stage.offer(link, bytes)
    }
}

fn row_after(row: u64, turn: &Turn) -> u64
    ensures { result ≡ row_later row turn.now }
{
    match turn {
        Turn::Look => row.saturating_add(1),
        Turn::Entry(_) => 0,
    }
}
