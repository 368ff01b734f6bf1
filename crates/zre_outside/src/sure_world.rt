ghost use Rattle.std.specs.Prelude.{◌≡◌, true, Some, option_map, IsSome, IfOk, OnOk, OnErr, IsErrOf};
ghost use Rattle.zre_outside.specs.declared.deed.Deed.{Deed as DeedValue};
ghost use Rattle.zre_outside.specs.Causes.{Rose, is_failed};
ghost use Rattle.zre_outside.specs.Refusals.{refused_after};
ghost use Rattle.zre_outside.specs.Worlds.{with_start, IsTurn, with_deed};
ghost use Rattle.zre_outside.specs.Scripts.{Scene, first_scene, Plays, Waits};

use crate::stage::Stage;
use crate::{Act, Command, NextFault, Script, Start, Turn, World};
use std::alloc::Global;
use std::marker::Model;
use zre_values::{OutOfMemory, take_apart};

/// A script as a world. It gives the entries of the script in order, stays at a look until a command is handed in, and
/// gives End after the last item. Its count of faults is 0, so it fails with OutOfMemory alone.
pub struct SureWorld {
    stage: Stage,
}

impl Drop for SureWorld {
    fn drop(self) {
        take_apart!(self, SureWorld: stage);
    }
}

impl Model for SureWorld {
    ghost Value = { Scene };

    ghost view = { λ w. w.stage };
}

impl SureWorld {
    /// A world of which no turn was asked.
    pub fn new(alloc: Global, script: Script) -> Self
        ensures { result ≡ first_scene script }
    {
        SureWorld {
            stage: Stage::new(alloc, script),
        }
    }
}

impl World for SureWorld {
    ghost told = { λ w. Some w.told };

    ghost looked = { λ w. w.looked };

    ghost faults = { λ _. 0 };

    ghost refused = { λ _. Some 0 };

    fn start(&mut self, s: &Start) -> Result<(), NextFault>
        // What it tells.
        ensures told { OnOk result (Some self.new.told ≡ option_map (with_start s.now)
            (Some self.old.told)) }
        ensures refused { OnErr result (Some self.new.told ≡ Some self.old.told) }
        // What stays as it was.
        ensures looked { self.new.looked ≡ self.old.looked }
        ensures failed { IsErrOf result NextFault.Failed → Rose 0 0 }
        ensures counts { Some 0 ≡ refused_after (is_failed result) (Some 0) }
        ensures script { Waits self.old self.new }
    {
        Ok(self.stage.start(s)?)
    }

    /// The turn is the script's.
    fn next(&mut self, command: Option<Command>) -> Result<Turn, NextFault>
        requires { IsSome command → self.old.looked ≡ true }
        // The turn.
        ensures turn { IfOk result (λ t. IsTurn command t) }
        ensures script { IfOk result (λ t. Plays command t self.old self.new) }
        // It never fails.
        ensures refused { OnErr result (self.new ≡ self.old) }
        ensures failed { IsErrOf result NextFault.Failed → Rose 0 0 }
        ensures counts { Some 0 ≡ refused_after (is_failed result) (Some 0) }
    {
        Ok(self.stage.next(command)?)
    }

    fn act(&mut self, act: &Act) -> Result<(), OutOfMemory>
        // What is done.
        ensures ok { OnOk result (Some self.new.told ≡ option_map (with_deed (DeedValue.Done act.now))
            (Some self.old.told)) }
        ensures err { OnErr result (Some self.new.told ≡ Some self.old.told) }
        // What stays as it was.
        ensures looked { self.new.looked ≡ self.old.looked }
        ensures script { Waits self.old self.new }
    {
        self.stage.act(act)
    }

    fn offer(&mut self, link: u64, bytes: &[u8]) -> Result<(), OutOfMemory>
        // What is done.
        ensures ok { OnOk result (Some self.new.told
            ≡ option_map (with_deed (DeedValue.Offered link bytes.now)) (Some self.old.told)) }
        ensures err { OnErr result (Some self.new.told ≡ Some self.old.told) }
        // What stays as it was.
        ensures looked { self.new.looked ≡ self.old.looked }
        ensures script { Waits self.old self.new }
    {
        self.stage.offer(link, bytes)
    }
}
