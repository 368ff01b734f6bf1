//! Commands are put, and passes joined.
ghost use Rattle.std.specs.Prelude.{◌≡◌, ◌++◌, ◌∷◌, [], IfOk, IfErr, MatchResult};
ghost use Rattle.zre_actor.specs.Commands.{placed};
ghost use Rattle.zre_actor.specs.Passes.{IsCallerOf, number, ended, put_by, Raised};

use super::{CallerPass, Full, Pipes};
use crate::rules::{PutsCommand, TakeIn};
use std::sync::Wait;
use zre_outside::Command;

impl Pipes {
    /// Puts a command at the end of the pipe. It comes back only where the pipe held as many as it may at one moment
    /// of the call. It may spin while a step of another thread is under way.
    pub fn put<R: Wait + Copy>(
        &self,
        rt: R,
        pass: CallerPass,
        command: Command,
    ) -> Result<CallerPass, Full>
        // What a caller knows.
        requires { IsCallerOf self.now pass }
        // The pass.
        ensures pipes { MatchResult result (λ p. IsCallerOf self.now p) (λ f. IsCallerOf self.now f.pass) }
        ensures number { MatchResult result (λ p. number p ≡ number pass) (λ f. number f.pass ≡ number pass) }
        ensures ended { MatchResult result (λ p. ended p ≡ ended pass) (λ f. ended f.pass ≡ ended pass) }
        // What is put, and when the pipe is full.
        ensures put { MatchResult result (λ p. put_by p ≡ put_by pass
            ++ placed (number pass) (ended pass) command ∷ []) (λ f. put_by f.pass ≡ put_by pass) }
        ensures command { IfErr result (λ f. f.command ≡ command) }
        ensures full { MatchResult result (λ p. p.fulls ≡ pass.fulls) (λ f. Raised pass.fulls f.pass.fulls) }
    {
        let CallerPass {
            mut commands,
            fulls,
        } = pass;
        match self
            .commands
            .push_as::<PutsCommand, R>(&rt, &mut commands, command)
        {
            Ok(()) => Ok(CallerPass { commands, fulls }),
            Err(command) => Err(Full {
                pass: CallerPass {
                    commands,
                    fulls: fulls.saturating_add(1),
                },
                command,
            }),
        }
    }

    /// One pass in place of two: that of `pass`, which keeps what both put. Nothing is put under the other's number any
    /// more, and what was put under it comes before all that is put with this pass from now on. It waits for nobody: it
    /// asks nothing of the runtime.
    pub fn absorb<R: Copy>(&self, _rt: R, pass: CallerPass, other: CallerPass) -> CallerPass
        // What a caller knows.
        requires { IsCallerOf self.now pass × IsCallerOf self.now other }
        // The pass.
        ensures pipes { IsCallerOf self.now result }
        ensures number { number result ≡ number pass }
        ensures ended { ended result ≡ ended pass ++ number other ∷ ended other }
        // What it answers for from now on.
        ensures put { put_by result ≡ put_by pass ++ put_by other }
        ensures fulls { result.fulls ≡ pass.fulls }
    {
        let CallerPass {
            mut commands,
            fulls,
        } = pass;
        let CallerPass {
            commands: others,
            fulls: _,
        } = other;
        self.commands.absorb::<TakeIn>(&mut commands, others);
        CallerPass { commands, fulls }
    }
}
