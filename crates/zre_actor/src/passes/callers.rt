//! The callers' passes are taken and given back.
ghost use Rattle.std.specs.Prelude.{◌≡◌, ◌++◌, ◌∷◌, ◌+◌, ◌<◌, [], MatchOption, IfSome, All};
ghost use Rattle.zre_actor.specs.declared.passes.Pipes.{Pipes};
ghost use Rattle.zre_actor.specs.Passes.{fresh_of, given_of, room_of, AreCallersOf, IsCallerOf, IsNew};

use super::{CallerPass, CallerPasses};

impl CallerPasses {
    /// A pass that wasn't taken yet, or none where all were.
    pub fn take(&mut self) -> Option<CallerPass>
        // The pass that is taken out.
        ensures taken { MatchOption result ((fresh_of self.old ≡ []) × (fresh_of self.new ≡ []))
            (λ p. fresh_of self.old ≡ fresh_of self.new ++ p ∷ []) }
        // What it knows: nothing was put under its number.
        ensures pipes { (pipes : Pipes) → AreCallersOf pipes (fresh_of self.old)
            → AreCallersOf pipes (fresh_of self.new) × IfSome result (IsCallerOf pipes) }
        ensures new { All IsNew (fresh_of self.old) → All IsNew (fresh_of self.new) × IfSome result IsNew }
        ensures given { (given_of self.new ≡ given_of self.old) × (room_of self.new ≡ room_of self.old) }
    {
        self.fresh.pop()
    }

    /// Gives a pass back. There is room for as many as were made; a pass that was absorbed comes back within the one
    /// that absorbed it.
    pub fn give(&mut self, pass: CallerPass)
        // What a caller knows.
        requires room { 0 < room_of self.old }
        // What is given back, and what is left.
        ensures given { given_of self.new ≡ given_of self.old ++ pass ∷ [] }
        ensures fresh { fresh_of self.new ≡ fresh_of self.old }
        ensures room { room_of self.new + 1 ≡ room_of self.old }
    {
        self.given.push_reserved(pass);
    }
}
