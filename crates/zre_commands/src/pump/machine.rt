ghost use Rattle.std.specs.Prelude.{◌≡◌, ◌≤◌, ◌++◌, ℕ, List, [], true, false, length, IfOk, OnOk, OnErr, IsErrOf};
ghost use Rattle.zre_outside.specs.Causes.{Rose};
ghost use Rattle.zre_outside.specs.Told.{AppendsFront, WritesThrough};
ghost use Rattle.zre_commands.specs.pump.Meaning.{Meaning, Grows, stops};

use zre_outside::{NextFault, Sink};
use zre_values::{Octets, OutOfMemory};

/// Whether a machine wants more octets.
#[derive(Clone, Copy, Debug, PartialEq, Eq)]
pub enum Going {
    /// More octets may be fed.
    On,
    /// The octets so far are refused, however they go on.
    Stop,
}

/// What a command makes of its input. It is fed the input in pieces, and appends the text that each adds.
///
/// After `OutOfMemory` or `Stop` it is fed no more. All that it says of octets is one value, `says`, a function of
/// what the command was asked: so the pump's clauses name that value alone, and no state of a machine.
pub trait Machine {
    /// The machine was fed these octets, in some pieces.
    ghost fed: { Self → List ℕ → Type 0 };

    /// What the command makes of octets.
    ghost says: { Self → Meaning };

    /// Appends the text that comes before any input is read, as the head of a file.
    fn begin(&self, out: &mut Octets) -> Result<(), OutOfMemory>
        ensures head { fed self.now [] → OnOk result (out.new ≡ out.old ++ (says self.now).text []) };

    /// Takes the next piece, and appends the text that it adds.
    fn feed(&mut self, piece: &[u8], out: &mut Octets) -> Result<Going, OutOfMemory>
        ensures fed { (o : List ℕ) → fed self.old o → (says self.old).is_stopped o ≡ false
            → OnOk result (fed self.new (o ++ piece.now)) }
        ensures text { (o : List ℕ) → fed self.old o → (says self.old).is_stopped o ≡ false
            → OnOk result (Grows (says self.old) o piece.now out.old out.new) }
        ensures stop { (o : List ℕ) → fed self.old o → (says self.old).is_stopped o ≡ false
            → IfOk result (λ going. stops going ≡ (says self.old).is_stopped (o ++ piece.now)) }
        ensures same { says self.new ≡ says self.old }
        // The text of more octets begins with that of fewer, and what is refused however it goes on is refused as it
        // is.
        ensures longer { (o : List ℕ) → (added : List ℕ)
            × ((says self.old).text (o ++ piece.now) ≡ (says self.old).text o ++ added) }
        ensures stopped { (o : List ℕ) → (says self.old).is_stopped o ≡ true → (says self.old).is_bad o ≡ true };

    /// Takes the end of the input, of which there were so many octets, and appends the last text to what `text` has
    /// gathered. A long one need not lie whole in memory: what is gathered may be written on the way. Says whether the
    /// input is refused.
    fn finish<O: Sink>(&self, taken: u64, text: &mut Octets, out: &mut O) -> Result<bool, NextFault>
        // The last text.
        ensures bad { (o : List ℕ) → fed self.now o → length o ≡ taken
            → IfOk result (λ bad. bad ≡ (says self.now).is_bad o) }
        ensures ending { (o : List ℕ) → fed self.now o → length o ≡ taken → OnOk result
            (WritesThrough text.old text.new (O.written out.old) (O.written out.new) ((says self.now).ending o)) }
        // What is written before it.
        ensures front { (o : List ℕ) → fed self.now o → length o ≡ taken → OnErr result
            (AppendsFront (O.written out.old) (O.written out.new) (text.old ++ (says self.now).ending o)) }
        ensures later { O.faults out.old ≤ O.faults out.new }
        ensures failed { IsErrOf result NextFault.Failed → Rose (O.faults out.old) (O.faults out.new) };
}
