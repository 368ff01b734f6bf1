//! The message that isn't whole yet.

ghost use Rattle.std.specs.Prelude.{◌≡◌, ◌+◌, ◌-◌, ◌^◌, [], ◌∷◌, ◌++◌, length, min, sum_by, IfOk, OnOk, OnErr};

use crate::looks::Steps;
use std::alloc::Global;
use std::marker::Model;
use std::mem;
use std::sync::ledger::Ledger;
use zre_values::{Frames, Octets, OutOfMemory};

/// The bodies of the frames of a message that isn't whole, with the sum of their lengths.
#[derive(Drop)]
pub struct Opened {
    bodies: Frames,
    octets: u64,
}

impl Model for Opened {
    ghost use Rattle.std.specs.Prelude.{◌≡◌, ◌-◌, ◌^◌, ℕ, List, length, min, sum_by};

    ghost Value = { List (List ℕ) };

    ghost view = { λ opened. opened.bodies };

    ghost invariant = { λ opened. opened.octets ≡ min (sum_by length opened.bodies) (2 ^ 64 - 1) };
}

impl Opened {
    /// No message is under way. It takes no memory.
    pub fn new(alloc: Global) -> Self
        ensures { result ≡ [] }
    {
        Opened {
            bodies: Frames::new(alloc),
            octets: 0,
        }
    }

    /// How many frames the message has so far.
    pub fn len(&self) -> usize
        ensures { result ≡ length self.now }
    {
        self.bodies.len()
    }

    /// The sum of the lengths, or the greatest u64 where the sum is above that.
    pub fn octets(&self) -> u64
        ensures { result ≡ min (sum_by length self.now) (2 ^ 64 - 1) }
    {
        self.octets
    }

    /// Appends the body of one frame more, or nothing.
    pub fn push(&mut self, body: Octets) -> Result<(), OutOfMemory>
        ensures ok { OnOk result (self.new ≡ self.old ++ body ∷ []) }
        ensures err { OnErr result (self.new ≡ self.old) }
    {
        let octets = self.octets.saturating_add(body.len() as u64);
        self.bodies.push(body)?;
        self.octets = octets;
        Ok(())
    }

    /// Appends a copy of these octets as the body of one frame more, which is a look at each of them, or nothing.
    pub fn push_copy<L: Ledger>(
        &mut self,
        alloc: Global,
        body: &[u8],
        steps: &mut Steps<L>,
    ) -> Result<(), OutOfMemory>
        ensures ok { OnOk result (self.new ≡ self.old ++ body.now ∷ []) }
        ensures err { OnErr result (self.new ≡ self.old) }
        ensures looks { steps.new ≡ steps.old + length body.now }
    {
        self.push(steps.copy(alloc, body)?)
    }

    /// Appends what stands in a place as the body of one frame more, or nothing. The place is empty after it.
    #[inline]
    pub fn push_from(&mut self, alloc: Global, place: &mut Octets) -> Result<(), OutOfMemory>
        ensures ok { OnOk result (self.new ≡ self.old ++ place.old ∷ []) }
        ensures err { OnErr result (self.new ≡ self.old) }
    {
        self.push(mem::replace(place, Octets::new(alloc)))
    }

    /// Hands the bodies out with a copy of the last one after them, and has none any more. The copy is a look at each
    /// octet.
    pub fn close<L: Ledger>(
        &mut self,
        alloc: Global,
        last: &[u8],
        steps: &mut Steps<L>,
    ) -> Result<Frames, OutOfMemory>
        ensures bodies { IfOk result (λ bodies. bodies ≡ self.old ++ last.now ∷ []) }
        ensures empty { OnOk result (self.new ≡ []) }
        ensures looks { steps.new ≡ steps.old + length last.now }
    {
        self.push_copy(alloc, last, steps)?;
        Ok(self.take(alloc))
    }

    /// Hands the bodies out with the last one after them, and has none any more. One alone is handed on as it is.
    pub fn finish(&mut self, alloc: Global, last: Octets) -> Result<Frames, OutOfMemory>
        ensures bodies { IfOk result (λ bodies. bodies ≡ self.old ++ last ∷ []) }
        ensures empty { OnOk result (self.new ≡ []) }
    {
        if self.len() == 0 {
            return Ok(Frames::of(alloc, last));
        }
        self.push(last)?;
        Ok(self.take(alloc))
    }

    /// Hands the only body over into a place, and has none any more. What stood there is gone.
    #[inline]
    pub fn give(&mut self, place: &mut Octets)
        requires { length self.old ≡ 1 }
        ensures given { self.old ≡ place.new ∷ [] }
        ensures empty { self.new ≡ [] }
    {
        *place = self.bodies.remove(0);
        self.octets = 0;
    }

    /// Hands the bodies out, and has none any more.
    fn take(&mut self, alloc: Global) -> Frames
        ensures taken { result ≡ self.old }
        ensures empty { self.new ≡ [] }
    {
        self.octets = 0;
        mem::replace(&mut self.bodies, Frames::new(alloc))
    }
}
