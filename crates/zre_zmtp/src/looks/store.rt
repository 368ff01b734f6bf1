//! Octets that are looked at under a count.

ghost use Rattle.std.specs.Prelude.{◌≡◌, ℕ, ◌+◌, ◌<◌, List, [], ◌++◌, length, OnOk, OnErr, slice_index};

use crate::looks::steps::Steps;
use std::alloc::Global;
use std::marker::Model;
use std::mem;
use std::sync::ledger::Ledger;
use zre_values::{Octets, OutOfMemory};

/// A list of octets: who puts one there or reads one takes a look for it.
#[derive(Debug, Drop)]
pub struct Store {
    octets: Octets,
}

impl Model for Store {
    ghost use Rattle.std.specs.Prelude.{ℕ, List};

    ghost Value = { List ℕ };

    ghost view = { λ store. store.octets };
}

impl Store {
    /// The empty list, which takes no memory.
    pub fn new(alloc: Global) -> Self
        ensures empty { result ≡ [] }
    {
        Store {
            octets: Octets::new(alloc),
        }
    }

    /// Appends a copy of these octets, or nothing. It is a look at each of them.
    #[inline]
    pub fn add<L: Ledger>(&mut self, octets: &[u8], steps: &mut Steps<L>) -> Result<(), OutOfMemory>
        ensures ok { OnOk result (self.new ≡ self.old ++ octets.now) }
        ensures err { OnErr result (self.new ≡ self.old) }
        ensures looks { steps.new ≡ steps.old + length octets.now }
    {
        steps.take(octets.len());
        self.octets.append(octets)?;
        Ok(())
    }

    /// The octet at this place, counted from 0. It is one look.
    #[inline]
    pub fn octet<L: Ledger>(&self, i: usize, steps: &mut Steps<L>) -> u8
        requires { i < length self.now }
        ensures octet { result ≡ slice_index self.now i }
        ensures looks { steps.new ≡ steps.old + 1 }
    {
        steps.take(1);
        self.octets.as_slice()[i]
    }

    /// How many octets there are.
    #[inline]
    pub fn len(&self) -> usize
        ensures { result ≡ length self.now }
    {
        self.octets.len()
    }

    /// Hands the list over into a place, without a look, and has none any more. What stood there is gone.
    #[inline]
    pub fn give(&mut self, place: &mut Octets)
        ensures given { place.new ≡ self.old }
        ensures empty { self.new ≡ [] }
    {
        place.clear();
        mem::swap(&mut self.octets, place);
    }

    /// The list itself, without a look.
    pub fn finish(self) -> Octets
        ensures { result ≡ self }
    {
        let Store { octets } = self;
        octets
    }
}
