ghost use Rattle.std.specs.Prelude.{◌≡◌, ◌≤◌, ◌==◌, ◌||◌, ◌∷◌, Some, length, option_map, is_err, IfOk, OnOk, OnErr};
ghost use Rattle.zre_outside.specs.Calls.{no_calls, called, next_is_listed};
ghost use Rattle.zre_outside.specs.Causes.{Rose, counted};
ghost use Rattle.zre_outside.specs.Desks.{FailingQueue, first_register, with_begun, with_given};
ghost use Rattle.zre_outside.specs.Givens.{given_in};
ghost use Rattle.zre_outside.specs.Memory.{FailingReading};
ghost use Rattle.zre_outside.specs.Refusals.{refused_after};

use crate::calls::Calls;
use crate::given::Given;
use crate::{Desk, Failed, MemSource};
use std::collections::VecDeque;
use std::marker::Model;
use zre_values::Endpoint;

/// Clients in memory, given in order. The calls of `begin` and of `next` with the numbers of two lists fail, counted
/// from 1, and so does a `next` past the last client.
#[derive(Drop)]
pub struct MemDesk {
    left: VecDeque<MemSource>,
    begun: Option<Endpoint>,
    given: Given<MemSource>,
    begins: Calls,
    nexts: Calls,
    faults: u64,
}

impl Model for MemDesk {
    ghost Value = { FailingQueue FailingReading };

    ghost view = { λ d. record {
      queue = record {
        left = d.left.items;
        told = record { begun = d.begun; given = given_in d.given };
      };
      begins = d.begins;
      nexts = d.nexts;
      faults = d.faults;
    } };
}

impl MemDesk {
    /// A desk that isn't begun, and that gave none of these clients.
    pub fn new(clients: Vec<MemSource>, begin_fails: Vec<u64>, next_fails: Vec<u64>) -> Self
        ensures queue { result.queue ≡ record { left = clients.items; told = first_register } }
        ensures calls { (result.begins ≡ no_calls begin_fails.items) × (result.nexts ≡ no_calls next_fails.items) }
        ensures faults { result.faults ≡ 0 }
    {
        MemDesk {
            left: VecDeque::from(clients),
            begun: None,
            given: Given::nothing(),
            begins: Calls::new(begin_fails),
            nexts: Calls::new(next_fails),
            faults: 0,
        }
    }
}

impl Desk for MemDesk {
    type Client = MemSource;

    ghost told = { λ d. Some d.queue.told };

    ghost faults = { λ d. d.faults };

    ghost refused = { λ d. Some d.faults };

    /// The calls whose numbers are listed fail, and no others.
    fn begin(&mut self, addr: [u8; 4], port: u16) -> Result<(), Failed>
        // What it tells.
        ensures told { OnOk result (Some self.new.queue.told ≡ option_map (with_begun addr port)
            (Some self.old.queue.told)) }
        ensures refused { OnErr result (Some self.new.queue.told ≡ Some self.old.queue.told) }
        // Which counts of faults rise.
        ensures later { self.old.faults ≤ self.new.faults }
        ensures failed { OnErr result (Rose self.old.faults self.new.faults) }
        ensures counts { Some self.new.faults ≡ refused_after (is_err result) (Some self.old.faults) }
        ensures counted { self.new.faults ≡ counted (is_err result) self.old.faults }
        // The calls that it lists.
        ensures listed { is_err result ≡ next_is_listed self.old.begins }
        ensures calls { (self.new.begins ≡ called self.old.begins) × (self.new.nexts ≡ self.old.nexts) }
        // What stays as it was.
        ensures left { self.new.queue.left ≡ self.old.queue.left }
    {
        if self.begins.next_fails() {
            self.faults = self.faults.saturating_add(1);
            return Err(Failed);
        }
        self.begun = Some(Endpoint { addr, port });
        Ok(())
    }

    /// The calls whose numbers are listed fail, and those past the last client, and no others.
    fn next(&mut self) -> Result<MemSource, Failed>
        // What it tells.
        ensures told { IfOk result (λ c. Some self.new.queue.told ≡ option_map (with_given c)
            (Some self.old.queue.told)) }
        ensures refused { OnErr result (Some self.new.queue.told ≡ Some self.old.queue.told) }
        // Which counts of faults rise.
        ensures later { self.old.faults ≤ self.new.faults }
        ensures failed { OnErr result (Rose self.old.faults self.new.faults) }
        ensures counts { Some self.new.faults ≡ refused_after (is_err result) (Some self.old.faults) }
        ensures counted { self.new.faults ≡ counted (is_err result) self.old.faults }
        // The calls that it lists.
        ensures listed { is_err result ≡ next_is_listed self.old.nexts || length self.old.queue.left == 0 }
        ensures calls { (self.new.nexts ≡ called self.old.nexts) × (self.new.begins ≡ self.old.begins) }
        // The client.
        ensures first { IfOk result (λ c. self.old.queue.left ≡ c ∷ self.new.queue.left) }
        ensures unchanged { OnErr result (self.new.queue.left ≡ self.old.queue.left) }
    {
        if self.nexts.next_fails() {
            self.faults = self.faults.saturating_add(1);
            return Err(Failed);
        }
        let Some(client) = self.left.pop_front() else {
            self.faults = self.faults.saturating_add(1);
            return Err(Failed);
        };
        self.given = self.given.with(&client);
        Ok(client)
    }
}
