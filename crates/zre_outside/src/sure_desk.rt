ghost use Rattle.std.specs.Prelude.{◌≡◌, Some, option_map, is_err, IfOk, OnOk, OnErr};
ghost use Rattle.zre_outside.specs.Causes.{Rose};
ghost use Rattle.zre_outside.specs.Desks.{ClientQueue, first_register, with_begun, with_given, GivesOn};
ghost use Rattle.zre_outside.specs.Givens.{given_in};
ghost use Rattle.zre_outside.specs.Memory.{SourceReading};
ghost use Rattle.zre_outside.specs.Refusals.{refused_after};

use crate::given::Given;
use crate::{Desk, Failed, SureSource};
use std::alloc::Global;
use std::collections::VecDeque;
use std::marker::Model;
use zre_values::{Endpoint, Octets};

/// Clients in memory, given in order. Past the last one come clients that send nothing. Its count of faults is 0, so
/// it never fails.
#[derive(Drop)]
pub struct SureDesk {
    alloc: Global,
    left: VecDeque<SureSource>,
    begun: Option<Endpoint>,
    given: Given<SureSource>,
}

impl Model for SureDesk {
    ghost Value = { ClientQueue SourceReading };

    ghost view = { λ d. record { left = d.left.items; told = record { begun = d.begun; given = given_in d.given } } };
}

impl SureDesk {
    /// A desk that isn't begun, and that gave none of these clients.
    pub fn new(alloc: Global, clients: Vec<SureSource>) -> Self
        ensures { result ≡ record { left = clients.items; told = first_register } }
    {
        SureDesk {
            alloc,
            left: VecDeque::from(clients),
            begun: None,
            given: Given::nothing(),
        }
    }
}

impl Desk for SureDesk {
    type Client = SureSource;

    ghost told = { λ d. Some d.told };

    ghost faults = { λ _. 0 };

    ghost refused = { λ _. Some 0 };

    fn begin(&mut self, addr: [u8; 4], port: u16) -> Result<(), Failed>
        // What it tells.
        ensures told { OnOk result (Some self.new.told ≡ option_map (with_begun addr port)
            (Some self.old.told)) }
        ensures refused { OnErr result (Some self.new.told ≡ Some self.old.told) }
        // It never fails.
        ensures failed { OnErr result (Rose 0 0) }
        ensures counts { Some 0 ≡ refused_after (is_err result) (Some 0) }
        ensures left { self.new.left ≡ self.old.left }
    {
        self.begun = Some(Endpoint { addr, port });
        Ok(())
    }

    fn next(&mut self) -> Result<SureSource, Failed>
        // What it tells.
        ensures told { IfOk result (λ c. Some self.new.told ≡ option_map (with_given c)
            (Some self.old.told)) }
        ensures refused { OnErr result (Some self.new.told ≡ Some self.old.told) }
        // It never fails.
        ensures failed { OnErr result (Rose 0 0) }
        ensures counts { Some 0 ≡ refused_after (is_err result) (Some 0) }
        // The client.
        ensures first { IfOk result (λ c. GivesOn c self.old.left self.new.left) }
    {
        let client = match self.left.pop_front() {
            Some(client) => client,
            None => SureSource::new(Octets::new(self.alloc)),
        };
        self.given = self.given.with(&client);
        Ok(client)
    }
}
