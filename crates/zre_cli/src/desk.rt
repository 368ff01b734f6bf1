//! A desk that says for whom it waits.

use crate::complaint;
use std::io::Eprint;
use zre_outside::{Desk, Failed};
use zre_values::{Endpoint, take_apart};

/// A desk, and standard error. It says before it waits which client it waits for, and where.
pub(crate) struct Waiting<D, R> {
    inner: D,
    rt: R,
    // How many clients there are to be, and how many came.
    clients: u64,
    came: u64,
    place: Option<Endpoint>,
}

impl<D: Drop, R: Drop> Drop for Waiting<D, R> {
    fn drop(self) {
        take_apart!(self, Waiting: inner, rt, clients, came, place);
    }
}

impl<D, R> Waiting<D, R> {
    pub(crate) fn new(inner: D, rt: R, clients: u64) -> Self {
        Waiting {
            inner,
            rt,
            clients,
            came: 0,
            place: None,
        }
    }

    pub(crate) fn inner(&self) -> &D {
        &self.inner
    }
}

impl<D: Desk, R: Eprint> Desk for Waiting<D, R> {
    type Client = D::Client;

    ghost told = { λ d. D.told d.inner };

    ghost faults = { λ d. D.faults d.inner };

    ghost refused = { λ d. D.refused d.inner };

    fn begin(&mut self, addr: [u8; 4], port: u16) -> Result<(), Failed> {
        self.place = Some(Endpoint { addr, port });
        self.came = 0;
        self.inner.begin(addr, port)
    }

    fn next(&mut self) -> Result<D::Client, Failed> {
        self.came = self.came.saturating_add(1);
        complaint::of_client(&self.rt, self.came, self.clients, self.place);
        self.inner.next()
    }
}
