//! What a world has before it is started.

ghost use Rattle.std.specs.Prelude.{◌≡◌, IfSome, Ok};

use crate::beacons::address;
use crate::bell::Bell;
use mio::net::TcpListener;
use std::io;
use std::net::Net;
use zre_values::{Endpoint, take_apart};

/// A listener that was bound before the world was started.
#[derive(Drop)]
pub(crate) struct Reserved {
    at: Endpoint,
    listener: TcpListener,
}

/// The bell, and the mailbox where it was reserved.
pub(crate) struct Prepared {
    pub(crate) bell: Option<Bell>,
    pub(crate) mailbox: Option<Reserved>,
}

impl Drop for Prepared {
    fn drop(self) {
        take_apart!(self, Prepared: bell, mailbox);
    }
}

impl Prepared {
    /// Listens at a place, where that can be done.
    pub(crate) fn reserve<R: Net>(&mut self, rt: &R, at: Endpoint)
        ensures place { IfSome self.new.mailbox (λ r. r.at ≡ at) }
        ensures bell { self.new.bell ≡ self.old.bell }
    {
        self.mailbox = None;
        if let Ok(listener) = TcpListener::bind(rt, address(at.addr, at.port)) {
            self.mailbox = Some(Reserved { at, listener });
        }
    }
}

/// The listener at this place: the one that was reserved there, or a new one. One reserved elsewhere is closed.
pub(crate) fn listen<R: Net>(
    rt: &R,
    at: Endpoint,
    reserved: Option<Reserved>,
) -> io::Result<TcpListener>
    ensures { IfSome reserved (λ r. r.at ≡ at → result ≡ Ok r.listener) }
{
    match reserved {
        Some(
            Reserved {
                at: place,
                listener,
            },
        ) if place == at => Ok(listener),
        other => {
            drop(other);
            TcpListener::bind(rt, address(at.addr, at.port))
        }
    }
}
