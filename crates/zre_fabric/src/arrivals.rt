//! Connections that came, before they are given as opened.

ghost use Rattle.std.specs.Prelude.{◌≡◌, [], IfOk, OnOk};
ghost use Rattle.zre_fabric.specs.Arriving.{given_at, waiting_after};
ghost use Rattle.zre_fabric.specs.Places.{place_of};
ghost use Rattle.zre_fabric.specs.Shares.{share_at};

use crate::shares::Shares;
use mio::net::TcpStream;
use std::alloc::Global;
use std::collections::VecDeque;
use zre_values::OutOfMemory;

/// So many connections wait at most. The kernel has more descriptors than these and the node's connections and links.
const WAITING: usize = 128;

/// A connection, the address that it came from, and the reading at which it came.
#[derive(Drop)]
pub(crate) struct Arrival {
    pub(crate) stream: TcpStream,
    pub(crate) addr: [u8; 4],
    pub(crate) at: u64,
}

/// Connections that were accepted and not read, in the order in which they came.
#[derive(Drop)]
pub(crate) struct Arrivals {
    waiting: VecDeque<Arrival>,
}

impl Arrivals {
    pub(crate) fn new(alloc: Global) -> Self
        ensures { result.waiting.items ≡ [] }
    {
        Arrivals {
            waiting: VecDeque::new(alloc),
        }
    }

    /// A connection came. It comes back where it may be given as opened now, and else waits. One too many is closed.
    pub(crate) fn arrive(
        &mut self,
        came: Arrival,
        shares: &mut Shares,
        at: u64,
    ) -> Result<Option<Arrival>, OutOfMemory>
        ensures given { let share = share_at shares.old (place_of came.addr) in
            IfOk result (λ given. given ≡ given_at share came at) }
        ensures waiting { let share = share_at shares.old (place_of came.addr) in
            OnOk result (self.new.waiting.items ≡ waiting_after share came at self.old.waiting.items) }
    {
        let addr = came.addr;
        if !shares.enter(addr) {
            drop(came);
            return Ok(None);
        }
        if shares.opens(addr, came.at, at) {
            return Ok(Some(came));
        }
        if self.waiting.len() >= WAITING {
            shares.leave(addr);
            drop(came);
            return Ok(None);
        }
        self.waiting.push_back(came)?;
        Ok(None)
    }

    /// The first of those that wait which may be given as opened now.
    pub(crate) fn next(&mut self, shares: &mut Shares, at: u64) -> Option<Arrival> {
        for i in 0..self.waiting.len() {
            let Some(arrival) = self.waiting.get(i) else {
                break;
            };
            if shares.opens(arrival.addr, arrival.at, at) {
                return self.waiting.remove(i);
            }
        }
        None
    }
}
