//! The shares of addresses. A share is found by the last ten bits of its address, so that the memory is bounded: hosts
//! of one network of at most 1,024 addresses have one each, and addresses further apart may have one together.

ghost use Rattle.std.specs.Prelude.{◌≡◌, ◌<◌, ◌-◌, nat_le, vec_len, replicate, IfOk};
ghost use Rattle.zre_fabric.specs.Places.{place_of as its_place, place_at as its_place_at};

use crate::bucket::{Bucket, Rate};
use crate::hold::Hold;
use crate::redial::Redial;
use std::alloc::Global;
use zre_values::{Endpoint, OutOfMemory};

/// How many shares there are.
const SHARES: usize = 1024;

/// So many connections one address has at most, those that wait included.
const CONNECTIONS: u64 = 128;

/// A burst of 64 connections, then 20 a second.
const OPENING: Rate = Rate {
    apart: 50,
    ahead: 3150,
};

/// A burst of 64 beacons, then 31 a second.
const BEACONS: Rate = Rate {
    apart: 32,
    ahead: 2016,
};

/// What an address has and had.
#[derive(Clone, Copy)]
struct Share {
    connections: u64,
    opened: Bucket,
    beacons: Bucket,
    redial: Redial,
    hold: Hold,
}

impl Share {
    ghost use Rattle.zre_fabric.specs.Shares.{nothing};

    fn new() -> Self
        ensures { result ≡ nothing }
    {
        Share {
            connections: 0,
            opened: Bucket::default(),
            beacons: Bucket::default(),
            redial: Redial::default(),
            hold: Hold::default(),
        }
    }
}

#[derive(Drop)]
pub(crate) struct Shares {
    shares: Vec<Share>,
    ghost size: { vec_len shares ≡ 1024 },
}

fn place_of(addr: [u8; 4]) -> usize
    ensures place { result ≡ its_place addr }
    ensures bound { result < 1024 }
{
    u32::from_be_bytes(addr) as usize % SHARES
}

// Nodes of one host have endpoints that differ in the port alone.
fn place_at(to: Endpoint) -> usize
    ensures place { result ≡ its_place_at to }
    ensures bound { result < 1024 }
{
    (u32::from_be_bytes(to.addr) as usize + to.port as usize) % SHARES
}

impl Shares {
    ghost use Rattle.zre_fabric.specs.Shares.{nothing, share_at, may_enter, may_open, IsChangedBy, with_one_more};
    ghost use Rattle.zre_fabric.specs.Shares.{with_one_fewer, with_opened};
    ghost use Rattle.zre_fabric.specs.Shares.{with_beacon, with_link, shares_after_closing};

    pub(crate) fn new(alloc: Global) -> Result<Self, OutOfMemory>
        ensures { IfOk result (λ s. s.shares.items ≡ replicate 1024 nothing) }
    {
        Ok(Shares {
            shares: Vec::from_elem(alloc, Share::new(), SHARES)?,
        })
    }

    /// Whether the address may have one more connection. It is then counted.
    pub(crate) fn enter(&mut self, addr: [u8; 4]) -> bool
        ensures room { result ≡ may_enter (share_at self.old (its_place addr)) }
        ensures count { IsChangedBy (with_one_more result) (its_place addr) self.old self.new }
    {
        let share = &mut self.shares[place_of(addr)];
        if share.connections >= CONNECTIONS {
            return false;
        }
        share.connections += 1;
        true
    }

    /// A connection that was counted is gone.
    pub(crate) fn leave(&mut self, addr: [u8; 4])
        ensures { IsChangedBy with_one_fewer (its_place addr) self.old self.new }
    {
        let share = &mut self.shares[place_of(addr)];
        share.connections = share.connections.saturating_sub(1);
    }

    /// Whether a connection of the address, which came at an earlier reading, may be given as opened now. It is then
    /// counted.
    pub(crate) fn opens(&mut self, addr: [u8; 4], came: u64, at: u64) -> bool
        ensures may { result ≡ may_open (share_at self.old (its_place addr)) came at }
        ensures count { IsChangedBy (with_opened at result) (its_place addr) self.old self.new }
    {
        let share = &mut self.shares[place_of(addr)];
        !share.hold.holds(came, at) && share.opened.take(OPENING, at)
    }

    /// Whether a beacon of the address may be given now. It is then counted.
    pub(crate) fn heard(&mut self, addr: [u8; 4], at: u64) -> bool
        ensures may { result ≡ nat_le ((share_at self.old (its_place addr)).beacons.spent - at) 2016 }
        ensures count { IsChangedBy (with_beacon at result) (its_place addr) self.old self.new }
    {
        self.shares[place_of(addr)].beacons.take(BEACONS, at)
    }

    /// A link to the endpoint was closed. Where that happens again and again, connections of its address wait.
    pub(crate) fn closed(&mut self, to: Endpoint, at: u64, chance: u64)
        ensures { self.new.shares.items ≡ shares_after_closing to at chance self.old.shares.items }
    {
        let redial = &mut self.shares[place_at(to)].redial;
        redial.closed(at, chance);
        if redial.is_again() {
            self.shares[place_of(to.addr)].hold.begin(at);
        }
    }

    /// A link to the address came to stand.
    pub(crate) fn stood(&mut self, addr: [u8; 4], at: u64)
        ensures { IsChangedBy (with_link at) (its_place addr) self.old self.new }
    {
        self.shares[place_of(addr)].hold.stood(at);
    }

    /// From when on the endpoint may be dialed.
    pub(crate) fn redial_due(&self, to: Endpoint) -> u64
        ensures { result ≡ (share_at self.now (its_place_at to)).redial.due }
    {
        self.shares[place_at(to)].redial.due()
    }
}
