ghost use Rattle.std.specs.Prelude.{◌≤◌, length, IfOk};
ghost use Rattle.zre_fabric.specs.Origins.{IsOfBeacons};
ghost use Rattle.zre_fabric.specs.Pieces.{StepIsShort};

use crate::errors::{ErrorClass, class_of, once_ready};
use crate::network_fault::{NetworkFault, SystemPart, failed};
use crate::polled::Polled;
use crate::read_buffer::ReadBuffer;
use crate::shares::Shares;
use mio::net::UdpSocket;
use std::alloc::Global;
use std::io;
use std::net::{Ipv4Addr, Net, SocketAddr};
use zre_outside::{Input, Start};
use zre_values::{Endpoint, Octets, take_apart};

/// So many beacons one step drops at most.
const DROPS: u32 = 32;

/// The socket that beacons come to and go out from, and where they go to.
pub(crate) struct BeaconSocket {
    pub(crate) socket: UdpSocket,
    pub(crate) is_queued: bool,
    to: Vec<[u8; 4]>,
    at: Endpoint,
}

impl Drop for BeaconSocket {
    fn drop(self) {
        take_apart!(self, BeaconSocket: socket, is_queued, to, at);
    }
}

pub(crate) fn address(addr: [u8; 4], port: u16) -> SocketAddr {
    SocketAddr::from((Ipv4Addr::from(addr), port))
}

fn bind<R: Net>(rt: &R, s: &Start) -> io::Result<UdpSocket> {
    let socket = UdpSocket::bind(rt, address(s.listen, s.beacon_port))?;
    let broadcasts = socket.set_broadcast(true);
    once_ready(socket, broadcasts)
}

impl BeaconSocket {
    pub(crate) fn open<R: Net>(rt: &R, alloc: Global, s: &Start) -> Result<Self, NetworkFault> {
        let at = Endpoint {
            addr: s.listen,
            port: s.beacon_port,
        };
        let socket = match bind(rt, s) {
            Ok(socket) => socket,
            Err(error) => return Err(failed(SystemPart::Beacons(at), error)),
        };
        let Ok(to) = Vec::from_slice(alloc, s.to.as_slice()) else {
            drop(socket);
            return Err(NetworkFault::OutOfMemory);
        };
        Ok(BeaconSocket {
            socket,
            is_queued: false,
            to,
            at,
        })
    }

    /// Sends a beacon to each address. One that can't be sent is dropped, since another follows.
    pub(crate) fn send(&self, bytes: &[u8]) {
        for to in &self.to {
            let _ = self.socket.send_to(bytes, address(*to, self.at.port));
        }
    }

    /// The next beacon of an address that has a share left. After some without one the step ends.
    pub(crate) fn step(
        &mut self,
        buffer: &mut ReadBuffer,
        shares: &mut Shares,
        at: u64,
    ) -> Result<Polled, NetworkFault>
        ensures short { IfOk result (λ step. StepIsShort step) }
        ensures own { IfOk result (λ step. IsOfBeacons step) }
    {
        for _ in 0..DROPS {
            let Ok(received) = buffer.receive(&self.socket) else {
                return Err(NetworkFault::OutOfMemory);
            };
            let datagram = match received {
                Ok(datagram) => datagram,
                Err(error) => return self.refused(error),
            };
            let step = entry_of(datagram, shares, at);
            if !matches!(&step, Polled::Dropped) {
                return Ok(step);
            }
            drop(step);
        }
        Ok(Polled::Dropped)
    }

    fn refused(&self, error: io::Error) -> Result<Polled, NetworkFault>
        ensures short { IfOk result (λ step. StepIsShort step) }
        ensures own { IfOk result (λ step. IsOfBeacons step) }
    {
        match class_of(&error) {
            ErrorClass::NotReady => Ok(Polled::Rest),
            ErrorClass::Transient => Ok(Polled::Again),
            ErrorClass::Fatal => Err(failed(SystemPart::Beacons(self.at), error)),
        }
    }
}

// The socket is bound to an address of IPv4, so that no others send to it.
fn entry_of(datagram: (Octets, SocketAddr), shares: &mut Shares, at: u64) -> Polled
    requires { length datagram.0 ≤ 65536 }
    ensures short { StepIsShort result }
    ensures own { IsOfBeacons result }
{
    let (bytes, from) = datagram;
    let SocketAddr::V4(from) = from else {
        return Polled::Dropped;
    };
    let from = from.ip().octets();
    if shares.heard(from, at) {
        Polled::More(Input::Datagram { from, bytes })
    } else {
        Polled::Dropped
    }
}
