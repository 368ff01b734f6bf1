//! Why a call of the network ended early.

ghost use Rattle.std.specs.Prelude.{◌≡◌, IsSome};
ghost use Rattle.zre_fabric.specs.NetworkFaults.{fault_of};

use std::io;
use zre_outside::NextFault;
use zre_values::{Endpoint, OutOfMemory};

/// What the system refused to a world.
#[derive(Clone, Copy, Debug)]
pub enum SystemPart {
    /// To read the clock.
    Clock,
    /// To wait for sockets.
    Poll,
    /// To hear beacons at this address and port, by UDP.
    Beacons(Endpoint),
    /// To listen at this address and port, by TCP.
    Mailbox(Endpoint),
}

/// What failed, and why as the system says it.
#[derive(Clone, Copy, Debug)]
pub struct Reason {
    /// What failed.
    pub part: SystemPart,
    /// Why.
    pub error: io::Error,
}

#[derive(Clone, Copy)]
pub(crate) enum NetworkFault {
    Failed(Reason),
    OutOfMemory,
}

impl NetworkFault {
    pub(crate) fn fault(self) -> NextFault
        ensures { result ≡ fault_of self }
    {
        match self {
            NetworkFault::Failed(_) => NextFault::Failed,
            NetworkFault::OutOfMemory => NextFault::OutOfMemory,
        }
    }

    /// The reason, where it is one of the system's.
    pub(crate) fn reason(self) -> Option<Reason>
        ensures { fault_of self ≡ NextFault.Failed → IsSome result }
    {
        match self {
            NetworkFault::Failed(reason) => Some(reason),
            NetworkFault::OutOfMemory => None,
        }
    }
}

pub(crate) fn failed(part: SystemPart, error: io::Error) -> NetworkFault
    ensures { fault_of result ≡ NextFault.Failed }
{
    NetworkFault::Failed(Reason { part, error })
}

pub(crate) fn no_memory(_: OutOfMemory) -> NetworkFault
    ensures { result ≡ NetworkFault.OutOfMemory }
{
    NetworkFault::OutOfMemory
}
