//! Why a body isn't put on a link, and why a reply is refused.

ghost use Rattle.std.specs.Prelude.{◌≡◌};
ghost use Rattle.zre_link.specs.declared.fault.PushFault.TheVariants.{OutOfMemory as NoMemory};
ghost use Rattle.zre_link.specs.declared.fault.ReplyFault.TheVariants.{OutOfMemory as NoMemoryThere};

use zre_zmtp::ZmtpFault;

/// Why a body wasn't put on a link.
#[derive(Clone, Copy, Debug, PartialEq, Eq)]
pub enum PushFault {
    /// The peer is slow to read: `unsent` octets wait already, the message has `size` octets, and together they are
    /// more than may wait on one link.
    Slow { unsent: u64, size: u64 },
    /// No memory was left, or a count of the link is at its end.
    OutOfMemory,
}

/// Why a piece of replies was refused.
#[derive(Clone, Copy, Debug, PartialEq, Eq)]
pub enum ReplyFault {
    /// The replies are no stream of a ROUTER.
    Zmtp(ZmtpFault),
    /// The peer is slow to read: `unsent` octets wait where a PING came, its PONG has `size` octets, and together they
    /// are more than may wait on one link.
    Slow { unsent: u64, size: u64 },
    /// No memory was left, or a count of the link is at its end.
    OutOfMemory,
}

impl From<zre_values::OutOfMemory> for PushFault {
    ghost from_gives = { λ _ e. e ≡ NoMemory };

    fn from(_: zre_values::OutOfMemory) -> Self {
        PushFault::OutOfMemory
    }
}

impl From<zre_values::OutOfMemory> for ReplyFault {
    ghost from_gives = { λ _ e. e ≡ NoMemoryThere };

    fn from(_: zre_values::OutOfMemory) -> Self {
        ReplyFault::OutOfMemory
    }
}
