//! PING of ZMTP 3.1 (RFC 37, heartbeats).

ghost use Rattle.std.specs.Prelude.{◌≡◌, option_copied};
ghost use Rattle.zre_zmtp.specs.Ping.{context_of as context_of_ping, context_in};

use crate::command::rest;
use crate::item::What;

/// The context of a PING, by the name of a command and what stands after it. The two octets before the context tell a
/// time, which has no effect here. A PING of another length is no PING.
pub fn context_of<'a>(name: &[u8], rest: &'a [u8]) -> Option<&'a [u8]>
    ensures { option_copied result ≡ context_of_ping name.now rest.now }
{
    if name == b"PING".as_slice() && rest.len() >= 2 && rest.len() <= 18 {
        Some(&rest[2..])
    } else {
        None
    }
}

impl What {
    /// The context of the PING that this is, if it is one.
    pub fn context(&self) -> Option<&[u8]>
        ensures { option_copied result ≡ context_in self.now }
    {
        match self {
            What::Command { name, body, .. } => context_of(name.as_slice(), rest(body.as_slice())),
            What::Greeting { .. } | What::Ready { .. } | What::Message(_) => None,
        }
    }
}
