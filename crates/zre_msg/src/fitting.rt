//! Which messages have frames.

ghost use Rattle.std.specs.Prelude.{◌≡◌, ◌<◌, ◌^◌, length, All, IsTrue, ◌↔◌};
ghost use Rattle.zre_msg.specs.Spelling.{FitsString, FitsLong, FitsPair, Fits};

use crate::message::{Body, Message};
use zre_values::{Frames, Octets, Pairs};

fn is_string(octets: &Octets) -> bool
    ensures { IsTrue result ↔ FitsString octets.now }
{
    octets.len() <= u8::MAX as usize
}

fn is_long_string(octets: &Octets) -> bool
    ensures { IsTrue result ↔ FitsLong octets.now }
{
    octets.len() <= u32::MAX as usize
}

fn is_pair(pair: &(Octets, Octets)) -> bool
    ensures { IsTrue result ↔ FitsPair pair.now }
{
    is_string(&pair.0) && is_long_string(&pair.1)
}

fn are_strings(members: &Frames) -> bool
    ensures { IsTrue result ↔ ((length members.now < 2 ^ 32) × All FitsLong members.now) }
{
    members.len() <= u32::MAX as usize && members.as_slice().iter().all(is_long_string)
}

fn is_dictionary(items: &Pairs) -> bool
    ensures { IsTrue result ↔ ((length items.now < 2 ^ 32) × All FitsPair items.now) }
{
    items.len() <= u32::MAX as usize && items.as_slice().iter().all(is_pair)
}

impl Message {
    /// Whether the message has frames: each string has at most 255 octets, counts and the lengths of long strings
    /// fit four octets, and another command has a number of its own.
    pub fn fits(&self) -> bool
        ensures { IsTrue result ↔ Fits self.now }
    {
        match &self.body {
            Body::Hello {
                endpoint,
                groups,
                name,
                headers,
                ..
            } => is_string(endpoint)
                && are_strings(groups)
                && is_string(name)
                && is_dictionary(headers),
            Body::Shout { group, .. } | Body::Join { group, .. } | Body::Leave { group, .. } =>
                is_string(group),
            Body::Other { number, .. } => *number == 0 || *number > 7,
            Body::Whisper { .. } | Body::Ping | Body::PingOk => true,
        }
    }
}
