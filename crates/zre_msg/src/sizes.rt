//! How long the frames of a message are, without writing them. A length above the greatest u64 is told as that.

ghost use Rattle.std.specs.Prelude.{◌≡◌, ℕ, List, ◌-◌, ◌^◌, ◌∷◌, ◌++◌, length, min, sum_by};
ghost use Rattle.std.specs.List.{flat_map};
ghost use Rattle.zre_values.specs.Framing.{frame, frames};
ghost use Rattle.zre_msg.specs.Spelling.{string as string_text, long_string, strings, pair, dictionary, fields};
ghost use Rattle.zre_msg.specs.Spelling.{further, first_frame, spell, octets, is_big as big_test};

use crate::message::{Body, Message};
use zre_values::limits::{MESSAGE_FRAMES, MESSAGE_OCTETS};
use zre_values::{Frames, Octets, Pairs};

fn string_len(octets: &Octets) -> u64
    ensures { result ≡ min (length (string_text octets.now)) (2 ^ 64 - 1) }
{
    (octets.len() as u64).saturating_add(1)
}

fn long_string_len(octets: &Octets) -> u64
    ensures { result ≡ min (length (long_string octets.now)) (2 ^ 64 - 1) }
{
    (octets.len() as u64).saturating_add(4)
}

fn strings_len(members: &Frames) -> u64
    ensures { result ≡ min (length (strings members.now)) (2 ^ 64 - 1) }
{
    let mut len: u64 = 4;
    for member in members.as_slice() {
        len = len.saturating_add(long_string_len(member));
    }
    len
}

fn dictionary_len(items: &Pairs) -> u64
    ensures { result ≡ min (length (dictionary items.now)) (2 ^ 64 - 1) }
{
    let mut len: u64 = 4;
    for item in items.as_slice() {
        len = len
            .saturating_add(string_len(&item.0))
            .saturating_add(long_string_len(&item.1));
    }
    len
}

fn fields_len(body: &Body) -> u64
    ensures { result ≡ min (length (fields body.now)) (2 ^ 64 - 1) }
{
    match body {
        Body::Hello {
            endpoint,
            groups,
            name,
            headers,
            ..
        } => string_len(endpoint)
            .saturating_add(strings_len(groups))
            .saturating_add(1)
            .saturating_add(string_len(name))
            .saturating_add(dictionary_len(headers)),
        Body::Shout { group, .. } => string_len(group),
        Body::Join { group, .. } | Body::Leave { group, .. } => string_len(group).saturating_add(1),
        Body::Other { rest, .. } => rest.len() as u64,
        Body::Whisper { .. } | Body::Ping | Body::PingOk => 0,
    }
}

// The length of the frame with a body of this length.
fn frame_len(len: u64) -> u64
    ensures { (flags : ℕ) (body : List ℕ) → len ≡ min (length body) (2 ^ 64 - 1)
        → result ≡ min (length (frame flags body)) (2 ^ 64 - 1) }
{
    len.saturating_add(if len < 256 { 2 } else { 9 })
}

// The length of frames of this size each, without a flag that tells more.
fn frames_len(bodies: &Frames) -> u64
    ensures { result ≡ min (sum_by (λ body. length (frame 0 body)) bodies.now) (2 ^ 64 - 1) }
{
    let mut len: u64 = 0;
    for body in bodies.as_slice() {
        len = len.saturating_add(frame_len(body.len() as u64));
    }
    len
}

impl Message {
    pub(crate) fn first_len(&self) -> u64
        ensures { result ≡ min (length (first_frame self.now)) (2 ^ 64 - 1) }
    {
        fields_len(&self.body).saturating_add(6)
    }

    /// Whether the message has more than 1,024 frames or more than 1,048,576 octets in them, so that no node takes it.
    pub fn is_big(&self) -> bool
        ensures { result ≡ big_test self.now }
    {
        let (count, octets) = match self.body.further() {
            Some(further) => (further.len(), further.total()),
            None => (0, 0),
        };
        count >= MESSAGE_FRAMES || self.first_len().saturating_add(octets) > MESSAGE_OCTETS as u64
    }

    /// How many octets the message has on a connection, or the greatest u64 where they are more.
    pub fn octets_len(&self) -> u64
        ensures { result ≡ min (length (octets self.now)) (2 ^ 64 - 1) }
    {
        let first = frame_len(self.first_len());
        match self.body.further() {
            Some(further) => first.saturating_add(frames_len(further)),
            None => first,
        }
    }
}
