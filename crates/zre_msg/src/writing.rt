//! Messages written as their frames.

ghost use Rattle.std.specs.Prelude.{◌≡◌, ◌<◌, ◌^◌, ◌∷◌, ◌++◌, [], length, All, IfOk, OnOk, IsTrue, ◌↔◌, MatchOption};
ghost use Rattle.std.specs.Int.{w32, to_be_bytes};
ghost use Rattle.zre_msg.specs.Spelling.{string, long_string, strings, pair, dictionary, number_of, fields};
ghost use Rattle.zre_msg.specs.Spelling.{further, head, first_frame, spell, FitsString, FitsLong, FitsPair};
ghost use Rattle.zre_msg.specs.Spelling.{FitsBody, Fits};

use crate::further::push_copies;
use crate::message::{Body, Message};
use std::alloc::Global;
use zre_values::{Frames, Octets, OutOfMemory, Pairs};

fn push_count(out: &mut Octets, n: usize) -> Result<(), OutOfMemory>
    requires { n < 2 ^ 32 }
    ensures { OnOk result (out.new ≡ out.old ++ to_be_bytes w32 n) }
{
    out.append(&(n as u32).to_be_bytes())
}

pub(crate) fn push_string(out: &mut Octets, octets: &[u8]) -> Result<(), OutOfMemory>
    requires { FitsString octets.now }
    ensures { OnOk result (out.new ≡ out.old ++ string octets.now) }
{
    out.push(octets.len() as u8)?;
    out.append(octets)
}

fn push_long_string(out: &mut Octets, octets: &[u8]) -> Result<(), OutOfMemory>
    requires { FitsLong octets.now }
    ensures { OnOk result (out.new ≡ out.old ++ long_string octets.now) }
{
    push_count(out, octets.len())?;
    out.append(octets)
}

fn push_strings(out: &mut Octets, members: &Frames) -> Result<(), OutOfMemory>
    requires count { length members.now < 2 ^ 32 }
    requires each { All FitsLong members.now }
    ensures { OnOk result (out.new ≡ out.old ++ strings members.now) }
{
    push_count(out, members.len())?;
    for member in members.as_slice() {
        push_long_string(out, member.as_slice())?;
    }
    Ok(())
}

fn push_pair(out: &mut Octets, name: &[u8], value: &[u8]) -> Result<(), OutOfMemory>
    requires { FitsPair (name.now, value.now) }
    ensures { OnOk result (out.new ≡ out.old ++ pair (name.now, value.now)) }
{
    push_string(out, name)?;
    push_long_string(out, value)
}

fn push_dictionary(out: &mut Octets, items: &Pairs) -> Result<(), OutOfMemory>
    requires count { length items.now < 2 ^ 32 }
    requires each { All FitsPair items.now }
    ensures { OnOk result (out.new ≡ out.old ++ dictionary items.now) }
{
    push_count(out, items.len())?;
    for item in items.as_slice() {
        push_pair(out, item.0.as_slice(), item.1.as_slice())?;
    }
    Ok(())
}

fn push_group(out: &mut Octets, group: &Octets, status: u8) -> Result<(), OutOfMemory>
    requires { FitsString group.now }
    ensures { OnOk result (out.new ≡ out.old ++ (string group.now ++ status ∷ [])) }
{
    push_string(out, group.as_slice())?;
    out.push(status)
}

impl Body {
    /// The command octet.
    pub fn number(&self) -> u8
        ensures { result ≡ number_of self.now }
    {
        match self {
            Body::Hello { .. } => 1,
            Body::Whisper { .. } => 2,
            Body::Shout { .. } => 3,
            Body::Join { .. } => 4,
            Body::Leave { .. } => 5,
            Body::Ping => 6,
            Body::PingOk => 7,
            Body::Other { number, .. } => *number,
        }
    }

    // The frames after the first.
    pub(crate) fn further(&self) -> Option<&Frames>
        ensures { MatchOption result (further self.now ≡ []) (λ frames. further self.now ≡ frames.now) }
    {
        match self {
            Body::Whisper { content } | Body::Shout { content, .. } => Some(content),
            Body::Other { more, .. } => Some(more),
            _ => None,
        }
    }
}

// What each first frame begins with.
#[inline]
pub(crate) fn push_head(out: &mut Octets, number: u8, sequence: u16) -> Result<(), OutOfMemory>
    ensures { OnOk result (out.new ≡ out.old ++ head number sequence) }
{
    out.append(&[0xaa, 0xa1, number, 2])?;
    out.append(&sequence.to_be_bytes())
}

fn push_fields(out: &mut Octets, body: &Body) -> Result<(), OutOfMemory>
    requires { FitsBody body.now }
    ensures { OnOk result (out.new ≡ out.old ++ fields body.now) }
{
    match body {
        Body::Hello {
            endpoint,
            groups,
            status,
            name,
            headers,
        } => {
            push_string(out, endpoint.as_slice())?;
            push_strings(out, groups)?;
            out.push(*status)?;
            push_string(out, name.as_slice())?;
            push_dictionary(out, headers)
        }
        Body::Shout { group, .. } => push_string(out, group.as_slice()),
        Body::Join { group, status } | Body::Leave { group, status } => push_group(
            out, group, *status,
        ),
        Body::Other { rest, .. } => out.append(rest.as_slice()),
        Body::Whisper { .. } | Body::Ping | Body::PingOk => Ok(()),
    }
}

impl Message {
    pub(crate) fn push_first(&self, out: &mut Octets) -> Result<(), OutOfMemory>
        requires { Fits self.now }
        ensures { OnOk result (out.new ≡ out.old ++ first_frame self.now) }
    {
        push_head(out, self.body.number(), self.sequence)?;
        push_fields(out, &self.body)
    }

    /// The frames of the message, which mean this message alone. Its content, where it has any, is copied.
    pub fn write(&self, alloc: Global) -> Result<Frames, OutOfMemory>
        requires { Fits self.now }
        ensures { IfOk result (λ frames. frames ≡ spell self.now) }
    {
        let mut first = Octets::new(alloc);
        self.push_first(&mut first)?;
        let mut frames = Frames::of(alloc, first);
        if let Some(further) = self.body.further() {
            push_copies(alloc, &mut frames, further.as_slice())?;
        }
        Ok(frames)
    }
}
