//! The fields of each command, read from the front of what stands after the sequence.

ghost use Rattle.std.specs.Prelude.{◌≡◌, ◌≢◌, ℕ, List, Result, IfOk};
ghost use Rattle.zre_msg.specs.declared.message.Bad.{Bad};
ghost use Rattle.zre_msg.specs.declared.message.Body.TheVariants as bodies;
ghost use Rattle.zre_msg.specs.Reading.{is_single as single_test, hello_at, named_at, change_at, shout_at};
ghost use Rattle.zre_msg.specs.Reading.{body_at};
ghost use Rattle.zre_msg.specs.Reading.{Answers};
ghost use Rattle.zre_msg.specs.Commands.{body_of, Says};
ghost use Rattle.zre_msg.specs.Fields.{Gives};
ghost use Rattle.zre_msg.specs.Further.{frames_of};

use crate::fields::{Stop, dictionary_at, lent_string_at, octet_at, string_at, strings_at};
use crate::further::Further;
use crate::message::{Body, Message, ReadFault};
use std::alloc::Global;
use zre_values::{Octets, OutOfMemory, Pairs};

/// A command other than HELLO, with the fields that its frame lends: those of `Body`, but for the content.
#[derive(Clone, Copy)]
pub enum LentBody<'a> {
    /// WHISPER, number 2.
    Whisper,
    /// SHOUT, number 3, to this group.
    Shout { group: &'a [u8] },
    /// JOIN, number 4.
    Join { group: &'a [u8], status: u8 },
    /// LEAVE, number 5.
    Leave { group: &'a [u8], status: u8 },
    /// PING, number 6.
    Ping,
    /// PING-OK, number 7.
    PingOk,
    /// A number that RFC 36 does not name, and the octets after the sequence.
    Other { number: u8, rest: &'a [u8] },
}

// The last three fields of HELLO: the status, the name and the headers.
#[tactic(auto, unfolding(crate::specs::Reading::named_at))]
fn named_at(alloc: Global, octets: &[u8]) -> Result<(u8, Octets, Pairs, &[u8]), Stop>
    ensures { Gives (λ x. ((x.0, x.1, x.2), x.3.now)) result (named_at octets.now) }
{
    let (status, rest) = octet_at(octets)?;
    let (name, rest) = match string_at(alloc, rest) {
        Ok(found) => found,
        Err(stop) => return Err(stop),
    };
    match dictionary_at(alloc, rest) {
        Ok((headers, rest)) => Ok((status, name, headers, rest)),
        Err(stop) => {
            drop(name);
            Err(stop)
        }
    }
}

/// The fields of HELLO (RFC 36), and the octets that are left over after them.
#[tactic(auto, unfolding(crate::specs::Reading::hello_at))]
pub fn read_hello(alloc: Global, octets: &[u8]) -> Result<(Body, &[u8]), Stop>
    ensures { Gives (λ x. (x.0, x.1.now)) result (hello_at octets.now) }
{
    let (endpoint, rest) = match string_at(alloc, octets) {
        Ok(found) => found,
        Err(stop) => return Err(stop),
    };
    let (groups, rest) = match strings_at(alloc, rest) {
        Ok(found) => found,
        Err(stop) => {
            drop(endpoint);
            return Err(stop);
        }
    };
    match named_at(alloc, rest) {
        Ok((status, name, headers, rest)) => {
            let body = Body::Hello {
                endpoint,
                groups,
                status,
                name,
                headers,
            };
            Ok((body, rest))
        }
        Err(stop) => {
            drop(groups);
            drop(endpoint);
            Err(stop)
        }
    }
}

// The fields of JOIN and of LEAVE.
fn read_change(octets: &[u8]) -> Result<(&[u8], u8, &[u8]), Stop>
    ensures { (make : List ℕ → ℕ → Body) → Gives (λ x. (make x.0.now x.1, x.2.now)) result (change_at make octets.now) }
{
    let (group, rest) = lent_string_at(octets)?;
    let (status, rest) = octet_at(rest)?;
    Ok((group, status, rest))
}

#[tactic(auto, unfolding(crate::specs::Reading::shout_at))]
fn read_shout(octets: &[u8]) -> Result<(LentBody<'_>, &[u8]), Stop>
    ensures { (more : List (List ℕ)) → Gives (λ x. (body_of x.0 more, x.1.now)) result (shout_at more octets.now) }
{
    let (group, rest) = lent_string_at(octets)?;
    Ok((LentBody::Shout { group }, rest))
}

/// The command with this number, which isn't that of HELLO, and the octets that are left over after its fields.
#[tactic(auto, unfolding(crate::specs::Reading::join_at, crate::specs::Reading::leave_at))]
pub fn read_command(number: u8, octets: &[u8]) -> Result<(LentBody<'_>, &[u8]), Stop>
    requires { number ≢ 1 }
    ensures { (more : List (List ℕ))
        → Gives (λ x. (body_of x.0 more, x.1.now)) result (body_at number more octets.now) }
{
    match number {
        2 => Ok((LentBody::Whisper, octets)),
        3 => read_shout(octets),
        4 => {
            let (group, status, rest) = read_change(octets)?;
            Ok((LentBody::Join { group, status }, rest))
        }
        5 => {
            let (group, status, rest) = read_change(octets)?;
            Ok((LentBody::Leave { group, status }, rest))
        }
        6 => Ok((LentBody::Ping, octets)),
        7 => Ok((LentBody::PingOk, octets)),
        _ => {
            let (rest, end) = octets.split_at(octets.len());
            Ok((LentBody::Other { number, rest }, end))
        }
    }
}

fn whisper(alloc: Global, further: Further<'_>) -> Result<Body, OutOfMemory>
    ensures { IfOk result (λ body. body ≡ bodies.Whisper (frames_of further.entry)) }
{
    let content = further.take(alloc)?;
    Ok(Body::Whisper { content })
}

fn shout(alloc: Global, group: &[u8], further: Further<'_>) -> Result<Body, OutOfMemory>
    ensures { IfOk result (λ body. body ≡ bodies.Shout group.now (frames_of further.entry)) }
{
    let content = further.take(alloc)?;
    match Octets::copy(alloc, group) {
        Ok(group) => Ok(Body::Shout { group, content }),
        Err(fault) => {
            drop(content);
            Err(fault)
        }
    }
}

fn join(alloc: Global, group: &[u8], status: u8) -> Result<Body, OutOfMemory>
    ensures { IfOk result (λ body. body ≡ bodies.Join group.now status) }
{
    let group = Octets::copy(alloc, group)?;
    Ok(Body::Join { group, status })
}

fn leave(alloc: Global, group: &[u8], status: u8) -> Result<Body, OutOfMemory>
    ensures { IfOk result (λ body. body ≡ bodies.Leave group.now status) }
{
    let group = Octets::copy(alloc, group)?;
    Ok(Body::Leave { group, status })
}

fn other(alloc: Global, number: u8, rest: &[u8], further: Further<'_>) -> Result<Body, OutOfMemory>
    ensures { IfOk result (λ body. body ≡ bodies.Other number rest.now (frames_of further.entry)) }
{
    let more = further.take(alloc)?;
    match Octets::copy(alloc, rest) {
        Ok(rest) => Ok(Body::Other { number, rest, more }),
        Err(fault) => {
            drop(more);
            Err(fault)
        }
    }
}

impl<'a> LentBody<'a> {
    // The body of the message. Its content is the frames after the first.
    fn body(self, alloc: Global, further: Further<'_>) -> Result<Body, OutOfMemory>
        ensures { IfOk result (λ body. body ≡ body_of self.entry (frames_of further.entry)) }
    {
        match self {
            LentBody::Whisper => whisper(alloc, further),
            LentBody::Shout { group } => shout(alloc, group, further),
            LentBody::Join { group, status } => {
                drop(further);
                join(alloc, group, status)
            }
            LentBody::Leave { group, status } => {
                drop(further);
                leave(alloc, group, status)
            }
            LentBody::Ping => {
                drop(further);
                Ok(Body::Ping)
            }
            LentBody::PingOk => {
                drop(further);
                Ok(Body::PingOk)
            }
            LentBody::Other { number, rest } => other(alloc, number, rest, further),
        }
    }

    /// The message of the command. Its content is the frames after the first.
    pub fn message(
        self,
        alloc: Global,
        sequence: u16,
        further: Further<'_>,
    ) -> Result<Message, ReadFault>
        ensures { Says sequence (body_of self.entry (frames_of further.entry)) result }
    {
        let body = self.body(alloc, further)?;
        Ok(Message { sequence, body })
    }
}

/// Whether the command with this number has one frame alone.
pub fn is_single(number: u8) -> bool
    ensures { result ≡ single_test number }
{
    matches!(number, 1 | 4 | 5 | 6 | 7)
}
