//! A message that lies whole at the front of octets.

ghost use Rattle.std.specs.Prelude.{IfSome};
ghost use Rattle.zre_zmtp.specs.Front.{BeginsWith, IsFront};

use crate::header::{Header, has_more, header_len, is_message, read_header};
use zre_values::limits::MESSAGE_OCTETS;

/// A whole message of one or two frames, with their bodies where they lie.
#[derive(Clone, Copy)]
pub struct Front<'a> {
    /// The body of the first frame.
    pub first: &'a [u8],
    /// That of the second, where the message has one.
    pub second: Option<&'a [u8]>,
    /// How many octets the message has, with the headers of its frames.
    pub len: usize,
}

// A whole frame with a long size.
#[inline(never)]
fn long_frame_at(octets: &[u8]) -> Option<(Header, &[u8], &[u8])>
    ensures { IfSome result (λ found. BeginsWith found.0 found.1.now found.2.now octets.now) }
{
    let header = read_header(octets)?;
    if !is_message(header.flags) {
        return None;
    }
    let (_, later) = octets.split_at(header_len(octets));
    if header.size > later.len() as u64 {
        return None;
    }
    let (body, rest) = later.split_at(header.size as usize);
    Some((header, body, rest))
}

// A whole frame of a message at the front of some octets: its header, its body and what stands after it.
#[inline(always)]
pub(crate) fn frame_at(octets: &[u8]) -> Option<(Header, &[u8], &[u8])>
    ensures { IfSome result (λ found. BeginsWith found.0 found.1.now found.2.now octets.now) }
{
    if octets.len() < 2 {
        return None;
    }
    let flags = octets[0];
    if flags > 1 {
        return long_frame_at(octets);
    }
    let size = octets[1];
    let (_, later) = octets.split_at(2);
    if size as usize > later.len() {
        return None;
    }
    let (body, rest) = later.split_at(size as usize);
    let header = Header {
        flags,
        size: u64::from(size),
    };
    Some((header, body, rest))
}

/// The message of one or two frames that lies whole at the front of some octets, where one does and passes no limit.
#[inline(always)]
pub fn front_of(octets: &[u8]) -> Option<Front<'_>>
    ensures { IfSome result (λ front. IsFront front octets.now) }
{
    let (header, first, rest) = frame_at(octets)?;
    if first.len() > MESSAGE_OCTETS {
        return None;
    }
    if !has_more(header.flags) {
        return Some(Front {
            first,
            second: None,
            len: octets.len() - rest.len(),
        });
    }
    let (header, second, rest) = frame_at(rest)?;
    if has_more(header.flags) || second.len() > MESSAGE_OCTETS - first.len() {
        return None;
    }
    Some(Front {
        first,
        second: Some(second),
        len: octets.len() - rest.len(),
    })
}
