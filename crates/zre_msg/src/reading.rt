//! Messages read from their frames.

ghost use Rattle.std.specs.Prelude.{◌≡◌, ◌≤◌, ◌<◌, ◌^◌, [], ◌∷◌, length, take, drop, slice_index, Ok, Err, None, IfOk};
ghost use Rattle.std.specs.Prelude.{option_to_list, option_copied};
ghost use Rattle.std.specs.Int.{w16, from_be_bytes};
ghost use Rattle.zre_msg.specs.Reading.{is_other as other_test, first_row, head_rows, end_rows, read_of};
ghost use Rattle.zre_msg.specs.Reading.{read_frames, Answers};
ghost use Rattle.zre_msg.specs.Content.{content_of};
ghost use Rattle.zre_msg.specs.Further.{frames_of};
ghost use Rattle.zre_msg.specs.Lent.{Opens, Sees};
ghost use Rattle.zre_msg.specs.Spelling.{Means};
ghost use Rattle.zre_msg.specs.declared.message.Message.{Message as MessageValue};

use crate::commands::{LentBody, is_single, read_command, read_hello};
use crate::fields::Stop;
use crate::further::Further;
use crate::lent::{LentContent, LentMessage};
use crate::message::{Bad, BadWhy, Message, ReadFault};
use std::alloc::Global;
use zre_values::Frames;

// Whether the octet is there, and is another one.
fn is_other(octets: &[u8], i: usize, wanted: u8) -> bool
    ensures { result ≡ other_test octets.now i wanted }
{
    i < octets.len() && octets[i] != wanted
}

// What is wrong before the fields.
fn head_fault(first: &[u8]) -> Option<Bad>
    ensures { result ≡ first_row (head_rows first.now) }
{
    let bad = |why, place| Bad {
        why,
        frame: 0,
        place,
    };
    if is_other(first, 0, 0xaa) {
        return Some(bad(BadWhy::Signature, 0));
    }
    if is_other(first, 1, 0xa1) {
        return Some(bad(BadWhy::Signature, 1));
    }
    if is_other(first, 3, 2) {
        return Some(bad(BadWhy::Version, 3));
    }
    None
}

fn fault(why: BadWhy, frame: u32, place: usize) -> ReadFault
    requires { place < 2 ^ 32 }
    ensures { result ≡ ReadFault.Bad (record { why = why; frame = frame; place = place }) }
{
    ReadFault::Bad(Bad {
        why,
        frame,
        place: place as u32,
    })
}

// What is wrong after the fields, where so many octets are left over.
#[inline(always)]
fn end_fault(first: &[u8], left: usize, further: &Further<'_>) -> Option<Bad>
    requires long { 3 ≤ length first.now }
    requires places { length first.now < 2 ^ 32 }
    ensures { result ≡ first_row (end_rows first.now left (frames_of further.now)) }
{
    if left > 0 {
        return Some(Bad {
            why: BadWhy::Trailing,
            frame: 0,
            place: first.len().saturating_sub(left) as u32,
        });
    }
    if is_single(first[2]) && !further.is_empty() {
        return Some(Bad {
            why: BadWhy::ExtraFrames,
            frame: 1,
            place: 0,
        });
    }
    None
}

// The number of the message.
fn sequence_of(first: &[u8]) -> u16
    requires { 6 ≤ length first.now }
    ensures { result ≡ from_be_bytes w16 (take 2 (drop 4 first.now)) }
{
    u16::from_be_bytes([first[4], first[5]])
}

// The message of a first frame that begins as HELLO does.
#[tactic(auto, unfolding(crate::specs::Reading::read_of, crate::specs::Reading::command_of))]
fn read_hello_frame(
    alloc: Global,
    first: &[u8],
    further: &Further<'_>,
) -> Result<Message, ReadFault>
    // The frame begins as HELLO does, and its places have numbers.
    requires places { length first.now < 2 ^ 32 }
    requires long { 6 ≤ length first.now }
    requires hello { slice_index first.now 2 ≡ 1 }
    requires head { first_row (head_rows first.now) ≡ None }
    // The message, or what is wrong.
    ensures { Answers result (read_of first.now (frames_of further.now)) }
{
    let (_, fields) = first.split_at(6);
    let (body, rest) = match read_hello(alloc, fields) {
        Ok(found) => found,
        Err(Stop::Memory) => return Err(ReadFault::OutOfMemory),
        Err(Stop::Short) => return Err(fault(BadWhy::Short, 0, first.len())),
    };
    if let Some(bad) = end_fault(first, rest.len(), further) {
        drop(body);
        return Err(ReadFault::Bad(bad));
    }
    let sequence = sequence_of(first);
    Ok(Message { sequence, body })
}

// The sequence and the command of a first frame, once nothing can be wrong with it and those after it any more; none
// where it begins as HELLO does. It is part of each read.
#[inline(always)]
#[tactic(auto, unfolding(crate::specs::Reading::read_of, crate::specs::Reading::command_of))]
fn read_first<'a>(
    first: &'a [u8],
    further: &Further<'_>,
) -> Result<Option<(u16, LentBody<'a>)>, ReadFault>
    requires { length first.now < 2 ^ 32 }
    ensures { Opens result first.now (frames_of further.now) }
{
    if let Some(bad) = head_fault(first) {
        return Err(ReadFault::Bad(bad));
    }
    if first.len() < 6 {
        return Err(fault(BadWhy::Short, 0, first.len()));
    }
    if first[2] == 1 {
        return Ok(None);
    }
    let (_, fields) = first.split_at(6);
    let (command, rest) = match read_command(first[2], fields) {
        Ok(found) => found,
        Err(Stop::Memory) => return Err(ReadFault::OutOfMemory),
        Err(Stop::Short) => return Err(fault(BadWhy::Short, 0, first.len())),
    };
    if let Some(bad) = end_fault(first, rest.len(), further) {
        return Err(ReadFault::Bad(bad));
    }
    Ok(Some((sequence_of(first), command)))
}

// The message that a first frame and those after it mean.
fn read_parts(alloc: Global, first: &[u8], further: Further<'_>) -> Result<Message, ReadFault>
    requires { length first.now < 2 ^ 32 }
    ensures { Answers result (read_of first.now (frames_of further.entry)) }
{
    match read_first(first, &further) {
        Ok(Some((sequence, command))) => command.message(alloc, sequence, further),
        Ok(None) => read_hello_frame(alloc, first, &further),
        Err(fault) => Err(fault),
    }
}

// The message that lies in a first frame and those after it.
#[inline(always)]
fn see_parts<'a>(
    first: &'a [u8],
    content: LentContent<'a>,
) -> Result<Option<LentMessage<'a>>, ReadFault>
    ensures { Sees result (first.now ∷ content_of content.entry) }
{
    if first.len() > u32::MAX as usize {
        return Err(ReadFault::OutOfMemory);
    }
    match read_first(first, &Further::Lent(content)) {
        Ok(Some((sequence, command))) => Ok(Some(LentMessage {
            sequence,
            command,
            content,
        })),
        Ok(None) => Ok(None),
        Err(fault) => Err(fault),
    }
}

// Reads a first frame of any length with the further ones, and tells the laws of what is read.
fn read_from(alloc: Global, first: &[u8], further: Further<'_>) -> Result<Message, ReadFault>
    ensures found { IfOk result (λ m. Means (first.now ∷ frames_of further.entry) m) }
    ensures only { (m : MessageValue) → Means (first.now ∷ frames_of further.entry) m → Answers result (Ok m) }
    ensures exact { Answers result (read_of first.now (frames_of further.entry)) }
{
    if first.len() > u32::MAX as usize {
        return Err(ReadFault::OutOfMemory);
    }
    read_parts(alloc, first, further)
}

// What is wrong with no frames at all.
#[tactic(auto, unfolding(crate::specs::Reading::read_of, crate::specs::Reading::command_of))]
fn no_frames() -> ReadFault
    ensures { Answers (Err result) (read_frames []) }
{
    fault(BadWhy::Short, 0, 0)
}

impl Message {
    /// The message that the frames mean. Its content, where it has any, is copied. `Bad` names the first fault of
    /// frames that mean none; no frames at all are `Short`, as a first frame without octets is.
    pub fn read(alloc: Global, frames: &Frames) -> Result<Message, ReadFault>
        ensures found { IfOk result (λ m. Means frames.now m) }
        ensures only { (m : MessageValue) → Means frames.now m → Answers result (Ok m) }
        ensures exact { Answers result (read_frames frames.now) }
    {
        match frames.as_slice().split_first() {
            Some((first, further)) => {
                let content = LentContent::Frames(further);
                read_from(alloc, first.as_slice(), Further::Lent(content))
            }
            None => Err(no_frames()),
        }
    }

    /// The message that the frames mean, where they don't begin as HELLO does, with its fields and its content where
    /// they lie. It takes no memory; `OutOfMemory` is told of a first frame of 2^32 octets alone.
    #[inline(always)]
    pub fn see(frames: &Frames) -> Result<Option<LentMessage<'_>>, ReadFault>
        ensures { Sees result frames.now }
    {
        match frames.as_slice().split_first() {
            Some((first, further)) => see_parts(first.as_slice(), LentContent::Frames(further)),
            None => Err(no_frames()),
        }
    }

    /// The message that one frame or two mean, where they don't begin as HELLO does, with its fields and its content
    /// where they came. It takes no memory; `OutOfMemory` is told of a first frame of 2^32 octets alone.
    #[inline(always)]
    pub fn see_in<'a>(
        first: &'a [u8],
        second: Option<&'a [u8]>,
    ) -> Result<Option<LentMessage<'a>>, ReadFault>
        ensures { Sees result (first.now ∷ option_to_list (option_copied second.entry)) }
    {
        see_parts(first, LentContent::One(second))
    }

    /// What `read` gives, of frames that are given: content is moved into the message.
    pub fn from_frames(alloc: Global, mut frames: Frames) -> Result<Message, ReadFault>
        ensures found { IfOk result (λ m. Means frames m) }
        ensures only { (m : MessageValue) → Means frames m → Answers result (Ok m) }
        ensures exact { Answers result (read_frames frames) }
    {
        if frames.len() == 0 {
            return Err(no_frames());
        }
        let first = frames.remove(0);
        read_from(alloc, first.as_slice(), Further::Given(frames))
    }
}
