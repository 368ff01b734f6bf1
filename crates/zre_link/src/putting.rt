//! Messages are queued.

ghost use Rattle.std.specs.Prelude.{◌≡◌, ◌+◌, ◌-◌, ◌^◌, ◌<◌, ◌≤◌, ℕ, [], ◌++◌, length, min, IfOk, OnOk, IfErr, OnErr};
ghost use Rattle.zre_values.specs.declared.limits.TheConstants.{UNSENT_OCTETS};
ghost use Rattle.zre_values.specs.Framing.{frames};
ghost use Rattle.zre_msg.specs.declared.message.Body.TheVariants.{Ping, Shout};
ghost use Rattle.zre_msg.specs.Spelling.{Fits, FitsString, octets as octets_of};
ghost use Rattle.zre_link.specs.Link.{Queues, RefusesPush};

use crate::fault::PushFault;
use crate::queue::Queue;
use crate::tail::Tail;
use std::alloc::Global;
use zre_msg::{Message, push_shout_head};
use zre_values::limits::UNSENT_OCTETS;
use zre_values::{Octets, OutOfMemory};

/// Messages with more octets are spelled in memory of their own, which is let go with the call.
const SHORT: u64 = 512;

// How many octets the link has when `size` more are queued, unless more would wait then than may.
fn with_more(queue: &Queue, written: u64, size: u64) -> Result<u64, PushFault>
    requires begun { 0 < written }
    ensures ok { (takes : ℕ) → size ≡ min takes (2 ^ 64 - 1) → IfOk result (λ all. (all ≡ written + takes)
        × (length queue.now + takes ≤ UNSENT_OCTETS)) }
    ensures refused { (takes : ℕ) → size ≡ min takes (2 ^ 64 - 1) →
        IfErr result (λ e. RefusesPush e (length queue.now) takes) }
{
    let unsent = queue.len() as u64;
    let Some(all) = written.checked_add(size) else {
        return Err(PushFault::OutOfMemory);
    };
    if unsent.saturating_add(size) > UNSENT_OCTETS as u64 {
        return Err(PushFault::Slow { unsent, size });
    }
    Ok(all)
}

// Appends a message, spelled into an empty list, which is emptied again.
fn spell(queue: &mut Queue, spelled: &mut Octets, message: &Message) -> Result<(), OutOfMemory>
    // It has a spelling, and the list is empty.
    requires fits { Fits message.now }
    requires empty { spelled.old ≡ [] }
    // It is appended, or nothing is.
    ensures ok { OnOk result (queue.new ≡ queue.old ++ octets_of message.now) }
    ensures err { OnErr result (queue.new ≡ queue.old) }
    // The list is empty again.
    ensures emptied { spelled.new ≡ [] }
{
    let put = match message.push_to(spelled) {
        Ok(()) => queue.append(spelled.as_slice()),
        Err(fault) => Err(fault),
    };
    spelled.clear();
    put
}

/// Queues a message after `written` octets, unless it passes the limit, and gives how many there are with it. Short
/// ones are spelled in `spelled`, whose memory serves again and again; no octet stays in it.
pub fn queue_message(
    alloc: Global,
    queue: &mut Queue,
    spelled: &mut Octets,
    written: u64,
    message: &Message,
) -> Result<u64, PushFault>
    // It has a spelling, and the list is empty.
    requires fits { Fits message.now }
    requires begun { 0 < written }
    requires empty { spelled.old ≡ [] }
    // The message is queued, or nothing is.
    ensures queued { Queues result queue.old queue.new written (octets_of message.now) }
    // The list is empty again.
    ensures emptied { spelled.new ≡ [] }
{
    let size = message.octets_len();
    let all = with_more(queue, written, size)?;
    if size > SHORT {
        spell(queue, &mut Octets::new(alloc), message)?;
        return Ok(all);
    }
    spell(queue, spelled, message)?;
    Ok(all)
}

/// Queues a PING after `written` octets, unless it passes the limit, and gives how many there are with it. Two PINGs
/// differ in their number alone.
pub fn queue_ping(queue: &mut Queue, written: u64, sequence: u16) -> Result<u64, PushFault>
    // The greeting was queued.
    requires begun { 0 < written }
    // It is queued, or nothing is.
    ensures queued { Queues result queue.old queue.new written
        (octets_of (record { sequence = sequence; body = Ping })) }
{
    let all = with_more(queue, written, 8)?;
    let [high, low] = sequence.to_be_bytes();
    queue.append(&[0, 6, 0xaa, 0xa1, 6, 2, high, low])?;
    Ok(all)
}

/// A SHOUT with its number.
#[derive(Clone, Copy)]
pub struct NumberedShout<'a> {
    /// The number of the message.
    pub sequence: u16,
    /// The group that it is for.
    pub group: &'a [u8],
    /// The frames after the first.
    pub tail: &'a Tail,
}

// Queues a text and then the octets of the frames of a tail. The text may be longer after.
fn queue_tailed(
    queue: &mut Queue,
    text: &mut Octets,
    written: u64,
    tail: &Tail,
) -> Result<u64, PushFault>
    requires begun { 0 < written }
    ensures queued { Queues result queue.old queue.new written (text.old ++ frames tail.now) }
{
    let size = (text.len() as u64).saturating_add(tail.len() as u64);
    let all = with_more(queue, written, size)?;
    tail.put_after(queue, text)?;
    Ok(all)
}

/// Queues a SHOUT after `written` octets, unless it passes the limit, and gives how many there are with it: its first
/// frame, spelled in `head`, and then the octets of its content, which are shared where they are many. No octet stays
/// in `head`.
pub fn queue_shout(
    queue: &mut Queue,
    head: &mut Octets,
    written: u64,
    shout: &NumberedShout<'_>,
) -> Result<u64, PushFault>
    // It has a spelling, and the list is empty.
    requires fits { FitsString shout.now.group.now }
    requires begun { 0 < written }
    requires empty { head.old ≡ [] }
    // The message is queued, or nothing is.
    ensures queued { Queues result queue.old queue.new written (octets_of (record {
      sequence = shout.now.sequence;
      body = Shout shout.now.group.now shout.now.tail.now;
    })) }
    // The list is empty again.
    ensures emptied { head.new ≡ [] }
{
    let more = !shout.tail.is_empty();
    let queued = match push_shout_head(head, shout.sequence, shout.group, more) {
        Ok(()) => queue_tailed(queue, head, written, shout.tail),
        Err(OutOfMemory) => Err(PushFault::OutOfMemory),
    };
    head.clear();
    queued
}
