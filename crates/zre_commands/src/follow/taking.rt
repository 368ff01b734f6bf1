//! Takes the messages of items.

ghost use Rattle.std.specs.Prelude.{◌≡◌, ◌∷◌, [], ℕ, List, Err, false, IfOk, OnOk, option_copied, option_to_list};
ghost use Rattle.zre_msg.specs.declared.message.Message.{Message};
ghost use Rattle.zre_peer.specs.Standing.{Stands, Handed, id_of, is_spent};
ghost use Rattle.zre_peer.specs.declared.peer_run.Run.{Run};
ghost use Rattle.zre_zmtp.specs.Front.{bodies_of};
ghost use Rattle.zre_commands.specs.follow.Messages.{meant_by, messages_in};
ghost use Rattle.zre_commands.specs.follow.Taken.{Takes, Took};

use crate::follow::ends::push_end;
use std::alloc::Global;
use zre_msg::{Message, ReadFault};
use zre_peer::{RunFault, Teller};
use zre_values::{Frames, Octets, OutOfMemory};
use zre_zmtp::{Front, Item, What};

// A message is refused: the line of the run's end is appended.
#[cold]
#[inline(never)]
fn end(alloc: Global, fault: RunFault, run: &Teller, out: &mut Octets) -> Result<bool, OutOfMemory>
    ensures { (was : Run) (m : Message) (before : List ℕ) → Handed (Err fault) was run.now m before out.old →
        Takes result was run.now (m ∷ []) before out.new }
{
    match fault {
        RunFault::OutOfMemory => Err(OutOfMemory),
        _ => {
            push_end(alloc, run.run(), fault, out)?;
            Ok(false)
        }
    }
}

// What comes of a message that the run was handed: where the message is refused, the line of the run's end is appended.
// Says whether the run goes on.
#[inline(always)]
fn go_on(
    alloc: Global,
    taken: Result<(), RunFault>,
    run: &Teller,
    out: &mut Octets,
) -> Result<bool, OutOfMemory>
    ensures { (was : Run) (m : Message) (before : List ℕ) → Handed taken was run.now m before out.old →
        Takes result was run.now (m ∷ []) before out.new }
{
    match taken {
        Ok(()) => Ok(true),
        Err(fault) => end(alloc, fault, run, out),
    }
}

// Takes the message that frames mean, if they mean one, with all of it made. Says whether the run goes on. It stands
// apart, so that the room for such a message is taken where one comes.
#[cold]
#[inline(never)]
fn take_whole(
    alloc: Global,
    frames: &Frames,
    run: &mut Teller,
    out: &mut Octets,
) -> Result<bool, OutOfMemory>
    requires { is_spent run.old ≡ false }
    ensures { Takes result run.old run.new (meant_by frames.now) out.old out.new }
{
    match Message::read(alloc, frames) {
        Ok(message) => {
            let taken = run.take(message, out);
            go_on(alloc, taken, run, out)
        }
        Err(ReadFault::Bad(_)) => Ok(true),
        Err(ReadFault::OutOfMemory) => Err(OutOfMemory),
    }
}

// Takes the message that the frames mean, if they mean one. After HELLO it is read where it lies; only a further
// HELLO is made.
#[inline(never)]
fn take_frames(
    alloc: Global,
    frames: &Frames,
    run: &mut Teller,
    out: &mut Octets,
) -> Result<bool, OutOfMemory>
    requires { is_spent run.old ≡ false }
    ensures { Takes result run.old run.new (meant_by frames.now) out.old out.new }
{
    if !run.is_after() {
        return take_whole(alloc, frames, run, out);
    }
    match Message::see(frames) {
        Ok(Some(lent)) => {
            let taken = run.take_lent(&lent, out);
            go_on(alloc, taken, run, out)
        }
        Ok(None) => take_whole(alloc, frames, run, out),
        Err(ReadFault::Bad(_)) => Ok(true),
        Err(ReadFault::OutOfMemory) => Err(OutOfMemory),
    }
}

// The frames of a message, in memory of their own.
fn copied(alloc: Global, first: &[u8], second: Option<&[u8]>) -> Result<Frames, OutOfMemory>
    ensures { IfOk result (λ frames. frames ≡ first.now ∷ option_to_list (option_copied second.entry)) }
{
    let mut frames = Frames::of(alloc, Octets::copy(alloc, first)?);
    if let Some(second) = second {
        frames.push(Octets::copy(alloc, second)?)?;
    }
    Ok(frames)
}

// Takes the message of one or two frames, if they mean one, with all of it made.
#[cold]
#[inline(never)]
fn take_copied(
    alloc: Global,
    first: &[u8],
    second: Option<&[u8]>,
    run: &mut Teller,
    out: &mut Octets,
) -> Result<bool, OutOfMemory>
    requires { is_spent run.old ≡ false }
    ensures { Takes result run.old run.new (meant_by (first.now ∷ option_to_list (option_copied second.entry))) out.old
        out.new }
{
    match copied(alloc, first, second) {
        Ok(frames) => take_whole(alloc, &frames, run, out),
        Err(OutOfMemory) => Err(OutOfMemory),
    }
}

/// Takes the message of one or two frames, if they mean one. Says whether the run goes on.
#[inline(always)]
pub(crate) fn take_front(
    alloc: Global,
    front: &Front<'_>,
    run: &mut Teller,
    out: &mut Octets,
) -> Result<bool, OutOfMemory>
    requires { is_spent run.old ≡ false }
    ensures { Takes result run.old run.new (meant_by (bodies_of front.now)) out.old out.new }
{
    if run.is_after() {
        match Message::see_in(front.first, front.second) {
            Ok(Some(lent)) => {
                let taken = run.take_lent(&lent, out);
                return go_on(alloc, taken, run, out);
            }
            Ok(None) => {}
            Err(ReadFault::Bad(_)) => return Ok(true),
            Err(ReadFault::OutOfMemory) => return Err(OutOfMemory),
        }
    }
    take_copied(alloc, front.first, front.second, run, out)
}

// Takes the message that an item means, if it means one. Says whether the run goes on.
fn take_item(
    alloc: Global,
    item: &Item,
    run: &mut Teller,
    out: &mut Octets,
) -> Result<bool, OutOfMemory>
    requires { is_spent run.old ≡ false }
    ensures { Takes result run.old run.new (messages_in (item.now ∷ [])) out.old out.new }
{
    match &item.what {
        What::Message(frames) => take_frames(alloc, frames, run, out),
        _ => Ok(true),
    }
}

/// Takes the messages of the items, up to the end of the run, and appends the lines of their events.
pub(crate) fn take_items(
    alloc: Global,
    items: &[Item],
    run: &mut Teller,
    out: &mut Octets,
) -> Result<(), OutOfMemory>
    requires { is_spent run.old ≡ false }
    ensures took { (ms : List Message) → Stands run.old ms →
        OnOk result (Took (id_of run.old) ms (messages_in items.now) run.new out.old out.new) }
    ensures id { id_of run.new ≡ id_of run.old }
{
    for item in items {
        if !take_item(alloc, item, run, out)? {
            return Ok(());
        }
    }
    Ok(())
}
