//! PINGs are answered.

ghost use Rattle.std.specs.Prelude.{◌≡◌, ◌+◌, ◌≤◌, ◌++◌, length, flat_map, None, option_to_list, OnOk, IfErr, OnErr};
ghost use Rattle.zre_values.specs.declared.limits.TheConstants.{UNSENT_OCTETS};
ghost use Rattle.zre_zmtp.specs.Ping.{context_in, contexts_in};
ghost use Rattle.zre_zmtp.specs.Written.{pong_frame};
ghost use Rattle.zre_link.specs.Link.{answered, slow_at, RefusesReply};

use crate::fault::ReplyFault;
use crate::queue::Queue;
use std::alloc::Global;
use zre_values::limits::UNSENT_OCTETS;
use zre_zmtp::{Item, What, pong};

// Where an item is a PING, its PONG is queued after `written` octets, unless more would wait then than may.
fn answer(
    alloc: Global,
    queue: &mut Queue,
    written: &mut u64,
    what: &What,
) -> Result<(), ReplyFault>
    // The PONG is queued, or nothing is.
    ensures ok { let ts = option_to_list (context_in what.now) in
        OnOk result ((slow_at (length queue.old) ts ≡ None) × (queue.new ≡ queue.old ++ flat_map pong_frame ts)
        × (written.new ≡ written.old + length (flat_map pong_frame ts))) }
    ensures refused { IfErr result (λ e.
        RefusesReply e (slow_at (length queue.old) (option_to_list (context_in what.now))) None
        (queue.new ≡ queue.old)) }
    ensures unchanged { OnErr result ((queue.new ≡ queue.old) × (written.new ≡ written.old)) }
    // No more wait than may.
    ensures within { length queue.old ≤ UNSENT_OCTETS → length queue.new ≤ UNSENT_OCTETS }
{
    let Some(context) = what.context() else {
        return Ok(());
    };
    let octets = pong(alloc, context)?;
    let unsent = queue.len() as u64;
    let size = octets.len() as u64;
    let Some(all) = written.checked_add(size) else {
        return Err(ReplyFault::OutOfMemory);
    };
    if unsent.saturating_add(size) > UNSENT_OCTETS as u64 {
        return Err(ReplyFault::Slow { unsent, size });
    }
    queue.append(octets.as_slice())?;
    *written = all;
    Ok(())
}

/// Queues a PONG for each PING among the items, in their order, up to the first with which more octets would wait than
/// may: it gives `Slow`.
pub fn answer_all(
    alloc: Global,
    queue: &mut Queue,
    written: &mut u64,
    items: &[Item],
) -> Result<(), ReplyFault>
    // PONGs are queued, up to the first with which more octets would wait than may.
    ensures ok { let ts = answered (length queue.old) (contexts_in items.now) in
        OnOk result ((slow_at (length queue.old) (contexts_in items.now) ≡ None)
        × (queue.new ≡ queue.old ++ flat_map pong_frame ts)
        × (written.new ≡ written.old + length (flat_map pong_frame ts))) }
    ensures refused { let ts = answered (length queue.old) (contexts_in items.now) in
        IfErr result (λ e. RefusesReply e (slow_at (length queue.old) (contexts_in items.now)) None
        ((queue.new ≡ queue.old ++ flat_map pong_frame ts)
        × (written.new ≡ written.old + length (flat_map pong_frame ts)))) }
    // The count of all octets goes with the queue.
    ensures balanced { length queue.new + written.old ≡ length queue.old + written.new }
    ensures grows { written.old ≤ written.new }
    // No more wait than may.
    ensures within { length queue.old ≤ UNSENT_OCTETS → length queue.new ≤ UNSENT_OCTETS }
{
    let mut rest = items;
    'items: while let Some((item, later)) = rest.split_first() {
        if let Err(fault) = answer(alloc, queue, written, &item.what) {
            return Err(fault);
        }
        rest = later;
    }
    Ok(())
}
