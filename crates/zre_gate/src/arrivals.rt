//! The desk, and the clients that it gives.

ghost use Rattle.std.specs.Prelude.{◌≡◌, ◌≤◌, [], vec_capacity, is_err, OnOk, OnErr};
ghost use Rattle.zre_outside.specs.Causes.{Rose};
ghost use Rattle.zre_outside.specs.Refusals.{refused_after};
ghost use Rattle.zre_gate.specs.Stages.{HasGiven, HasGivenAll};

use zre_outside::{Desk, Failed};
use zre_values::Endpoint;

/// Begins a desk at a place, and takes so many clients of it, in order. The list has room for them.
pub(crate) fn take_clients<D: Desk>(
    desk: &mut D,
    place: Endpoint,
    many: u8,
    clients: &mut Vec<D::Client>,
) -> Result<(), Failed>
    // The list is empty and has room.
    requires capacity { (clients.old.items ≡ []) × (many ≤ vec_capacity clients.old) }
    // Where the desk was begun, and the clients that it gave.
    ensures given { HasGiven place (D.told desk.old) (D.told desk.new) clients.new.items }
    ensures all_given { OnOk result (HasGivenAll place many (D.told desk.old) (D.told desk.new) clients.new.items) }
    // The desk's count rises where it failed.
    ensures failed { OnErr result (Rose (D.faults desk.old) (D.faults desk.new)) }
    ensures faults { D.faults desk.old ≤ D.faults desk.new }
    ensures counts { D.refused desk.new ≡ refused_after (is_err result) (D.refused desk.old) }
{
    desk.begin(place.addr, place.port)?;
    'each: for _ in 0..many {
        let client = desk.next()?;
        clients.push_reserved(client);
    }
    Ok(())
}
