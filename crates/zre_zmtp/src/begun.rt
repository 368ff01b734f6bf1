//! A frame whose header is whole, and whose body isn't.

ghost use Rattle.std.specs.Prelude.{◌≡◌, ◌+◌, ◌<◌, ◌≤◌, List, length, IfSome, IfErr, OnOk};
ghost use Rattle.zre_zmtp.specs.Frame.{header_len as header_len_of};
ghost use Rattle.zre_zmtp.specs.Stream.{Want};
ghost use Rattle.zre_zmtp.specs.Shown.{before_of, left_of, held, Advances, RefusesAt, HasHeader};
ghost use Rattle.zre_zmtp.specs.Looks.{LooksOnce};
ghost use Rattle.zre_zmtp.specs.declared.item.Item.{Item};

use crate::expected::Expected;
use crate::fault::{Fed, FeedFault, ZmtpFault};
use crate::faults::fault_of_whole;
use crate::head::Head;
use crate::header::{Header, header_len, read_header};
use crate::looks::{Steps, Store};
use crate::partial::Partial;
use crate::progress::Progress;
use std::sync::ledger::Ledger;

/// What the header at the front of some octets says, where nothing is kept and all of that header is there.
pub fn header_at(progress: &Progress, octets: &[u8]) -> Option<Header>
    ensures { IfSome result (λ header. HasHeader progress.now header octets.now) }
{
    if progress.expected == Expected::Greeting || progress.partial.head.len() > 0 {
        return None;
    }
    read_header(octets)
}

/// Keeps the header at the front of some octets and what there is of its body, which is a look at each octet of that.
pub fn begin_frame<L: Ledger>(
    progress: &mut Progress,
    header: Header,
    octets: &[u8],
    steps: &mut Steps<L>,
) -> Fed
    // The header is there, and not all of the body.
    requires begun { HasHeader progress.old header octets.now }
    requires unfinished { length octets.now < header_len_of octets.now + header.size }
    // What is kept, or the fault.
    ensures ok { (want : Want) (out : List Item) →
        OnOk result (Advances want (before_of progress.old) octets.now out out
        (before_of progress.new) (left_of progress.new)) }
    ensures refused { (want : Want) (out : List Item) →
        IfErr result (λ e. RefusesAt e want (before_of progress.old) octets.now out out) }
    // How many octets are looked at.
    ensures looks { LooksOnce steps.old steps.new (held progress.old) (held progress.new) (length octets.now) result }
{
    let (head, later) = octets.split_at(header_len(octets));
    if let Some(why) = fault_of_whole(progress, header) {
        let place = progress.place;
        return Err(FeedFault::Zmtp(ZmtpFault { why, place }));
    }
    let mut body = Store::new(progress.alloc);
    match body.add(later, steps) {
        Ok(()) => {}
        Err(fault) => {
            drop(body);
            return Err(FeedFault::from(fault));
        }
    }
    progress.partial = Partial {
        head: Head::of(head),
        header: Some(header),
        body,
    };
    Ok(())
}
