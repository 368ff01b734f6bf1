//! What a stream is made of.

ghost use Rattle.std.specs.Prelude.{◌≡◌, ◌≤◌, ◌+◌, [], ◌∷◌, ◌++◌, length, OnOk};

use crate::looks::Steps;
use std::sync::ledger::Ledger;
use zre_values::{Frames, List, Octets, OutOfMemory, take_apart};

/// What is whole, from the place of its first octet to the place after its last. Places count the octets of the
/// stream before them.
#[derive(Debug)]
pub struct Item {
    /// How many octets of the stream stand before its first one.
    pub start: u64,
    /// How many octets of the stream stand before the one after its last.
    pub end: u64,
    /// What it says.
    pub what: What,
}

impl Drop for Item {
    fn drop(self) {
        take_apart!(self, Item: start, end, what);
    }
}

/// What an item says (RFC 23).
#[derive(Debug)]
pub enum What {
    /// The greeting, with the version of the peer.
    Greeting {
        major: u8,
        minor: u8,
    },
    /// READY, with the octets of its body and the first value under each of the two names that count, which are
    /// compared without regard to case.
    Ready {
        size: u64,
        socket_type: Option<Octets>,
        identity: Option<Octets>,
    },
    /// A command after READY, with the octets of its body. The body is whole: the length of the name, the name,
    /// and the rest.
    Command {
        size: u64,
        name: Octets,
        body: Octets,
    },
    /// The bodies of the frames of a message. It begins with the flags of its first frame; the commands between its
    /// frames are items of their own, before it.
    Message(Frames),
}

// By hand: docs/DECISIONS.md says why, at "Drops by hand".
impl Drop for What {
    fn drop(self) {
        match self {
            What::Greeting { major: _, minor: _ } => {}
            What::Ready {
                size: _,
                socket_type: _socket_type,
                identity: _identity,
            } => {}
            What::Command {
                size: _,
                name: _name,
                body: _body,
            } => {}
            What::Message(_frames) => {}
        }
    }
}

/// A list of items.
pub type Items = List<Item>;

// Appends the octets of the only frame of a message, of which none are there. It is a look at each of them.
fn append_body<L: Ledger>(
    item: &mut Item,
    body: &[u8],
    steps: &mut Steps<L>,
) -> Result<(), OutOfMemory>
    requires { item.old.what ≡ What.Message ([] ∷ []) }
    ensures appended { OnOk result (item.new ≡ record item.old { what = What.Message (body.now ∷ []) }) }
    ensures looks { steps.new ≡ steps.old + length body.now }
{
    match &mut item.what {
        What::Message(frames) => steps.append_at(frames, 0, body),
        _ => Ok(()),
    }
}

// Appends a message of one frame, and copies its octets to where the item lies, which is a look at each. After an error
// the item may stand there without them.
pub(crate) fn push_message<L: Ledger>(
    item: Item,
    body: &[u8],
    out: &mut Items,
    steps: &mut Steps<L>,
) -> Result<(), OutOfMemory>
    requires { item.what ≡ What.Message ([] ∷ []) }
    // The message that is appended.
    ensures given { OnOk result (out.new ≡ out.old
        ++ record { start = item.start; end = item.end; what = What.Message (body.now ∷ []) } ∷ []) }
    // How many octets are looked at.
    ensures looks { OnOk result (steps.new ≡ steps.old + length body.now) }
    ensures looks_most { steps.new ≤ steps.old + length body.now }
{
    out.push(item)?;
    let last = out.len() - 1;
    append_body(out.get_mut(last), body, steps)?;
    Ok(())
}
