//! The beginnings of a peer's lines.

ghost use Rattle.std.specs.Prelude.{◌≡◌, ◌++◌, codes, IfOk};
ghost use Rattle.zre_peer.specs.Lines.{who_text};
ghost use Rattle.zre_peer.specs.Heads.{heads_of};

use crate::line::push_who;
use std::alloc::Global;
use zre_values::{Octets, OutOfMemory, PeerId, take_apart};

/// The words of events with who the peer is after each, ready for the lines that begin with them.
pub struct Heads {
    /// Of JOIN.
    pub join: Octets,
    /// Of LEAVE.
    pub leave: Octets,
    /// Of WHISPER.
    pub whisper: Octets,
    /// Of SHOUT.
    pub shout: Octets,
}

impl Drop for Heads {
    fn drop(self) {
        take_apart!(self, Heads: join, leave, whisper, shout);
    }
}

fn head_of(alloc: Global, word: &[u8], who: &Octets) -> Result<Octets, OutOfMemory>
    ensures { IfOk result (λ head. head ≡ word.now ++ who.now) }
{
    let mut head = Octets::new(alloc);
    head.append(word)?;
    head.append(who.as_slice())?;
    Ok(head)
}

fn two_heads(
    alloc: Global,
    first: &[u8],
    second: &[u8],
    who: &Octets,
) -> Result<(Octets, Octets), OutOfMemory>
    ensures { IfOk result (λ heads. (heads.0 ≡ first.now ++ who.now) × (heads.1 ≡ second.now ++ who.now)) }
{
    let one = head_of(alloc, first, who)?;
    Ok((one, head_of(alloc, second, who)?))
}

fn heads_with(alloc: Global, who: &Octets) -> Result<Heads, OutOfMemory>
    ensures { IfOk result (λ heads. heads ≡ record {
      join = codes "JOIN " ++ who.now;
      leave = codes "LEAVE " ++ who.now;
      whisper = codes "WHISPER " ++ who.now;
      shout = codes "SHOUT " ++ who.now;
    }) }
{
    let (join, leave) = two_heads(alloc, b"JOIN ", b"LEAVE ", who)?;
    let (whisper, shout) = two_heads(alloc, b"WHISPER ", b"SHOUT ", who)?;
    Ok(Heads {
        join,
        leave,
        whisper,
        shout,
    })
}

impl Heads {
    /// No texts, which take no memory.
    pub(crate) fn new(alloc: Global) -> Self {
        Heads {
            join: Octets::new(alloc),
            leave: Octets::new(alloc),
            whisper: Octets::new(alloc),
            shout: Octets::new(alloc),
        }
    }

    /// Those of this peer.
    pub(crate) fn of(alloc: Global, id: PeerId, name: &[u8]) -> Result<Self, OutOfMemory>
        ensures { IfOk result (λ heads. heads ≡ heads_of id name.now) }
    {
        let mut who = Octets::new(alloc);
        push_who(&mut who, id, name)?;
        heads_with(alloc, &who)
    }
}
