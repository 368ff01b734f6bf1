//! Copies of entries and acts, in memory of their own.

ghost use Rattle.std.specs.Prelude.{◌≡◌, ◌∷◌, ◌++◌, [], IfOk, OnOk};
ghost use Rattle.zre_outside.specs.declared.entry.Command.{Command as CommandValue};

use crate::{Act, Addresses, Command, Entry, Input, Start};
use std::alloc::Global;
use zre_values::{Frames, Octets, OutOfMemory};

// A variant of which one field is octets, which take memory, and the others are numbers:
// `with_copy!(alloc, Input::Piece: bytes; conn)`.
macro_rules! with_copy {
    ($alloc:expr, $kind:ident::$variant:ident: $octets:ident; $($plain:ident),*) => {
        Ok($kind::$variant {
            $octets: Octets::copy($alloc, $octets.as_slice())?,
            $($plain: *$plain),*
        })
    };
}

fn copy_frames(alloc: Global, frames: &Frames) -> Result<Frames, OutOfMemory>
    ensures { IfOk result (λ copy. copy ≡ frames.now) }
{
    let mut copy = Frames::new(alloc);
    for frame in frames.as_slice() {
        let Ok(()) = push_copy(alloc, &mut copy, frame) else {
            drop(copy);
            return Err(OutOfMemory);
        };
    }
    Ok(copy)
}

// One frame more.
fn push_copy(alloc: Global, frames: &mut Frames, frame: &Octets) -> Result<(), OutOfMemory>
    ensures { OnOk result (frames.new ≡ frames.old ++ frame.now ∷ []) }
{
    frames.push(Octets::copy(alloc, frame.as_slice())?)?;
    Ok(())
}

fn copy_shout(alloc: Global, group: &Octets, content: &Frames) -> Result<Command, OutOfMemory>
    ensures { IfOk result (λ copy. copy ≡ CommandValue.Shout group.now content.now) }
{
    let group = Octets::copy(alloc, group.as_slice())?;
    let Ok(content) = copy_frames(alloc, content) else {
        drop(group);
        return Err(OutOfMemory);
    };
    Ok(Command::Shout { group, content })
}

fn copy_addresses(alloc: Global, addresses: &Addresses) -> Result<Addresses, OutOfMemory>
    ensures { IfOk result (λ copy. copy ≡ addresses.now) }
{
    Ok(Addresses::from_vec(Vec::from_slice(alloc, addresses.as_slice())?))
}

impl Command {
    /// A copy of the command.
    pub fn copy(&self, alloc: Global) -> Result<Command, OutOfMemory>
        ensures { IfOk result (λ copy. copy ≡ self.now) }
    {
        match self {
            Command::Join { group } => with_copy!(alloc, Command::Join: group;),
            Command::Leave { group } => with_copy!(alloc, Command::Leave: group;),
            Command::Whisper { peer, content } => Ok(Command::Whisper {
                peer: *peer,
                content: copy_frames(alloc, content)?,
            }),
            Command::Shout { group, content } => copy_shout(alloc, group, content),
            Command::Bad { line } => Ok(Command::Bad { line: *line }),
            Command::Quit => Ok(Command::Quit),
        }
    }
}

impl Input {
    /// A copy of the input.
    pub fn copy(&self, alloc: Global) -> Result<Input, OutOfMemory>
        ensures { IfOk result (λ copy. copy ≡ self.now) }
    {
        match self {
            Input::Datagram { from, bytes } => with_copy!(alloc, Input::Datagram: bytes; from),
            Input::Opened { conn } => Ok(Input::Opened { conn: *conn }),
            Input::Piece { conn, bytes } => with_copy!(alloc, Input::Piece: bytes; conn),
            Input::Shut { conn } => Ok(Input::Shut { conn: *conn }),
            Input::Linked { link } => Ok(Input::Linked { link: *link }),
            Input::Reply { link, bytes } => with_copy!(alloc, Input::Reply: bytes; link),
            Input::Unlinked { link } => Ok(Input::Unlinked { link: *link }),
            Input::Took { link, count } => Ok(Input::Took {
                link: *link,
                count: *count,
            }),
            Input::Tick => Ok(Input::Tick),
            Input::Do(command) => Ok(Input::Do(command.copy(alloc)?)),
            Input::End => Ok(Input::End),
        }
    }
}

impl Entry {
    /// A copy of the entry.
    pub fn copy(&self, alloc: Global) -> Result<Entry, OutOfMemory>
        ensures { IfOk result (λ copy. copy ≡ self.now) }
    {
        Ok(Entry {
            at: self.at,
            input: self.input.copy(alloc)?,
        })
    }
}

impl Act {
    /// A copy of the act.
    pub fn copy(&self, alloc: Global) -> Result<Act, OutOfMemory>
        ensures { IfOk result (λ copy. copy ≡ self.now) }
    {
        match self {
            Act::Connect { link, to } => Ok(Act::Connect {
                link: *link,
                to: *to,
            }),
            Act::CloseLink { link } => Ok(Act::CloseLink { link: *link }),
            Act::CloseConn { conn } => Ok(Act::CloseConn { conn: *conn }),
            Act::Answer { conn, bytes } => with_copy!(alloc, Act::Answer: bytes; conn),
            Act::Offer { link } => Ok(Act::Offer { link: *link }),
            Act::Beacon { bytes } => Ok(Act::Beacon { bytes: *bytes }),
        }
    }
}

impl Start {
    /// A copy of the settings.
    pub fn copy(&self, alloc: Global) -> Result<Start, OutOfMemory>
        ensures { IfOk result (λ copy. copy ≡ self.now) }
    {
        Ok(Start {
            host: self.host,
            port: self.port,
            listen: self.listen,
            beacon_port: self.beacon_port,
            to: copy_addresses(alloc, &self.to)?,
            interval: self.interval,
        })
    }
}
