ghost use Rattle.std.specs.Prelude.{◌≡◌, ◌<◌, ◌≤◌, ◌-◌, ◌^◌, ◌↔◌, ◌++◌, length, slice_get, is_some, All};
ghost use Rattle.std.specs.Prelude.{Some, Err, IfOk, OnOk, OnErr, IsErrOf};
ghost use Rattle.std.specs.List.Sorted.{IsStrictlySortedBy};
ghost use Rattle.std.specs.declared.cmp.Ordering.TheVariants.{Less};
ghost use Rattle.zre_outside.specs.Causes.{Rose};
ghost use Rattle.zre_outside.specs.Told.{AppendsFront, WritesThrough};
ghost use Rattle.zre_values.specs.PlainId.{IsPeerId};
ghost use Rattle.zre_shared.specs.Lines.{lines};
ghost use Rattle.zre_shared.specs.Replicas.{none_held, with_write, with_frame, greatest_count, next_write};
ghost use Rattle.zre_shared.specs.Tables.{by_key, by_age};
ghost use Rattle.zre_shared.specs.Writes.{IsWrite, write_of, write_text};
ghost use Rattle.zre_shared.specs.Welcome.{IsWelcome};

use crate::age::replace;
use crate::gathered::{Commands, GatheredWhispers};
use crate::write::{KEY_OCTETS, VALUE_OCTETS, Write};
use std::alloc::Global;
use std::collections::BTreeMap;
use std::marker::Model;
use thiserror::Error;
use zre_outside::{NextFault, Sink};
use zre_values::{Octets, OutOfMemory, PeerId, take_apart};

/// What a member holds of the shared table: for each key the greatest of the writes that it took and made. It holds as
/// many keys as come.
pub struct Replica {
    writes: BTreeMap<Vec<u8>, Write>,
    greatest: u64,
    id: PeerId,
    alloc: Global,
}

impl Model for Replica {
    ghost use Rattle.std.specs.Map.{values_of};
    ghost use Rattle.zre_shared.specs.Replicas.{HeldWrites};
    ghost use Rattle.zre_shared.specs.Kept.{IsKept};

    ghost Value = { HeldWrites };

    ghost view = { λ replica. record { id = replica.id; writes = values_of replica.writes.entries } };

    ghost invariant = { λ replica. IsKept replica.writes replica.greatest replica.id };
}

impl Drop for Replica {
    fn drop(self) {
        take_apart!(self, Replica: writes, greatest, id, alloc);
    }
}

/// Why a write isn't made. Nothing has changed then.
#[derive(Clone, Copy, Debug, PartialEq, Eq, Error)]
pub enum SetFault {
    /// The greatest count that is held is 2^64 - 1, so that no greater one is left.
    #[error("no greater count is left")]
    Spent,
    /// No memory was left.
    #[error("out of memory")]
    OutOfMemory,
}

impl From<OutOfMemory> for SetFault {
    ghost use Rattle.zre_shared.specs.declared.replica.SetFault.{SetFault};

    ghost from_gives = { λ _ fault. fault ≡ SetFault.OutOfMemory };

    fn from(_: OutOfMemory) -> Self {
        SetFault::OutOfMemory
    }
}

// An identity is sixteen octets.
fn of_octets(octets: [u8; 16]) -> PeerId
    ensures value { result ≡ record { 0 = octets } }
    ensures fits { IsPeerId result }
{
    // The slice is taken for what its type says of the octets.
    let _slice = octets.as_slice();
    PeerId(octets)
}

impl Replica {
    /// The empty table of a member with this identity. It takes no memory.
    pub fn new(alloc: Global, id: PeerId) -> Replica
        ensures { result ≡ none_held id }
    {
        Replica {
            writes: BTreeMap::new(alloc),
            greatest: 0,
            id: of_octets(id.0),
            alloc,
        }
    }

    // Puts a write into the table, where it is greater than the one of its key that is held, or changes nothing where
    // no memory is left.
    fn put(&mut self, write: Write) -> Result<(), OutOfMemory>
        requires { IsWrite write }
        ensures ok { OnOk result (self.new ≡ with_write self.old write) }
        ensures err { OnErr result (self.new ≡ self.old) }
    {
        let greatest = self.greatest.max(write.count);
        if let Some(held) = self.writes.get_mut(write.key.as_slice()) {
            replace(held, write);
            self.greatest = greatest;
            return Ok(());
        }
        let key = Vec::from_slice(self.alloc, write.key.as_slice())?;
        drop(self.writes.insert(key, write)?);
        self.greatest = greatest;
        Ok(())
    }

    /// Takes a frame of content: where it is a write the table is that with the write, and otherwise nothing changes.
    /// Answers whether it was one. So frames may come in any order, and more than once.
    pub fn take(&mut self, frame: &[u8]) -> Result<bool, OutOfMemory>
        ensures answer { IfOk result (λ is. is ≡ is_some (write_of frame.now)) }
        ensures ok { OnOk result (self.new ≡ with_frame self.old frame.now) }
        ensures err { OnErr result (self.new ≡ self.old) }
    {
        match Write::read(self.alloc, frame)? {
            Some(write) => {
                self.put(write)?;
                Ok(true)
            }
            None => Ok(false),
        }
    }

    // The write of a value for a key that comes next.
    fn make(&self, key: &[u8], value: &[u8]) -> Result<Write, SetFault>
        // The key and the value are short enough.
        requires key { length key.now ≤ KEY_OCTETS }
        requires value { length value.now ≤ VALUE_OCTETS }
        // The next write, or none is left.
        ensures made { IfOk result (λ write. write ≡ next_write self.now key.now value.now) }
        ensures is { IfOk result (λ write. IsWrite write) }
        ensures spent { (result ≡ Err SetFault.Spent) ↔ (greatest_count self.now.writes ≡ 2 ^ 64 - 1) }
    {
        let Some(count) = self.greatest.checked_add(1) else {
            return Err(SetFault::Spent);
        };
        let name = Octets::copy(self.alloc, key)?;
        let Ok(text) = Octets::copy(self.alloc, value) else {
            drop(name);
            return Err(SetFault::OutOfMemory);
        };
        Ok(Write {
            key: name,
            count,
            id: self.id,
            value: text,
        })
    }

    /// Writes a value for a key, with a count above every count that is held, and gives the frame to be shouted to the
    /// group.
    pub fn set(&mut self, key: &[u8], value: &[u8]) -> Result<Octets, SetFault>
        // The key and the value are short enough.
        requires key { length key.now ≤ KEY_OCTETS }
        requires value { length value.now ≤ VALUE_OCTETS }
        // The frame of the next write, which is read as that.
        ensures frame { IfOk result (λ frame. frame ≡ write_text (next_write self.old key.now value.now)) }
        ensures again { IfOk result (λ frame. write_of frame ≡ Some (next_write self.old key.now value.now)) }
        // It is held, and is above every one before.
        ensures ok { OnOk result (self.new ≡ with_write self.old (next_write self.old key.now value.now)) }
        ensures greater { All (λ held. by_age held (next_write self.old key.now value.now) ≡ Less) self.old.writes }
        // None is left; after an error nothing has changed.
        ensures spent { (result ≡ Err SetFault.Spent) ↔ (greatest_count self.old.writes ≡ 2 ^ 64 - 1) }
        ensures err { OnErr result (self.new ≡ self.old) }
    {
        let write = self.make(key, value)?;
        let frame = write.frame(self.alloc)?;
        let Ok(()) = self.put(write) else {
            drop(frame);
            return Err(SetFault::OutOfMemory);
        };
        Ok(frame)
    }

    /// How many keys there are.
    pub fn len(&self) -> usize
        ensures len { result ≡ length self.now.writes }
        ensures rising { IsStrictlySortedBy by_key self.now.writes }
    {
        self.writes.len()
    }

    /// The write of the key at this place, counted from 0 in the order of the keys' octets. It walks there from the
    /// first key: for all of them there is [`Replica::write_lines`].
    pub fn get(&self, i: usize) -> &Write
        requires { i < length self.now.writes }
        ensures { slice_get self.now.writes i ≡ Some result.now }
    {
        self.writes.values().nth(i).unwrap()
    }

    /// Writes the table as text: a line `KEY COUNT ID VALUE` for each key, KEY and VALUE quoted, in the order of the
    /// keys' octets. The text is gathered, and written whenever it is much. After an error a front of it is written.
    pub fn write_lines<O: Sink>(&self, gathered: &mut Octets, out: &mut O) -> Result<(), NextFault>
        // What was written, and what is gathered; after an error a front of that.
        ensures through { OnOk result (WritesThrough gathered.old gathered.new (O.written out.old) (O.written out.new)
            (lines self.now.writes)) }
        ensures front { OnErr result (AppendsFront (O.written out.old) (O.written out.new)
            (gathered.old ++ lines self.now.writes)) }
        // The count rises where the sink failed.
        ensures later { O.faults out.old ≤ O.faults out.new }
        ensures failed { IsErrOf result NextFault.Failed → Rose (O.faults out.old) (O.faults out.new) }
    {
        for write in self.writes.values() {
            write.write_line(gathered, out)?;
        }
        Ok(())
    }

    /// The commands that tell a peer the whole table, by whispers of as many frames as a message may have. The peer
    /// that takes every frame of them has the table of both.
    pub fn welcome(&self, peer: PeerId) -> Result<Commands, OutOfMemory>
        ensures { IfOk result (IsWelcome peer self.now.writes) }
    {
        let mut gathered = GatheredWhispers::new(self.alloc, peer);
        for write in self.writes.values() {
            let Ok(frame) = write.write(self.alloc) else {
                drop(gathered);
                return Err(OutOfMemory);
            };
            let Ok(()) = gathered.push(frame) else {
                drop(gathered);
                return Err(OutOfMemory);
            };
        }
        gathered.finish()
    }
}
