//! Writes as frames of content.

ghost use Rattle.std.specs.Prelude.{◌≡◌, ◌≤◌, ◌∷◌, ◌++◌, [], length, decimal, IfOk, OnOk, OnErr, IsErrOf};
ghost use Rattle.std.specs.Prelude.{Some};
ghost use Rattle.zre_outside.specs.Causes.{Rose};
ghost use Rattle.zre_outside.specs.Told.{AppendsFront, WritesThrough};
ghost use Rattle.zre_values.specs.Text.{id_text};
ghost use Rattle.zre_shared.specs.Lines.{line};
ghost use Rattle.zre_shared.specs.Writes.{head_text, IsWrite, write_text, write_of};

use crate::reading::{Fields, said_by};
use std::alloc::Global;
use zre_outside::{NextFault, Sink, write_much};
use zre_values::{Octets, OutOfMemory, PeerId, push_decimal, push_quoted, take_apart};

/// The most octets of a key.
pub const KEY_OCTETS: usize = 255;

/// The most octets of a value.
pub const VALUE_OCTETS: usize = 65535;

/// What a member of a group wrote into the shared table.
#[derive(Debug)]
pub struct Write {
    /// The key, at most [`KEY_OCTETS`] octets.
    pub key: Octets,
    /// Of two writes of a key the one with the greater count lasts.
    pub count: u64,
    /// Who wrote it. Of writes of a key with one count the one with the greater identity lasts.
    pub id: PeerId,
    /// The value, at most [`VALUE_OCTETS`] octets. It decides between writes of a key that are alike otherwise.
    pub value: Octets,
}

impl Drop for Write {
    fn drop(self) {
        take_apart!(self, Write: key, count, id, value);
    }
}

// Appends a count and an identity, each with a space after it.
fn push_stamp(out: &mut Octets, count: u64, id: PeerId) -> Result<(), OutOfMemory>
    ensures { OnOk result (out.new ≡ out.old ++ (decimal count ++ (32 ∷ (id_text id ++ 32 ∷ [])))) }
{
    push_decimal(out, count)?;
    out.push(b' ')?;
    id.push_to(out)?;
    out.push(b' ')
}

// Appends the fields before the key.
fn push_head(out: &mut Octets, count: u64, id: PeerId) -> Result<(), OutOfMemory>
    ensures { OnOk result (out.new ≡ out.old ++ head_text count id) }
{
    out.append(b"zre-set ")?;
    push_stamp(out, count, id)
}

impl Write {
    /// The write that a frame is: `zre-set COUNT ID KEY VALUE`, with one space between the fields, COUNT in decimal
    /// digits without leading zeros, ID thirty-two upper-case digits, KEY and VALUE quoted and within their limits. A
    /// frame of any other form is none.
    pub fn read(alloc: Global, frame: &[u8]) -> Result<Option<Write>, OutOfMemory>
        ensures { IfOk result (λ found. found ≡ write_of frame.now) }
    {
        match Fields::of(frame) {
            Some(fields) => said_by(alloc, fields),
            None => Ok(None),
        }
    }

    /// The frame that [`Write::read`] reads.
    pub fn write(&self, alloc: Global) -> Result<Octets, OutOfMemory>
        requires key { length self.now.key ≤ KEY_OCTETS }
        requires value { length self.now.value ≤ VALUE_OCTETS }
        ensures { IfOk result (λ frame. frame ≡ write_text self.now) }
    {
        let mut frame = Octets::new(alloc);
        let Ok(()) = self.push_frame(&mut frame) else {
            drop(frame);
            return Err(OutOfMemory);
        };
        Ok(frame)
    }

    fn push_frame(&self, out: &mut Octets) -> Result<(), OutOfMemory>
        ensures { OnOk result (out.new ≡ out.old ++ write_text self.now) }
    {
        push_head(out, self.count, self.id)?;
        push_quoted(out, self.key.as_slice())?;
        out.push(b' ')?;
        push_quoted(out, self.value.as_slice())
    }

    // The frame of a write that a member makes, which every member reads as that write.
    pub(crate) fn frame(&self, alloc: Global) -> Result<Octets, OutOfMemory>
        requires { IsWrite self.now }
        ensures text { IfOk result (λ frame. frame ≡ write_text self.now) }
        ensures again { IfOk result (λ frame. write_of frame ≡ Some self.now) }
    {
        self.write(alloc)
    }

    // Appends the line of a table.
    pub(crate) fn push_line(&self, out: &mut Octets) -> Result<(), OutOfMemory>
        ensures { OnOk result (out.new ≡ out.old ++ line self.now) }
    {
        push_quoted(out, self.key.as_slice())?;
        out.push(b' ')?;
        push_stamp(out, self.count, self.id)?;
        push_quoted(out, self.value.as_slice())?;
        out.push(b'\n')
    }

    // Writes the line of a table, once much is gathered with it.
    pub(crate) fn write_line<O: Sink>(
        &self,
        gathered: &mut Octets,
        out: &mut O,
    ) -> Result<(), NextFault>
        // What was written, and what is gathered; after an error a front of that.
        ensures through { OnOk result (WritesThrough gathered.old gathered.new (O.written out.old) (O.written out.new)
            (line self.now)) }
        ensures front { OnErr result (AppendsFront (O.written out.old) (O.written out.new)
            (gathered.old ++ line self.now)) }
        // The count rises where the sink failed.
        ensures later { O.faults out.old ≤ O.faults out.new }
        ensures failed { IsErrOf result NextFault.Failed → Rose (O.faults out.old) (O.faults out.new) }
    {
        self.push_line(gathered)?;
        write_much(gathered, out)
    }
}
