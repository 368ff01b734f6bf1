//! Text that is gathered before it is written, so that a long one never lies whole in memory.

ghost use Rattle.std.specs.Prelude.{◌≡◌, ◌≤◌, [], OnOk, OnErr, IsErrOf};
ghost use Rattle.std.specs.Io.KnownBytes.{Appends};
ghost use Rattle.zre_outside.specs.Causes.{Rose, is_failed};
ghost use Rattle.zre_outside.specs.Refusals.{refused_after};
ghost use Rattle.zre_outside.specs.Told.{AppendsFront, WritesThrough};

use crate::sink::{NextFault, Sink, write_all};
use zre_values::Octets;

// How many octets are gathered before they are written: with one line more they may be this many.
const MUCH: usize = 65536;

/// Writes what was gathered, and gathers anew. After a refusal a front of it is written, and all of it stays.
pub fn write_gathered<O: Sink>(gathered: &mut Octets, out: &mut O) -> Result<(), NextFault>
    // What is written, and what is left.
    ensures written { OnOk result (Appends (O.written out.old) (O.written out.new) gathered.old) }
    ensures empty { OnOk result (gathered.new ≡ []) }
    // A sink that fails.
    ensures unchanged { OnErr result (gathered.new ≡ gathered.old) }
    ensures front { AppendsFront (O.written out.old) (O.written out.new) gathered.old }
    // Which counts of faults rise.
    ensures later { O.faults out.old ≤ O.faults out.new }
    ensures failed { IsErrOf result NextFault.Failed → Rose (O.faults out.old) (O.faults out.new) }
    ensures counts { O.refused out.new ≡ refused_after (is_failed result) (O.refused out.old) }
{
    write_all(out, gathered.as_slice())?;
    gathered.clear();
    Ok(())
}

/// Writes what was gathered once it is 64 KiB, and gathers anew. After a refusal a front of it is written, and all of
/// it stays.
pub fn write_much<O: Sink>(gathered: &mut Octets, out: &mut O) -> Result<(), NextFault>
    // What is written, and what is left.
    ensures through { OnOk result
        (WritesThrough gathered.old gathered.new (O.written out.old) (O.written out.new) []) }
    // A sink that fails.
    ensures unchanged { OnErr result (gathered.new ≡ gathered.old) }
    ensures front { OnErr result (AppendsFront (O.written out.old) (O.written out.new) gathered.old) }
    // Which counts of faults rise.
    ensures later { O.faults out.old ≤ O.faults out.new }
    ensures failed { IsErrOf result NextFault.Failed → Rose (O.faults out.old) (O.faults out.new) }
    ensures counts { O.refused out.new ≡ refused_after (is_failed result) (O.refused out.old) }
{
    if gathered.len() < MUCH {
        return Ok(());
    }
    write_gathered(gathered, out)
}
