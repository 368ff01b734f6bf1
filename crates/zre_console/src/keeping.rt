//! The capture is begun.

ghost use Rattle.std.specs.Prelude.{◌≡◌, ◌≢◌, ◌≤◌, ℕ, List, Option, None, Some, true, is_ok, IfSome, IfOk, IfErr, OnOk};
ghost use Rattle.std.specs.Prelude.{IsErrOf};
ghost use Rattle.std.specs.Str.{is_utf8};
ghost use Rattle.zre_outside.specs.Causes.{Rose, is_failed};
ghost use Rattle.zre_outside.specs.Refusals.{refused_after};
ghost use Rattle.zre_commands.specs.declared.pump.status.Status.TheVariants.{ReadFault, WriteFault};
ghost use Rattle.zre_console.specs.Keeping.{head_of, Begins};
ghost use Rattle.zre_console.specs.Stages.{IsEarly};
ghost use Rattle.zre_console.specs.Statuses.{Yields};

use crate::statuses::of_fault;
use std::alloc::Global;
use std::str;
use zre_capture::write_head2;
use zre_commands::pump::Status;
use zre_journal::Config;
use zre_outside::{NextFault, Recorder};
use zre_values::{Octets, OutOfMemory};

// The head of the capture of a node with these settings.
fn head_of(alloc: Global, config: &Config) -> Result<Octets, OutOfMemory>
    ensures { IfOk result (λ head. head ≡ head_of config.now) }
{
    write_head2(alloc, config)
}

// Begins a recorder under a name, and puts this head.
fn begin_named<R: Recorder>(rec: &mut R, name: &str, head: &[u8]) -> Result<(), NextFault>
    // The recorder has the name and the head.
    ensures begins { OnOk result (Begins head.now name.now (R.begun rec.new) (R.kept rec.old) (R.kept rec.new)
        (R.named rec.old) (R.named rec.new)) }
    // Its count rises where it failed, and never falls.
    ensures later { R.faults rec.old ≤ R.faults rec.new }
    ensures failed { IsErrOf result NextFault.Failed → Rose (R.faults rec.old) (R.faults rec.new) }
    ensures counts { R.refused rec.new ≡ refused_after (is_failed result) (R.refused rec.old) }
{
    rec.begin(name)?;
    rec.put(head)?;
    Ok(())
}

/// Begins a recorder under the name of a capture, where there is one, and puts the head of a capture of format 2 of a
/// node with these settings. Where no memory is left for the head, the recorder isn't begun.
pub fn begin<R: Recorder>(
    alloc: Global,
    rec: &mut R,
    config: &Config,
    capture: &Option<Octets>,
) -> Result<(), Status>
    // The name is a text.
    requires { IfSome capture.now (λ name. is_utf8 name ≡ true) }
    // The capture has its name and its head, where there is one.
    ensures begins { (name : List ℕ) → capture.now ≡ Some name → OnOk result (Begins (head_of config.now) name
        (R.begun rec.new) (R.kept rec.old) (R.kept rec.new) (R.named rec.old) (R.named rec.new)) }
    ensures unkept { capture.now ≡ None → (rec.new ≡ rec.old) × (is_ok result ≡ true) }
    // The count never falls, and why it was refused.
    ensures later { R.faults rec.old ≤ R.faults rec.new }
    ensures refused { IfErr result (λ status. IsEarly status ⊥ ⊥ (Rose (R.faults rec.old) (R.faults rec.new))) }
    // Where it refused a call, that is the status, unless memory ran out.
    ensures counts { OnOk result (R.refused rec.new ≡ R.refused rec.old) }
    ensures first { IfErr result (λ status. Yields status WriteFault (R.refused rec.new ≡ R.refused rec.old)) }
    ensures unread { IfErr result (λ status. status ≢ ReadFault) }
{
    let Some(name) = capture else {
        return Ok(());
    };
    let Ok(head) = head_of(alloc, config) else {
        return Err(Status::OutOfMemory);
    };
    let Ok(name) = str::from_utf8(name.as_slice()) else {
        unreachable!();
    };
    match begin_named(rec, name, head.as_slice()) {
        Ok(()) => Ok(()),
        Err(fault) => Err(of_fault(fault, Status::WriteFault)),
    }
}
