//! The summary.

ghost use Rattle.std.specs.Prelude.{◌≡◌, ◌++◌, OnOk};
ghost use Rattle.zre_commands.specs.exercise.Summary.{count_line, summary};

use crate::exercise::counts::Counts;
use zre_values::{Octets, OutOfMemory, push_decimal};

fn push_count(out: &mut Octets, word: &[u8], count: u64) -> Result<(), OutOfMemory>
    ensures { OnOk result (out.new ≡ out.old ++ count_line word.now count) }
{
    out.append(word)?;
    out.push(b' ')?;
    push_decimal(out, count)?;
    out.push(b'\n')
}

/// Appends the lines of counts. After an error a front of them may stand there.
#[tactic(auto, unfolding(crate::specs::exercise::Summary::summary))]
pub(crate) fn push_counts(out: &mut Octets, counts: &Counts) -> Result<(), OutOfMemory>
    ensures { OnOk result (out.new ≡ out.old ++ summary counts.now) }
{
    push_count(out, b"entries", counts.entries)?;
    push_count(out, b"enter", counts.enter)?;
    push_count(out, b"join", counts.join)?;
    push_count(out, b"leave", counts.leave)?;
    push_count(out, b"whisper", counts.whisper)?;
    push_count(out, b"shout", counts.shout)?;
    push_count(out, b"exit", counts.exit)?;
    push_count(out, b"content", counts.content)
}
