//! The frames of content that one event or one entry has for a group's table.

ghost use Rattle.std.specs.Prelude.{◌≡◌, ◌&&◌, not, [], IfOk};
ghost use Rattle.std.specs.List.{list_any};
ghost use Rattle.std.specs.Option.{option_map_or};
ghost use Rattle.zre_records.specs.table.Writes.{frames_told as told, frames_asked as asked};
ghost use Rattle.zre_records.specs.table.Writes.{frames_shouted, is_refusal};

use std::alloc::Global;
use zre_outside::{Command, Input};
use zre_peer::Event;
use zre_values::{Octets, OutOfMemory};

/// The content of a whisper, or of a shout to the group.
pub(crate) fn frames_told<'a>(group: &[u8], event: &'a Event) -> &'a [Octets]
    ensures { result.now ≡ told group.now event.now }
{
    match event {
        Event::Whisper { content, .. } => content.as_slice(),
        Event::Shout {
            group: to,
            content,
            ..
        } if to.as_slice() == group => content.as_slice(),
        _ => &[],
    }
}

/// The content that a command asks to shout to the group.
pub(crate) fn frames_asked<'a>(group: &[u8], command: &'a Command) -> &'a [Octets]
    ensures { result.now ≡ asked group.now command.now }
{
    match command {
        Command::Shout { group: to, content } if to.as_slice() == group => content.as_slice(),
        _ => &[],
    }
}

/// A copy of the command that shouts to the group, where the entry is one: the node keeps the entry.
pub(crate) fn shout_of(
    alloc: Global,
    group: &[u8],
    input: &Input,
) -> Result<Option<Command>, OutOfMemory>
    ensures { IfOk result
        (λ command. option_map_or (asked group.now) command [] ≡ frames_shouted group.now input.now) }
{
    match input {
        Input::Do(command) if !frames_asked(group, command).is_empty() => {
            Ok(Some(command.copy(alloc)?))
        }
        _ => Ok(None),
    }
}

// Whether one of these events tells that a command isn't done.
fn has_refusal(events: &[Event]) -> bool
    ensures { result ≡ list_any is_refusal events.now }
{
    events
        .iter()
        .any(|event| matches!(event, Event::Refused { .. }))
}

/// Whether what the user asked for by an entry that raised these events is done. The node may have stopped before.
pub(crate) fn is_done(stopped: bool, events: &[Event]) -> bool
    ensures { result ≡ (not stopped && not (list_any is_refusal events.now)) }
{
    !stopped && !has_refusal(events)
}
