//! Octets and numbers are values of their types. The functions only look: what they ensure is for proofs.

ghost use Rattle.std.specs.Prelude.{All};
ghost use Rattle.zre_values.specs.Address.{IsAddress};
ghost use Rattle.zre_values.specs.PlainId.{IsPeerId};
ghost use Rattle.zre_capture.specs.Lines.{IsOctets, IsCommand, IsInput, IsEntry};

use zre_outside::{Command, Entry, Input};
use zre_values::{Frames, Octets, PeerId};

fn are_bytes(bytes: &[u8])
    ensures { IsOctets bytes.now }
{}

/// Shows that octets are values of their type.
pub fn are_octets(octets: &Octets)
    ensures { IsOctets octets.now }
{
    are_bytes(octets.as_slice());
}

fn are_frames(frames: &Frames)
    ensures { All IsOctets frames.now }
{
    for frame in frames.as_slice() {
        are_octets(frame);
    }
}

/// Shows that an identity is a value of its type.
pub fn is_id(id: &PeerId)
    ensures { IsPeerId id.now }
{
    let PeerId(octets) = *id;
    are_bytes(&octets);
}

/// Shows that an address is a value of its type.
pub fn is_address(host: &[u8; 4])
    ensures { IsAddress host.now }
{
    let octets = *host;
    are_bytes(&octets);
}

fn is_command(command: &Command)
    ensures { IsCommand command.now }
{
    match command {
        Command::Join { group } => are_octets(group),
        Command::Leave { group } => are_octets(group),
        Command::Whisper { peer, content } => {
            is_id(peer);
            are_frames(content);
        }
        Command::Shout { group, content } => {
            are_octets(group);
            are_frames(content);
        }
        Command::Bad { line } => {
            let _line = *line;
        }
        Command::Quit => {}
    }
}

fn is_input(input: &Input)
    ensures { IsInput input.now }
{
    match input {
        Input::Datagram { from, bytes } => {
            is_address(from);
            are_octets(bytes);
        }
        Input::Opened { conn: number }
        | Input::Shut { conn: number }
        | Input::Linked { link: number }
        | Input::Unlinked { link: number } => {
            let _number = *number;
        }
        Input::Piece {
            conn: number,
            bytes,
        }
        | Input::Reply {
            link: number,
            bytes,
        } => {
            let _number = *number;
            are_octets(bytes);
        }
        Input::Took { link, count } => {
            let (_link, _count) = (*link, *count);
        }
        Input::Do(command) => is_command(command),
        Input::Tick | Input::End => {}
    }
}

/// Shows that an entry is a value of its types.
pub(crate) fn is_value(entry: &Entry)
    ensures { IsEntry entry.now }
{
    let _at = entry.at;
    is_input(&entry.input);
}
