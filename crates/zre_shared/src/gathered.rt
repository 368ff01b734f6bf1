//! Frames gathered into whispers, as many into each as a message may have.

ghost use Rattle.std.specs.Prelude.{◌≡◌, ◌≤◌, [], length, IfOk, OnOk};
ghost use Rattle.zre_shared.specs.Gathering.{frames_of, IsGathered, IsSent, HasRoom, IsPushed, AreAll};

use std::alloc::Global;
use std::mem;
use zre_outside::Command;
use zre_values::limits::{MESSAGE_FRAMES, MESSAGE_OCTETS};
use zre_values::{Frames, List, Octets, OutOfMemory, PeerId};

/// A list of commands.
pub type Commands = List<Command>;

// The frames of content that a message may have beside its first frame, and their octets beside the six of that.
const FRAMES: usize = MESSAGE_FRAMES - 1;

const OCTETS: usize = MESSAGE_OCTETS - 6;

/// Whispers to a peer, and the content of the next one.
#[derive(Drop)]
pub(crate) struct GatheredWhispers {
    peer: PeerId,
    commands: Commands,
    content: Frames,
    octets: usize,
    alloc: Global,
}

impl GatheredWhispers {
    /// No frames, which take no memory.
    pub(crate) fn new(alloc: Global, peer: PeerId) -> GatheredWhispers
        ensures peer { result.peer ≡ peer }
        ensures none { frames_of result ≡ [] }
        ensures gathered { IsGathered result }
    {
        GatheredWhispers {
            peer,
            commands: Commands::new(alloc),
            content: Frames::new(alloc),
            octets: 0,
            alloc,
        }
    }

    // Makes a whisper of the content.
    fn send(&mut self) -> Result<(), OutOfMemory>
        ensures { OnOk result (IsSent self.old self.new) }
    {
        let content = mem::replace(&mut self.content, Frames::new(self.alloc));
        self.octets = 0;
        let peer = self.peer;
        self.commands.push(Command::Whisper { peer, content })
    }

    // Makes room for a frame of this length.
    fn make_room(&mut self, len: usize) -> Result<(), OutOfMemory>
        requires gathered { IsGathered self.old }
        requires fits { len ≤ OCTETS }
        ensures { OnOk result (HasRoom self.old self.new len) }
    {
        if self.content.len() < FRAMES && self.octets + len <= OCTETS {
            return Ok(());
        }
        self.send()
    }

    /// Appends a frame.
    pub(crate) fn push(&mut self, frame: Octets) -> Result<(), OutOfMemory>
        requires gathered { IsGathered self.old }
        requires fits { length frame ≤ OCTETS }
        ensures { OnOk result (IsPushed self.old self.new frame) }
    {
        self.make_room(frame.len())?;
        self.octets += frame.len();
        self.content.push(frame)
    }

    /// The whispers of all frames.
    pub(crate) fn finish(mut self) -> Result<Commands, OutOfMemory>
        requires { IsGathered self }
        ensures { IfOk result (AreAll self) }
    {
        if self.content.len() == 0 {
            return Ok(self.commands);
        }
        self.send()?;
        Ok(self.commands)
    }
}
