ghost use Rattle.std.specs.Prelude.{◌≡◌};
ghost use Rattle.zre_commands.specs.pump.Codes.{code_of};

/// How a call of the program ended.
#[derive(Clone, Copy, Debug, PartialEq, Eq)]
pub enum Status {
    /// The input was read to its end, or a chat to a quit, and all of the text is written.
    Done,
    /// The words of the command line are no command. `USAGE` is written, and nothing is read.
    Usage,
    /// The input isn't in the command's grammar. The last line names the place.
    BadInput,
    /// The source failed.
    ReadFault,
    /// The sink, or the recorder of a chat, failed.
    WriteFault,
    /// The world of a chat failed.
    WorldFault,
    /// A thread of a chat was refused.
    NoThread,
    /// As many octets as the limit were taken, and a further read was due; or a chat took as many turns of the world,
    /// and its node hasn't stopped.
    TooLong,
    /// No memory was left.
    OutOfMemory,
    /// The desk of a gate failed.
    DeskFault,
}

impl Status {
    /// The exit status of the program.
    pub fn code(self) -> u8
        ensures { result ≡ code_of self }
    {
        match self {
            Status::Done => 0,
            Status::Usage => 2,
            Status::BadInput => 3,
            Status::ReadFault => 4,
            Status::WriteFault => 5,
            Status::WorldFault => 6,
            Status::NoThread => 7,
            Status::TooLong => 8,
            Status::OutOfMemory => 9,
            Status::DeskFault => 10,
        }
    }
}
