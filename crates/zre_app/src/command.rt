//! The command that the words of the command line are.

ghost use Rattle.std.specs.Prelude.{◌≡◌, IfOk};
ghost use Rattle.zre_app.specs.Words.{command_of, is_chat, IsReady};

use crate::chat_words::chat_of;
use crate::plain_words::{Plain, plain_of};
use crate::words::is_named;
use std::alloc::Global;
use zre_chat::Chat;
use zre_values::{Frames, OutOfMemory};

/// What the words ask for.
#[derive(Drop)]
pub enum Command {
    /// Read or make a text, and write.
    Plain(Plain),
    /// Be a node on the network.
    Chat(Chat),
}

/// Whether the name of the command is `chat`.
pub fn is_chat(words: &Frames) -> bool
    ensures { result ≡ is_chat words.now }
{
    is_named(b"chat", words)
}

/// The command that the words are: those after the program's name, each as its octets. None where they are in no
/// command's list, or where one isn't UTF-8.
pub fn command_of(alloc: Global, words: &Frames) -> Result<Option<Command>, OutOfMemory>
    ensures value { IfOk result (λ command. command ≡ command_of words.now) }
    ensures ready { IfOk result IsReady }
{
    if is_chat(words) {
        match chat_of(alloc, words)? {
            Some(chat) => Ok(Some(Command::Chat(chat))),
            None => Ok(None),
        }
    } else {
        match plain_of(alloc, words)? {
            Some(plain) => Ok(Some(Command::Plain(plain))),
            None => Ok(None),
        }
    }
}
