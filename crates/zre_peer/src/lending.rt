//! A message that stands by itself, as one that lies in frames.

ghost use Rattle.std.specs.Prelude.{◌≡◌, true, MatchOption};
ghost use Rattle.zre_msg.specs.Commands.{body_of};
ghost use Rattle.zre_msg.specs.Content.{content_of};
ghost use Rattle.zre_msg.specs.Lent.{message_of};
ghost use Rattle.zre_peer.specs.Runs.{is_hello};

use zre_msg::{Body, LentBody, LentContent, LentMessage, Message};

// The command of a body and its content; none of HELLO.
fn command_of(body: &Body) -> Option<(LentBody<'_>, LentContent<'_>)>
    ensures { MatchOption result (is_hello body.now ≡ true) (λ found. body_of found.0 (content_of found.1) ≡ body.now) }
{
    match body {
        Body::Hello { .. } => None,
        Body::Whisper { content } => Some((
            LentBody::Whisper,
            LentContent::Frames(content.as_slice()),
        )),
        Body::Shout { group, content } => {
            let group = group.as_slice();
            Some((
                LentBody::Shout { group },
                LentContent::Frames(content.as_slice()),
            ))
        }
        Body::Join { group, status } => {
            let (group, status) = (group.as_slice(), *status);
            Some((LentBody::Join { group, status }, LentContent::One(None)))
        }
        Body::Leave { group, status } => {
            let (group, status) = (group.as_slice(), *status);
            Some((LentBody::Leave { group, status }, LentContent::One(None)))
        }
        Body::Ping => Some((LentBody::Ping, LentContent::One(None))),
        Body::PingOk => Some((LentBody::PingOk, LentContent::One(None))),
        Body::Other { number, rest, more } => {
            let (number, rest) = (*number, rest.as_slice());
            Some((
                LentBody::Other { number, rest },
                LentContent::Frames(more.as_slice()),
            ))
        }
    }
}

/// The message with its fields lent, unless it is HELLO.
pub fn lent(message: &Message) -> Option<LentMessage<'_>>
    ensures { MatchOption result (is_hello message.now.body ≡ true) (λ found. message_of found ≡ message.now) }
{
    let (command, content) = command_of(&message.body)?;
    let sequence = message.sequence;
    Some(LentMessage {
        sequence,
        command,
        content,
    })
}
