//! The sources of entries, and the tokens by which the poll names them.

ghost use Rattle.std.specs.Prelude.{◌≡◌, IfSome};
ghost use Rattle.zre_fabric.specs.Tokens.{number_of};

use mio::Token;

#[derive(Clone, Copy)]
pub(crate) enum EntrySource {
    /// The socket for beacons.
    Beacons,
    /// The listener.
    Mailbox,
    /// The bell of the user's input, which has no entries.
    Bell,
    /// A connection that came, by its number.
    Conn(u64),
    /// A link, by its number.
    Link(u64),
}

/// Connections have the even tokens from 4 on, links the odd ones from 3 on; a number that has no token gives none.
pub(crate) fn token_of(source: EntrySource) -> Option<Token>
    ensures { IfSome result (λ token. token.0 ≡ number_of source) }
{
    let number = match source {
        EntrySource::Beacons => 0,
        EntrySource::Mailbox => 1,
        EntrySource::Bell => 2,
        EntrySource::Conn(conn) => conn.checked_mul(2)?.checked_add(4)?,
        EntrySource::Link(link) => link.checked_mul(2)?.checked_add(3)?,
    };
    Some(Token(number as usize))
}

pub(crate) fn source_of(token: Token) -> EntrySource
    ensures { number_of result ≡ token.0 }
{
    let number = token.0 as u64;
    if number == 0 {
        EntrySource::Beacons
    } else if number == 1 {
        EntrySource::Mailbox
    } else if number == 2 {
        EntrySource::Bell
    } else if number % 2 == 0 {
        EntrySource::Conn(number / 2 - 2)
    } else {
        EntrySource::Link(number / 2 - 1)
    }
}
