//! What comes of looking at a source once.

use zre_outside::Input;

#[derive(Drop)]
pub(crate) enum Polled {
    /// An entry; there may be more.
    More(Input),
    /// The last entry of a source that is gone.
    Last(Input),
    /// No entry, and there may be one at another try, later.
    Again,
    /// Something was read and isn't given. There may be more.
    Dropped,
    /// No entry before the poll tells of the source again.
    Rest,
}
