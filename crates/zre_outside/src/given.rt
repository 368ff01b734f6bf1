//! What was given away, for contracts alone.

ghost use Rattle.std.specs.Prelude.{◌≡◌, ◌∷◌, ◌++◌, []};

use std::snapshot::Snapshot;

/// Values that were given away, in order. It takes no memory.
#[derive(Drop)]
pub(crate) enum Given<T> {
    Nothing,
    More {
        earlier: Snapshot<Given<T>>,
        last: Snapshot<T>,
    },
}

impl<T> Given<T> {
    ghost use Rattle.zre_outside.specs.Givens.{given_in};

    pub(crate) fn nothing() -> Self
        ensures { given_in result ≡ [] }
    {
        Given::Nothing
    }

    /// One more.
    pub(crate) fn with(&self, value: &T) -> Self
        ensures { given_in result ≡ given_in self.now ++ value.now ∷ [] }
    {
        Given::More {
            earlier: Snapshot::of(self),
            last: Snapshot::of(value),
        }
    }
}
