//! What is kept of a known peer.

ghost use Rattle.std.specs.Prelude.{◌≡◌, is_some, option_copied};
ghost use Rattle.zre_tables.specs.Views.{view_of_row};

use zre_link::Link;
use zre_peer::{Run, View};
use zre_values::{PeerId, take_apart};

/// The run of an entered peer, and the connection that carries it.
pub struct CarriedRun {
    /// The number of the connection.
    pub conn: u64,
    /// The messages that came on it.
    pub run: Run,
}

impl Drop for CarriedRun {
    fn drop(self) {
        take_apart!(self, CarriedRun: conn, run);
    }
}

/// A known peer, by its link.
pub struct Peer {
    /// Its identity.
    pub id: PeerId,
    /// When it last showed that it is there.
    pub active: u64,
    /// There where it is entered.
    pub run: Option<CarriedRun>,
    /// What is sent to it.
    pub link: Link,
}

impl Drop for Peer {
    fn drop(self) {
        take_apart!(self, Peer: id, active, run, link);
    }
}

impl Peer {
    /// Whether a connection runs it.
    pub fn is_entered(&self) -> bool
        ensures { result ≡ is_some self.now.run }
    {
        self.run.is_some()
    }

    /// What it has told in its run.
    pub fn view(&self) -> Option<&View>
        ensures { option_copied result ≡ view_of_row self.now }
    {
        match &self.run {
            Some(running) => running.run.view(),
            None => None,
        }
    }
}
