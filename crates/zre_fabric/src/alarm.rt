//! The alarm of a node: who fails raises it, so that nobody waits for more input.

ghost use Rattle.std.specs.Prelude.{◌≡◌, is_none};

use crate::notifier::Notifier;
use crate::observed::{Observed, Observer};
use std::alloc::Global;
use std::net::{Net, Shutdown};
use std::os::fd::{AsRawFd, RawFd};
use std::os::unix::net::UnixStream;

/// The near end is shut down where the alarm is raised, and then the far end is at its end for whoever watches it.
#[derive(Drop)]
pub struct AlarmLine {
    near: UnixStream,
    far: UnixStream,
}

/// A share of an alarm. It is raised once, and stays so. Nobody hears a silent one.
pub type Alarm = Notifier<AlarmLine>;

impl Alarm {
    ghost use Rattle.zre_fabric.specs.Notifiers.{is_silent};

    /// An alarm. Where the system has none to give, it is silent.
    pub fn new<R: Net>(rt: &R, alloc: Global) -> Self {
        let Ok((near, far)) = UnixStream::pair(rt) else {
            return Notifier::silent();
        };
        Notifier::over(alloc, AlarmLine { near, far })
    }

    /// Raises it. Who hears it reads no more.
    pub fn raise(&self) {
        if let Some(line) = self.line() {
            let _ = line.near.shutdown(Shutdown::Both);
        }
    }

    // What is ready to be read once it was raised.
    pub(crate) fn descriptor(&self) -> Option<RawFd>
        ensures { is_none result ≡ is_silent self.now }
    {
        match self.line() {
            Some(line) => Some(line.far.as_raw_fd()),
            None => None,
        }
    }
}

/// A sink, a recorder or a world that raises an alarm where one of its calls is refused. A sink raises it too where it
/// is told, by a write of no octets, that there is nothing more to write.
pub type Alarming<T> = Observed<T, Alarm>;

impl Observer for Alarm {
    fn ended(&mut self) {
        self.raise();
    }
}
