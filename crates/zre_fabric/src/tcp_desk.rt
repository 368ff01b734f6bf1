ghost use Rattle.std.specs.Prelude.{◌≡◌, ◌≤◌, None, option_map, is_err, IsSome, IfOk, OnOk, OnErr};
ghost use Rattle.zre_outside.specs.Causes.{Rose, counted};
ghost use Rattle.zre_outside.specs.Desks.{with_begun, with_given};

use crate::alarm::Alarm;
use crate::beacons::address;
use crate::bell::{Ringer, Ringing};
use crate::errors::{ErrorClass, class_of, is_short};
use crate::heeding::Heeding;
use std::alloc::Global;
use std::io::{self, ErrorKind};
use std::net::{Net, TcpListener, TcpStream};
use std::os::fd::AsRawFd;
use zre_outside::{Desk, Failed, Faults, StdSource};
use zre_values::take_apart;

/// What a client of a [`TcpDesk`] sends.
pub type TcpClient = Ringing<Heeding<StdSource<TcpStream>>>;

/// A TCP listener as a desk. Each connection is a client. It tells nothing of what it gave.
pub struct TcpDesk<R> {
    rt: R,
    alloc: Global,
    listener: Option<TcpListener>,
    // How many clients more it gives.
    room: u64,
    ringer: Ringer,
    alarm: Alarm,
    faults: Faults,
}

impl<R: Drop> Drop for TcpDesk<R> {
    fn drop(self) {
        take_apart!(self, TcpDesk: rt, alloc, listener, room, ringer, alarm, faults);
    }
}

impl<R> TcpDesk<R> {
    ghost use Rattle.zre_fabric.specs.TcpDesks.{tcp_faults_of, tcp_reason_of};

    /// A desk that isn't begun. It opens nothing. It gives at most so many clients: a further one is refused by the
    /// system, since nothing listens any more. Each client's source rings, and heeds the alarm.
    pub fn new(rt: R, alloc: Global, most: u64, ringer: Ringer, alarm: Alarm) -> Self
        ensures faults { tcp_faults_of result ≡ 0 }
        ensures reason { tcp_reason_of result ≡ None }
    {
        TcpDesk {
            rt,
            alloc,
            listener: None,
            room: most,
            ringer,
            alarm,
            faults: Faults::none(),
        }
    }

    /// Why the last call that failed did, as the system says it.
    pub fn reason(&self) -> Option<io::Error>
        ensures { result ≡ tcp_reason_of self.now }
    {
        self.faults.reason()
    }
}

// The next connection. One that was lost before it was taken is passed over. Where there is no descriptor for one it
// would wait on, so that this is an error.
fn accept(listener: &TcpListener) -> io::Result<TcpStream> {
    for _ in 0..u64::MAX {
        match listener.accept() {
            Ok((stream, _)) => return Ok(stream),
            Err(reason) => {
                if is_short(&reason) || !matches!(class_of(&reason), ErrorClass::Transient) {
                    return Err(reason);
                }
            }
        }
    }
    Err(io::Error::from(ErrorKind::ConnectionAborted))
}

impl<R: Net<Listener = TcpListener, Stream = TcpStream>> TcpDesk<R> {
    ghost use Rattle.zre_fabric.specs.TcpDesks.{tcp_faults_of};

    // The client of a connection. After the last one the listener is closed.
    fn admit(&mut self, stream: TcpStream) -> TcpClient
        ensures { tcp_faults_of self.new ≡ tcp_faults_of self.old }
    {
        self.room = self.room.saturating_sub(1);
        if self.room == 0 {
            self.listener = None;
        }
        let input = stream.as_raw_fd();
        let source = StdSource::new(stream);
        let heeding = Heeding::new(&self.rt, self.alloc, source, input, self.alarm.share());
        Ringing::new(heeding, self.ringer.share())
    }
}

impl<R: Net<Listener = TcpListener, Stream = TcpStream>> Desk for TcpDesk<R> {
    ghost use Rattle.zre_fabric.specs.TcpDesks.{tcp_told_of, tcp_faults_of, tcp_reason_of};

    type Client = TcpClient;

    ghost told = { tcp_told_of };

    ghost faults = { tcp_faults_of };

    /// Binds the address and the port. What was begun before is closed in any case.
    fn begin(&mut self, addr: [u8; 4], port: u16) -> Result<(), Failed>
        ensures told { OnOk result (tcp_told_of self.new ≡ option_map (with_begun addr port) (tcp_told_of self.old)) }
        ensures refused { OnErr result (tcp_told_of self.new ≡ tcp_told_of self.old) }
        ensures later { tcp_faults_of self.old ≤ tcp_faults_of self.new }
        ensures failed { OnErr result (Rose (tcp_faults_of self.old) (tcp_faults_of self.new)) }
        // The count rises where it failed, and nowhere else.
        ensures counted { tcp_faults_of self.new ≡ counted (is_err result) (tcp_faults_of self.old) }
        ensures reason { OnErr result (IsSome (tcp_reason_of self.new)) }
    {
        self.listener = None;
        match TcpListener::bind(&self.rt, address(addr, port)) {
            Ok(listener) => {
                self.listener = Some(listener);
                Ok(())
            }
            Err(reason) => {
                self.faults.raise(reason);
                Err(Failed)
            }
        }
    }

    /// Waits for a connection. It fails where the desk isn't begun, or has given all of its clients, and where the
    /// system has no descriptor for one.
    fn next(&mut self) -> Result<TcpClient, Failed>
        ensures told { IfOk result (λ c. tcp_told_of self.new ≡ option_map (with_given c) (tcp_told_of self.old)) }
        ensures refused { OnErr result (tcp_told_of self.new ≡ tcp_told_of self.old) }
        ensures later { tcp_faults_of self.old ≤ tcp_faults_of self.new }
        ensures failed { OnErr result (Rose (tcp_faults_of self.old) (tcp_faults_of self.new)) }
        // The count rises where it failed, and nowhere else.
        ensures counted { tcp_faults_of self.new ≡ counted (is_err result) (tcp_faults_of self.old) }
        ensures reason { OnErr result (IsSome (tcp_reason_of self.new)) }
    {
        let Some(listener) = &self.listener else {
            self.faults.raise(io::Error::from(ErrorKind::NotConnected));
            return Err(Failed);
        };
        match accept(listener) {
            Ok(stream) => Ok(self.admit(stream)),
            Err(reason) => {
                self.faults.raise(reason);
                Err(Failed)
            }
        }
    }
}
