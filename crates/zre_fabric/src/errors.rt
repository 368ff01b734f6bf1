//! What an error of the two sockets means that the whole node stands on, the listener and the one for beacons.

ghost use Rattle.std.specs.Prelude.{◌≡◌, is_ok, IfOk, IfErr, Err};
ghost use Rattle.std.specs.IoError.{error_kind, raw_os_error};
ghost use Rattle.zre_fabric.specs.ErrorClasses.{class_by, is_passing_number, is_short_by};

use std::io::{self, ErrorKind};

/// What an error of the listener or of the UDP socket means for that socket.
#[derive(Clone, Copy)]
pub enum ErrorClass {
    /// Nothing is there now.
    NotReady,
    /// One connection or one datagram is lost, or the system is short of something; the socket stands.
    Transient,
    /// The socket is of no more use.
    Fatal,
}

// Numbers of Linux that std has no kind for.
const ENFILE: i32 = 23;

const EMFILE: i32 = 24;

const ENONET: i32 = 64;

const EPROTO: i32 = 71;

const ENOPROTOOPT: i32 = 92;

const EOPNOTSUPP: i32 = 95;

const ENOBUFS: i32 = 105;

const EHOSTDOWN: i32 = 112;

/// What an `accept` or a receive that failed says of its socket.
///
/// Linux hands errors of the network that wait on a new connection to `accept` (accept(2) lists them), and errors that
/// ICMP messages bring about, as of a port that nobody listens on, to the next receive. Both concern one peer. A
/// firewall refuses a connection by `EPERM`. Where the process or the system has no descriptor or no buffer left, the
/// connection waits on, and is there at another try.
pub fn class_of(e: &io::Error) -> ErrorClass
    ensures { result ≡ class_by (error_kind e.now) (raw_os_error e.now) }
{
    match e.kind() {
        ErrorKind::WouldBlock => ErrorClass::NotReady,
        ErrorKind::Interrupted
        | ErrorKind::ConnectionAborted
        | ErrorKind::ConnectionRefused
        | ErrorKind::ConnectionReset
        | ErrorKind::TimedOut
        | ErrorKind::PermissionDenied
        | ErrorKind::NetworkDown
        | ErrorKind::NetworkUnreachable
        | ErrorKind::HostUnreachable
        | ErrorKind::OutOfMemory => ErrorClass::Transient,
        _ if is_transient(e.raw_os_error()) => ErrorClass::Transient,
        _ => ErrorClass::Fatal,
    }
}

fn is_transient(number: Option<i32>) -> bool
    ensures { result ≡ is_passing_number number }
{
    matches!(
        number,
        Some(ENFILE | EMFILE | ENONET | EPROTO | ENOPROTOOPT | EOPNOTSUPP | ENOBUFS | EHOSTDOWN)
    )
}

/// Whether the process, or the system, is short of what a socket needs: descriptors, buffers or memory.
pub(crate) fn is_short(e: &io::Error) -> bool
    ensures { result ≡ is_short_by (error_kind e.now) (raw_os_error e.now) }
{
    e.kind() == ErrorKind::OutOfMemory
        || matches!(e.raw_os_error(), Some(ENFILE | EMFILE | ENOBUFS))
}

/// What was made, where the rest of its making did not fail.
pub(crate) fn once_ready<T: Drop>(made: T, rest: io::Result<()>) -> io::Result<T>
    ensures ok { is_ok result ≡ is_ok rest }
    ensures made { IfOk result (λ ready. ready ≡ made) }
    ensures error { IfErr result (λ error. rest ≡ Err error) }
{
    match rest {
        Ok(()) => Ok(made),
        Err(error) => {
            drop(made);
            Err(error)
        }
    }
}
