ghost use Rattle.std.specs.Prelude.{◌≡◌, false, Some, IfOk};
ghost use Rattle.zre_fabric.specs.Origins.{IsOfConn};
ghost use Rattle.zre_fabric.specs.Pieces.{StepIsShort};

use crate::polled::Polled;
use crate::read_buffer::{ReadBuffer, StreamRead};
use mio::net::TcpStream;
use std::io::Write;
use zre_outside::Input;
use zre_values::OutOfMemory;

/// A connection that another node opened. It has no stream any more where an answer broke it.
#[derive(Drop)]
pub(crate) struct TcpConn {
    stream: Option<TcpStream>,
    pub(crate) is_queued: bool,
    /// The address that it came from.
    pub(crate) addr: [u8; 4],
    /// The octets that were read since a read found nothing.
    pub(crate) used: u64,
}

impl TcpConn {
    pub(crate) fn new(stream: TcpStream, addr: [u8; 4]) -> Self
        ensures stream { result.stream ≡ Some stream }
        ensures addr { result.addr ≡ addr }
        ensures idle { (result.is_queued ≡ false) × (result.used ≡ 0) }
    {
        TcpConn {
            stream: Some(stream),
            is_queued: false,
            addr,
            used: 0,
        }
    }

    /// Writes an answer. One that the socket doesn't take whole closes the connection, since answers are few and small,
    /// and a peer that leaves them unread for long is none. The result says whether it was closed.
    pub(crate) fn answer(&mut self, bytes: &[u8]) -> bool {
        let Some(stream) = &mut self.stream else {
            return false;
        };
        let is_whole = match stream.write(bytes) {
            Ok(n) => n == bytes.len(),
            Err(_) => false,
        };
        if !is_whole {
            self.stream = None;
        }
        !is_whole
    }

    pub(crate) fn step(&mut self, conn: u64, buffer: &mut ReadBuffer) -> Result<Polled, OutOfMemory>
        ensures short { IfOk result (λ step. StepIsShort step) }
        ensures own { IfOk result (λ step. IsOfConn conn step) }
    {
        let Some(stream) = &mut self.stream else {
            return Ok(Polled::Last(Input::Shut { conn }));
        };
        match buffer.read(stream)? {
            StreamRead::Octets(bytes) => Ok(Polled::More(Input::Piece { conn, bytes })),
            StreamRead::End => Ok(Polled::Last(Input::Shut { conn })),
            StreamRead::Nothing => Ok(Polled::Rest),
        }
    }
}
