//! The buffers that every read goes through.

ghost use Rattle.std.specs.Prelude.{◌≡◌, ◌≤◌, length, vec_len, IfOk};

use mio::net::{TcpStream, UdpSocket};
use std::alloc::Global;
use std::io::{self, ErrorKind, Read};
use std::net::SocketAddr;
use zre_values::{Octets, OutOfMemory};

/// As many octets as one read of a stream takes at most.
const PIECE: usize = 16384;

/// As many octets as one read of datagrams takes at most. A datagram of UDP over IPv4 has fewer.
const ROOM: usize = 65536;

#[derive(Drop)]
pub(crate) struct ReadBuffer {
    octets: Vec<u8>,
    piece: Vec<u8>,
    alloc: Global,
    ghost size: { vec_len octets ≡ 65536 },
    ghost piece_size: { vec_len piece ≡ 16384 },
}

/// What a read of a stream gave.
#[derive(Drop)]
pub(crate) enum StreamRead {
    Octets(Octets),
    /// The peer sends no more, or the connection broke.
    End,
    /// Nothing is there now.
    Nothing,
}

impl ReadBuffer {
    ghost use Rattle.zre_fabric.specs.Pieces.{HeardIsShort};

    pub(crate) fn new(alloc: Global) -> Result<Self, OutOfMemory> {
        Ok(ReadBuffer {
            octets: Vec::from_elem(alloc, 0u8, ROOM)?,
            piece: Vec::from_elem(alloc, 0u8, PIECE)?,
            alloc,
        })
    }

    pub(crate) fn read(&mut self, stream: &mut TcpStream) -> Result<StreamRead, OutOfMemory>
        ensures { IfOk result (λ heard. HeardIsShort heard) }
    {
        match stream.read(&mut self.piece) {
            Ok(0) => Ok(StreamRead::End),
            Ok(n) => Ok(StreamRead::Octets(Octets::copy(self.alloc, &self.piece[..n])?)),
            Err(e) if e.kind() == ErrorKind::WouldBlock => Ok(StreamRead::Nothing),
            Err(_) => Ok(StreamRead::End),
        }
    }

    /// The next datagram and where it came from.
    pub(crate) fn receive(
        &mut self,
        socket: &UdpSocket,
    ) -> Result<io::Result<(Octets, SocketAddr)>, OutOfMemory>
        ensures { IfOk result (λ datagram. IfOk datagram (λ d. length d.0 ≤ 65536)) }
    {
        match socket.recv_from(&mut self.octets) {
            Ok((n, from)) => Ok(Ok((Octets::copy(self.alloc, &self.octets[..n])?, from))),
            Err(e) => Ok(Err(e)),
        }
    }
}
