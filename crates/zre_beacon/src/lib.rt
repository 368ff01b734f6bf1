//! The beacon: the datagram by which a node of RFC 36 shows that it is there, and where its mailbox is.
#![tactic(auto)]

ghost use Rattle.std.specs.Prelude.{◌≡◌, ℕ, IfSome, Some, option_map};
ghost use Rattle.zre_beacon.specs.Beacon.{IsBeacon, beacon_in};
ghost use Rattle.zre_values.specs.declared.peer_id.PeerId.{PeerId};

use zre_values::PeerId;

// The protocol's name and the version of the beacon.
const HEAD: [u8; 4] = [b'Z', b'R', b'E', 1];

/// What a beacon says: who sends it, and the port of its mailbox.
#[derive(Clone, Copy, Debug, PartialEq, Eq)]
pub struct Beacon {
    /// The identity of the node.
    pub id: PeerId,
    /// The TCP port. At 0 the node is leaving.
    pub port: u16,
}

impl Beacon {
    /// Reads a datagram. Only what `write` gives is a beacon.
    pub fn read(bytes: &[u8]) -> Option<Beacon>
        ensures sound { IfSome result (λ beacon. IsBeacon bytes.now beacon.id beacon.port) }
        ensures read { option_map (λ beacon. (beacon.id, beacon.port)) result ≡ beacon_in bytes.now }
        ensures complete { (id : PeerId) (port : ℕ) → IsBeacon bytes.now id port
            → result ≡ Some (record { id = id; port = port }) }
    {
        let (head, rest) = bytes.split_first_chunk::<4>()?;
        let (id, port) = rest.split_first_chunk::<16>()?;
        let Ok(port) = <[u8; 2]>::try_from(port) else {
            return None;
        };
        if *head != HEAD {
            return None;
        }
        Some(Beacon {
            id: PeerId(*id),
            port: u16::from_be_bytes(port),
        })
    }

    /// The datagram.
    pub fn write(&self) -> [u8; 22]
        ensures { IsBeacon result self.now.id self.now.port }
    {
        let Beacon { id, port } = *self;
        let mut octets = [0u8; 22];
        octets[..4].copy_from_slice(&HEAD);
        octets[4..20].copy_from_slice(&id.0);
        octets[20..].copy_from_slice(&port.to_be_bytes());
        octets
    }
}
