use zre_values::{List, take_apart};

/// A list of addresses of IPv4.
pub type Addresses = List<[u8; 4]>;

/// How a node goes on the network: with a mailbox at an address and a port, and with beacons by UDP.
pub struct Start {
    /// The address of the mailbox.
    pub host: [u8; 4],
    /// The port of the mailbox.
    pub port: u16,
    /// The address at which beacons are heard.
    pub listen: [u8; 4],
    /// The port from and to which beacons are sent.
    pub beacon_port: u16,
    /// Where beacons are sent to.
    pub to: Addresses,
    /// The milliseconds from one beacon to the next.
    pub interval: u64,
}

impl Drop for Start {
    fn drop(self) {
        take_apart!(self, Start: host, port, listen, beacon_port, to, interval);
    }
}
