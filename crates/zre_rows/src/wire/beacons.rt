//! Beacons.

use crate::subject::{Subject, steps};
use crate::text::Text;
use crate::words::Words;
use zre_beacon::Beacon;

/// `on beacons`: datagrams, read and written.
#[derive(Drop)]
pub struct BeaconSubject;

impl Subject for BeaconSubject {
    fn step(&mut self, words: &mut Words<'_>, answer: &mut Text) {
        steps!(self, words, answer; read, write)
    }
}

impl BeaconSubject {
    // `read HEX` answers `ID PORT`, or `none`.
    fn read(&self, words: &mut Words<'_>, answer: &mut Text) {
        match Beacon::read(words.octets().as_slice()) {
            Some(Beacon { id, port }) => {
                answer.id(id);
                answer.octet(b' ');
                answer.number(u64::from(port));
            }
            None => answer.put(b"none"),
        }
        answer.end();
    }

    // `write ID PORT` answers the octets.
    fn write(&self, words: &mut Words<'_>, answer: &mut Text) {
        let id = words.id();
        let port = words.port();
        answer.hex_line(&Beacon { id, port }.write());
    }
}
