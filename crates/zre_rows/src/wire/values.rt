//! Numbers, identities, addresses and endpoints in their texts.

use crate::subject::{Subject, steps};
use crate::text::Text;
use crate::words::Words;
use std::alloc::Global;
use std::str;
use zre_values::{Endpoint, PeerId, read_address, read_decimal};

// The octets, and their text.
fn push_id(answer: &mut Text, found: Option<PeerId>) {
    match found {
        Some(id) => {
            answer.hex(&id.0);
            answer.octet(b' ');
            answer.id(id);
        }
        None => answer.put(b"none"),
    }
    answer.end();
}

fn push_addr(answer: &mut Text, found: Option<[u8; 4]>) {
    match found {
        Some(addr) => {
            answer.hex(&addr);
            answer.octet(b' ');
            answer.address(addr);
        }
        None => answer.put(b"none"),
    }
    answer.end();
}

// The octets of the address, the port, and the text.
fn push_endpoint(alloc: Global, answer: &mut Text, text: &[u8]) {
    match Endpoint::read(text) {
        Some(endpoint) => {
            answer.hex(&endpoint.addr);
            answer.octet(b' ');
            answer.number(u64::from(endpoint.port));
            answer.octet(b' ');
            if let Some(text) = answer.made(endpoint.write(alloc)) {
                answer.put(text.as_slice());
            }
        }
        None => answer.put(b"none"),
    }
    answer.end();
}

fn id_of(text: &[u8]) -> Option<PeerId> {
    match str::from_utf8(text) {
        Ok(text) => PeerId::read(text),
        Err(_) => None,
    }
}

/// `on values`: each step takes a quoted text, and answers what it says, or `none`.
#[derive(Drop)]
pub struct ValueSubject;

impl Subject for ValueSubject {
    fn step(&mut self, words: &mut Words<'_>, answer: &mut Text) {
        steps!(self, words, answer; number, id, plain, address, endpoint)
    }
}

impl ValueSubject {
    fn number(&self, words: &mut Words<'_>, answer: &mut Text) {
        answer.number_line(read_decimal(words.text().as_slice()));
    }

    fn id(&self, words: &mut Words<'_>, answer: &mut Text) {
        push_id(answer, id_of(words.text().as_slice()));
    }

    fn plain(&self, words: &mut Words<'_>, answer: &mut Text) {
        push_id(answer, PeerId::read_plain(words.text().as_slice()));
    }

    fn address(&self, words: &mut Words<'_>, answer: &mut Text) {
        push_addr(answer, read_address(words.text().as_slice()));
    }

    fn endpoint(&self, words: &mut Words<'_>, answer: &mut Text) {
        push_endpoint(words.alloc(), answer, words.text().as_slice());
    }
}
