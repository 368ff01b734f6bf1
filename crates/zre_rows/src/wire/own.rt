//! The groups that a node is in.

use crate::error::RowError;
use crate::subject::{Subject, steps};
use crate::text::Text;
use crate::words::Words;
use zre_group::{JoinFault, NoGroup, Own};

/// `on own`: the groups, from none on.
#[derive(Drop)]
pub struct OwnGroupSubject {
    /// The groups that were joined and not left.
    pub own: Own,
}

fn push_joined(answer: &mut Text, joined: Result<u8, JoinFault>) {
    match joined {
        Ok(status) => answer.number(u64::from(status)),
        Err(JoinFault::Same) => answer.put(b"same"),
        Err(JoinFault::Limit) => answer.put(b"limit"),
        Err(JoinFault::OutOfMemory) => answer.fail(RowError::OutOfMemory),
    }
    answer.end();
}

fn push_left(answer: &mut Text, left: Result<u8, NoGroup>) {
    match left {
        Ok(status) => answer.number(u64::from(status)),
        Err(NoGroup) => answer.put(b"none"),
    }
    answer.end();
}

impl Subject for OwnGroupSubject {
    fn step(&mut self, words: &mut Words<'_>, answer: &mut Text) {
        steps!(self, words, answer; join, leave, list)
    }
}

impl OwnGroupSubject {
    // `join HEX` answers the status, `same` or `limit`.
    fn join(&mut self, words: &mut Words<'_>, answer: &mut Text) {
        let group = words.octets();
        if group.len() > 255 {
            answer.fail(RowError::BadArgument);
        } else {
            push_joined(answer, self.own.join(group.as_slice()));
        }
    }

    // `leave HEX` answers the status, or `none`.
    fn leave(&mut self, words: &mut Words<'_>, answer: &mut Text) {
        push_left(answer, self.own.leave(words.octets().as_slice()));
    }

    // `list` answers the groups, a line each, and then their number and the status.
    fn list(&self, _words: &mut Words<'_>, answer: &mut Text) {
        for i in 0..self.own.len() {
            answer.quoted(self.own.get(i));
            answer.end();
        }
        answer.count(b"groups", self.own.len() as u64);
        answer.count(b", status", u64::from(self.own.status()));
        answer.end();
    }
}
