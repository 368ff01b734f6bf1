//! A node, entry by entry, and what it is asked between them.

use crate::acts::push_act;
use crate::error::RowError;
use crate::journal::entries_of;
use crate::subject::{Subject, steps};
use crate::text::Text;
use crate::words::Words;
use std::alloc::Global;
use zre_app::{Command, Plain, command_of};
use zre_journal::Config;
use zre_node::{Node, Step};
use zre_outside::Entry;
use zre_peer::View;
use zre_values::{Frames, OutOfMemory, take_apart};

/// `on node id=.. host=.. port=..` and further words of a node, as quoted texts: a node, and the lines of the acts of
/// its last step.
pub struct NodeSubject {
    node: Node,
    acts: Text,
}

impl Drop for NodeSubject {
    fn drop(self) {
        take_apart!(self, NodeSubject: node, acts);
    }
}

// The settings of the words of a node.
fn config_of(alloc: Global, words: &Frames) -> Result<Option<Config>, OutOfMemory> {
    match command_of(alloc, words) {
        Ok(Some(Command::Plain(Plain::Replay { config }))) => Ok(Some(config)),
        Ok(_) => Ok(None),
        Err(OutOfMemory) => Err(OutOfMemory),
    }
}

fn node_of(alloc: Global, words: &Frames, answer: &mut Text) -> Option<Node> {
    match config_of(alloc, words) {
        Ok(Some(config)) => make_node(alloc, config, answer),
        Ok(None) => answer.refuse(RowError::BadArgument),
        Err(OutOfMemory) => answer.refuse(RowError::OutOfMemory),
    }
}

fn make_node(alloc: Global, config: Config, answer: &mut Text) -> Option<Node> {
    if !config.valid() {
        return answer.refuse(RowError::BadArgument);
    }
    match Node::new(alloc, config) {
        Ok(node) => Some(node),
        Err(_) => answer.refuse(RowError::OutOfMemory),
    }
}

// What comes of an entry. None where memory runs out.
fn next(node: &mut Node, entry: Entry) -> Option<Step> {
    node.step(entry).ok()
}

impl Subject for NodeSubject {
    fn step(&mut self, words: &mut Words<'_>, answer: &mut Text) {
        steps!(self, words, answer; entry, acts, peer, groups, link_of, unsent, front, peers, known, held, stopped)
    }
}

impl NodeSubject {
    pub fn make(words: &mut Words<'_>, answer: &mut Text) -> Option<Self> {
        let alloc = words.alloc();
        let mut list = Frames::new(alloc);
        answer.copy_to(alloc, &mut list, b"replay");
        words.push_texts(&mut list);
        let node = node_of(alloc, &list, answer)?;
        Some(NodeSubject {
            node,
            acts: Text::new(alloc),
        })
    }

    // `entry LINE`, a line of a capture: what it tells.
    fn entry(&mut self, words: &mut Words<'_>, answer: &mut Text) {
        for entry in entries_of(words.alloc(), words.take_rest(), answer).into_vec() {
            match next(&mut self.node, entry) {
                Some(step) => push_step(step, answer, &mut self.acts),
                None => answer.fail(RowError::OutOfMemory),
            }
        }
    }

    // `acts` answers the acts of the last one.
    fn acts(&self, _words: &mut Words<'_>, answer: &mut Text) {
        answer.add(&self.acts);
    }

    // `peer ID`: the view. `groups ID`: how many groups it has. `link_of ID`: the number of the link. Each is `none`
    // where there is none.
    fn peer(&self, words: &mut Words<'_>, answer: &mut Text) {
        push_view(answer, self.node.peer(words.id()));
    }

    fn groups(&self, words: &mut Words<'_>, answer: &mut Text) {
        answer.number_line(groups_of(self.node.peer(words.id())));
    }

    fn link_of(&self, words: &mut Words<'_>, answer: &mut Text) {
        answer.number_line(self.node.link_of(words.id()));
    }

    // `unsent LINK` and `front LINK`: how many octets wait, and those that may go out.
    fn unsent(&self, words: &mut Words<'_>, answer: &mut Text) {
        answer.number_line(self.node.unsent(words.number()));
    }

    fn front(&self, words: &mut Words<'_>, answer: &mut Text) {
        push_front(answer, self.node.front(words.number()));
    }

    // `peers`: the entered peers, a line for each.
    fn peers(&self, _words: &mut Words<'_>, answer: &mut Text) {
        if let Some(peers) = answer.made(self.node.peers()) {
            for id in peers.as_slice() {
                answer.line(&id.write());
            }
        }
    }

    // `known`, `held`: how many peers and octets. `stopped`: whether it has.
    fn known(&self, _words: &mut Words<'_>, answer: &mut Text) {
        answer.number_line(Some(self.node.known() as u64));
    }

    fn held(&self, _words: &mut Words<'_>, answer: &mut Text) {
        answer.number_line(Some(self.node.held()));
    }

    fn stopped(&self, _words: &mut Words<'_>, answer: &mut Text) {
        answer.line(if self.node.stopped() { b"yes" } else { b"no" });
    }
}

fn push_step(step: Step, answer: &mut Text, acts: &mut Text) {
    answer.events(step.events.as_slice());
    acts.clear();
    for act in step.acts.as_slice() {
        push_act(acts, act);
    }
}

fn groups_of(view: Option<&View>) -> Option<u64> {
    match view {
        Some(view) => Some(view.groups_len() as u64),
        None => None,
    }
}

// `LENGTH HEX`, or `none`.
fn push_front(out: &mut Text, front: Option<&[u8]>) {
    match front {
        Some(octets) => {
            out.number(octets.len() as u64);
            out.octet(b' ');
            out.hex_line(octets);
        }
        None => out.line(b"none"),
    }
}

// `NAME ENDPOINT STATUS GROUPS HEADERS` as in the lines of events, or `none`.
fn push_view(out: &mut Text, view: Option<&View>) {
    match view {
        Some(view) => push_known(out, view),
        None => out.line(b"none"),
    }
}

fn push_known(out: &mut Text, view: &View) {
    out.quoted(view.name());
    out.octet(b' ');
    out.quoted(view.endpoint());
    out.count(b"", u64::from(view.status()));
    out.octet(b' ');
    push_groups(out, view);
    out.octet(b' ');
    push_headers(out, view);
    out.end();
}

// What stands before the member at this place of a list.
fn push_comma(out: &mut Text, i: usize) {
    if i > 0 {
        out.octet(b',');
    }
}

fn push_groups(out: &mut Text, view: &View) {
    if view.groups_len() == 0 {
        out.octet(b'%');
    }
    for i in 0..view.groups_len() {
        push_comma(out, i);
        out.quoted(view.group(i));
    }
}

fn push_headers(out: &mut Text, view: &View) {
    if view.headers_len() == 0 {
        out.octet(b'%');
    }
    for i in 0..view.headers_len() {
        push_comma(out, i);
        let (name, value) = view.header(i);
        out.quoted(name);
        out.octet(b'=');
        out.quoted(value);
    }
}
