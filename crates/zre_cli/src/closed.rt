//! The three descriptors that a program is given. Where one is closed at the start, nothing else may take its place: to
//! read standard input or to write standard output is a fault then.

use std::fs::{File, OpenOptions};
use std::io;
use std::os::fd::{AsRawFd, RawFd};
use std::rt::Files;

/// What is opened for writing can't be read, and what is opened for reading can't be written.
const NOWHERE: &str = "/dev/null";

/// What has the place of those that are closed.
#[derive(Drop)]
pub(crate) struct Held {
    input: Option<File>,
    output: Option<File>,
    error: Option<File>,
}

/// Takes the places of those that are closed, where the system allows it.
pub(crate) fn hold_closed<R: Files<File = File>>(rt: &R) -> Held {
    Held {
        input: kept(OpenOptions::new().write(true).open(rt, NOWHERE), 0),
        output: kept(OpenOptions::new().read(true).open(rt, NOWHERE), 2),
        error: kept(OpenOptions::new().read(true).open(rt, NOWHERE), 2),
    }
}

// A file that has such a descriptor. The system gives the least that is free.
fn kept(file: io::Result<File>, last: RawFd) -> Option<File> {
    match file {
        Ok(file) if file.as_raw_fd() <= last => Some(file),
        _ => None,
    }
}
