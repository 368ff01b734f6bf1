//! A recorder whose files nobody else reads.

use std::fs::OpenOptions;
use std::os::unix::fs::OpenOptionsExt;
use std::rt::Files;
use zre_fabric::{Observed, Observer};

/// Whoever made a file reads and writes it.
const OWNER: u32 = 0o600;

/// Makes the file of a recorder for its owner alone before the recorder begins. The mode of one that is there stays.
#[derive(Drop)]
pub(crate) struct FileMaker<R> {
    rt: R,
}

impl<R> FileMaker<R> {
    pub(crate) fn new(rt: R) -> Self {
        FileMaker { rt }
    }
}

impl<R: Files> Observer for FileMaker<R> {
    fn begins(&mut self, name: &str) {
        let made = OpenOptions::new()
            .write(true)
            .create_new(true)
            .mode(OWNER)
            .open(&self.rt, name);
        drop(made);
    }
}

/// A recorder into files that nobody else reads.
pub(crate) type Private<T, R> = Observed<T, FileMaker<R>>;
