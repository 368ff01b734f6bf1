//! The entries of the exercise.

use crate::error::RowError;
use crate::subject::{Subject, steps};
use crate::text::Text;
use crate::words::Words;
use zre_capture::Exercise;

/// `on exercise SEED PEERS MESSAGES`: an exercise whose entries are given one by one.
#[derive(Drop)]
pub struct ExerciseSubject {
    exercise: Exercise,
}

impl Subject for ExerciseSubject {
    fn step(&mut self, words: &mut Words<'_>, answer: &mut Text) {
        steps!(self, words, answer; next)
    }
}

impl ExerciseSubject {
    pub fn make(words: &mut Words<'_>, answer: &mut Text) -> Option<Self> {
        let seed = words.number();
        let peers = words.number();
        let messages = words.number();
        if peers < 1 || peers > 256 || messages > 1000000 {
            answer.refuse(RowError::BadArgument)
        } else {
            let exercise = Exercise::new(words.alloc(), seed, peers as u16, messages as u32);
            Some(ExerciseSubject { exercise })
        }
    }

    // `next` answers the line of the next entry in a capture, or `none`.
    fn next(&mut self, _words: &mut Words<'_>, answer: &mut Text) {
        match answer.made(self.exercise.next()) {
            Some(Some(entry)) => answer.entry(&entry),
            Some(None) => answer.line(b"none"),
            None => {}
        }
    }
}
