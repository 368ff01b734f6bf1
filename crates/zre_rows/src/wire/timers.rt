//! When keys were last heard of.

ghost use Rattle.zre_timers.specs.Moments.{NoneAfter};

use crate::error::RowError;
use crate::subject::{Subject, steps};
use crate::text::Text;
use crate::wire::texts::push_keys;
use crate::words::Words;
use std::alloc::Global;
use zre_timers::{Due, Timers};
use zre_values::OutOfMemory;

/// A key whose moment is set, or which is taken out where none is given.
#[derive(Clone, Copy)]
pub struct Touch {
    key: u64,
    at: Option<u64>,
}

/// `on timers`: what was done to the keys so far.
#[derive(Drop)]
pub struct TimerSubject {
    /// Each touch and each key that was taken out, in order.
    pub touches: Vec<Touch>,
}

fn change(timers: &mut Timers, now: u64, touch: Touch, answer: &mut Text)
    requires { NoneAfter now timers.old }
    ensures { NoneAfter now timers.new }
{
    let Some(at) = touch.at else {
        timers.forget(touch.key);
        return;
    };
    if at > now {
        answer.fail(RowError::BadArgument);
        return;
    }
    let Ok(()) = timers.touch(touch.key, at) else {
        answer.fail(RowError::OutOfMemory);
        return;
    };
}

// The timers after these, none of them after `now`.
fn changed(alloc: Global, touches: &[Touch], now: u64, answer: &mut Text) -> Timers
    ensures { NoneAfter now result }
{
    let mut timers = Timers::new(alloc);
    for touch in touches {
        change(&mut timers, now, *touch, answer);
    }
    timers
}

fn push_due(answer: &mut Text, due: Result<Due, OutOfMemory>) {
    if let Some(Due { expired, evasive }) = answer.made(due) {
        answer.put(b"expired");
        push_keys(answer, &expired);
        answer.put(b"evasive");
        push_keys(answer, &evasive);
    }
}

impl Subject for TimerSubject {
    fn step(&mut self, words: &mut Words<'_>, answer: &mut Text) {
        steps!(self, words, answer; touch, forget, moment, due)
    }
}

impl TimerSubject {
    fn push(&mut self, touch: Touch, answer: &mut Text) {
        if self.touches.push(touch).is_err() {
            answer.fail(RowError::OutOfMemory);
        }
    }

    // `touch KEY AT`
    fn touch(&mut self, words: &mut Words<'_>, answer: &mut Text) {
        let key = words.number();
        let at = Some(words.number());
        self.push(Touch { key, at }, answer);
    }

    // `forget KEY`
    fn forget(&mut self, words: &mut Words<'_>, answer: &mut Text) {
        let key = words.number();
        self.push(Touch { key, at: None }, answer);
    }

    // `moment KEY` answers when it was last heard of, or `none`.
    fn moment(&self, words: &mut Words<'_>, answer: &mut Text) {
        let key = words.number();
        let timers = changed(words.alloc(), self.touches.as_slice(), u64::MAX, answer);
        answer.number_line(timers.moment(key));
    }

    // `due NOW EVASIVE EXPIRED` answers the two lists.
    fn due(&self, words: &mut Words<'_>, answer: &mut Text) {
        let now = words.number();
        let evasive = words.number();
        let expired = words.number();
        if evasive > expired {
            answer.fail(RowError::BadArgument);
        } else {
            let timers = changed(words.alloc(), self.touches.as_slice(), now, answer);
            push_due(answer, timers.due(now, evasive, expired));
        }
    }
}
