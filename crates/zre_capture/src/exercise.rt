//! The journal of the exercise, entry by entry.

ghost use Rattle.std.specs.Prelude.{◌≡◌, ◌≢◌, ◌≤◌, ◌+◌, ◌%◌, ◌∷◌, length, IfOk, OnErr, MatchOption};
ghost use Rattle.zre_capture.specs.declared.stage.ExerciseStage.TheVariants.{Messages};

use crate::draws::{MOST_OCTETS, drawn, upper_half};
use crate::introduction::{heard, introduced, opened};
use crate::stage::ExerciseStage;
use crate::talk::{cut_by, spell};
use std::alloc::Global;
use zre_outside::{Command, Entry, Input};
use zre_values::{FewOctets, Octets, OutOfMemory};

/// A generator of a large journal from a number: peers come and introduce themselves, and their messages come in turn.
/// It keeps one message, and no list of the entries.
#[derive(Drop)]
pub struct Exercise {
    alloc: Global,
    /// Where the draws stand.
    x: u64,
    stage: ExerciseStage,
    peers: u16,
    messages: u32,
    /// The number of the next message.
    message: u32,
    /// The octets of the message that was spelled last.
    spelled: FewOctets<MOST_OCTETS>,
    /// How many of them come in the first piece.
    cut: usize,
    ghost some: { 1 ≤ peers },
    ghost few: { peers ≤ 256 },
    ghost within: { cut ≤ length spelled },
}

impl Exercise {
    ghost use Rattle.zre_capture.specs.Exercise.{exercise, comes, quits};
    ghost use Rattle.zre_capture.specs.Left.{left, left_at, after_peer, first_of, second_of, Gives};

    /// The exercise before its first entry.
    pub fn new(alloc: Global, seed: u64, peers: u16, messages: u32) -> Self
        // The bounds of an exercise.
        requires some { 1 ≤ peers }
        requires few { peers ≤ 256 }
        requires short { messages ≤ 1000000 }
        // What is made.
        ensures { left result ≡ exercise seed peers messages }
    {
        Exercise {
            alloc,
            x: seed,
            stage: ExerciseStage::Beacon(0),
            peers,
            messages,
            message: 0,
            spelled: FewOctets::new(),
            cut: 0,
        }
    }

    // The stage after a peer.
    fn after(&self, peer: u8) -> ExerciseStage
        ensures { left_at result self.now ≡ after_peer peer self.now }
    {
        if (peer as u16) + 1 < self.peers {
            ExerciseStage::Beacon(peer + 1)
        } else {
            ExerciseStage::Messages
        }
    }

    /// The next message, whose two pieces are the next entries: its number, which is the reading of the clock too.
    /// None where another entry comes next, and then [`Exercise::next`] gives it. The pieces lie in the generator until
    /// the next message.
    #[inline(always)]
    pub fn next_message(&mut self) -> Option<u32>
        ensures given { MatchOption result (self.new ≡ self.old)
            (λ j. left self.old ≡ comes self.new.peers j (first_of self.new)
            ∷ comes self.new.peers j (second_of self.new) ∷ left self.new) }
        ensures stage { MatchOption result (self.old.stage ≡ Messages → self.old.messages ≤ self.old.message)
            (λ j. self.new.stage ≡ Messages) }
    {
        let ExerciseStage::Messages = self.stage else {
            return None;
        };
        if self.message >= self.messages {
            return None;
        }
        let message = self.message;
        let after = spell(&mut self.spelled, message / self.peers as u32, self.x);
        self.x = drawn(after);
        self.cut = cut_by(upper_half(self.x), self.spelled.len());
        self.message = message + 1;
        Some(message)
    }

    /// The connection of a message.
    #[inline(always)]
    pub fn conn_of(&self, message: u32) -> u64
        ensures { result ≡ message % self.now.peers + 1 }
    {
        (message % self.peers as u32) as u64 + 1
    }

    /// The first piece of the message that was spelled last.
    #[inline(always)]
    pub fn first(&self) -> &[u8]
        ensures { result.now ≡ first_of self.now }
    {
        let (first, _) = self.spelled.as_slice().split_at(self.cut);
        first
    }

    /// The second piece of the message that was spelled last.
    #[inline(always)]
    pub fn second(&self) -> &[u8]
        ensures { result.now ≡ second_of self.now }
    {
        let (_, second) = self.spelled.as_slice().split_at(self.cut);
        second
    }

    // A copy of a piece of a message.
    fn comes(&self, message: u32, bytes: &[u8]) -> Result<Entry, OutOfMemory>
        ensures { IfOk result (λ entry. entry ≡ comes self.now.peers message bytes.now) }
    {
        Ok(Entry {
            at: message as u64,
            input: Input::Piece {
                conn: self.conn_of(message),
                bytes: Octets::copy(self.alloc, bytes)?,
            },
        })
    }

    // The last entry.
    fn quits(&self) -> Entry
        ensures { result ≡ quits self.now.message }
    {
        Entry {
            at: self.message as u64,
            input: Input::Do(Command::Quit),
        }
    }

    // Where a message comes next, it is spelled.
    fn begin(&mut self)
        ensures same { left self.new ≡ left self.old }
        ensures end { self.new.stage ≡ Messages → self.new.messages ≤ self.new.message }
    {
        if let Some(message) = self.next_message() {
            self.stage = ExerciseStage::First(message);
        }
    }

    /// The next entry, or None where all were given. After an error the same entry is still to come.
    pub fn next(&mut self) -> Result<Option<Entry>, OutOfMemory>
        ensures given { IfOk result (λ given. Gives given (left self.old) (left self.new)) }
        ensures err { OnErr result (left self.new ≡ left self.old) }
    {
        self.begin();
        let entry = match self.stage {
            ExerciseStage::Beacon(peer) => {
                let entry = heard(self.alloc, peer)?;
                self.stage = ExerciseStage::Opened(peer);
                entry
            }
            ExerciseStage::Opened(peer) => {
                self.stage = ExerciseStage::Introduction(peer);
                opened(peer)
            }
            ExerciseStage::Introduction(peer) => {
                let entry = introduced(self.alloc, peer)?;
                self.stage = self.after(peer);
                entry
            }
            ExerciseStage::Messages => {
                self.stage = ExerciseStage::Done;
                self.quits()
            }
            ExerciseStage::First(message) => {
                let entry = self.comes(message, self.first())?;
                self.stage = ExerciseStage::Second(message);
                entry
            }
            ExerciseStage::Second(message) => {
                let entry = self.comes(message, self.second())?;
                self.stage = ExerciseStage::Messages;
                entry
            }
            ExerciseStage::Done => return Ok(None),
        };
        Ok(Some(entry))
    }
}
