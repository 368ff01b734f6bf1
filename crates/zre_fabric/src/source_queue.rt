//! The sources that may have something to say.

ghost use Rattle.std.specs.Prelude.{◌≡◌, ◌++◌, ◌∷◌, [], ◌||◌, true, false, is_some, option_to_list, OnOk, OnErr};
ghost use Rattle.zre_fabric.specs.Queues.{has_some, is_lights, row_after, queue_of, other};

use crate::entry_source::EntrySource;
use crate::turns::Turns;
use std::alloc::Global;
use std::collections::VecDeque;
use zre_values::OutOfMemory;

/// How much a source has given since it last had nothing.
#[derive(Clone, Copy)]
pub(crate) enum Weight {
    Light,
    Heavy,
}

/// Two queues: of light sources and of heavy ones.
#[derive(Drop)]
pub(crate) struct SourceQueue {
    light: VecDeque<EntrySource>,
    heavy: VecDeque<EntrySource>,
    turns: Turns,
}

impl SourceQueue {
    pub(crate) fn new(alloc: Global) -> Self
        ensures { (result.light.items ≡ []) × (result.heavy.items ≡ []) }
    {
        SourceQueue {
            light: VecDeque::new(alloc),
            heavy: VecDeque::new(alloc),
            turns: Turns::default(),
        }
    }

    pub(crate) fn len(&self) -> usize {
        self.light.len().saturating_add(self.heavy.len())
    }

    pub(crate) fn has_light(&self) -> bool
        ensures { result ≡ has_some self.now.light.items }
    {
        !self.light.is_empty()
    }

    /// Room for one more light source.
    pub(crate) fn reserve(&mut self) -> Result<(), OutOfMemory>
        ensures { (self.new.light.items ≡ self.old.light.items) × (self.new.heavy ≡ self.old.heavy)
            × (self.new.turns ≡ self.old.turns) }
    {
        self.light.reserve(1)?;
        Ok(())
    }

    /// A source takes the last place of its queue.
    pub(crate) fn push(&mut self, source: EntrySource, weight: Weight) -> Result<(), OutOfMemory>
        ensures ok { OnOk result ((queue_of weight self.new).items ≡ (queue_of weight self.old).items ++ source ∷ []) }
        ensures err { OnErr result ((queue_of weight self.new).items ≡ (queue_of weight self.old).items) }
        ensures unchanged { (queue_of (other weight) self.new ≡ queue_of (other weight) self.old)
            × (self.new.turns ≡ self.old.turns) }
    {
        match weight {
            Weight::Light => self.light.push_back(source)?,
            Weight::Heavy => self.heavy.push_back(source)?,
        }
        Ok(())
    }

    /// The next source in turn: the front one of its queue.
    pub(crate) fn pop(&mut self) -> Option<EntrySource>
        // Which source is next.
        ensures light { is_lights self.old ≡ true
            → (self.old.light.items ≡ option_to_list result ++ self.new.light.items)
            × (self.new.heavy ≡ self.old.heavy) }
        ensures heavy { is_lights self.old ≡ false
            → (self.old.heavy.items ≡ option_to_list result ++ self.new.heavy.items)
            × (self.new.light ≡ self.old.light) }
        // What is left.
        ensures some { is_some result ≡ (has_some self.old.light.items || has_some self.old.heavy.items) }
        ensures row { self.new.turns.row ≡ row_after self.old }
    {
        let (has_light, has_heavy) = (self.has_light(), !self.heavy.is_empty());
        if self.turns.is_firsts(has_light, has_heavy) {
            self.light.pop_front()
        } else {
            self.heavy.pop_front()
        }
    }
}
