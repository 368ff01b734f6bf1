ghost use Rattle.std.specs.Prelude.{◌≡◌, ◌≤◌, not, ◌&&◌, IfOk, OnOk, OnErr};
ghost use Rattle.std.specs.FinMap as map;
ghost use Rattle.zre_timers.specs.Moments.{NoneAfter, is_silent_for, has_moment_between, moment_of};
ghost use Rattle.zre_values.specs.Keys.{IsRisingListOf};

use std::alloc::Global;
use std::collections::{BTreeMap, BTreeSet};
use std::marker::Model;
use zre_values::{Keys, OutOfMemory};

/// The last moment of each key.
#[derive(Drop)]
pub struct Timers {
    moments: BTreeMap<u64, u64>,
    // The pairs of the map in the order of their moments, so that the keys that are due are found without a look at the
    // others.
    queue: BTreeSet<(u64, u64)>,
    alloc: Global,
}

impl Model for Timers {
    ghost use Rattle.std.specs.Coded.{coded_ℕ};
    ghost use Rattle.std.specs.FinMap as map;
    ghost use Rattle.zre_timers.specs.Agreement.{Agree};
    ghost use Rattle.zre_timers.specs.Moments.{Moments};

    ghost Value = { Moments };

    ghost coded = { map.code coded_ℕ coded_ℕ };

    ghost view = { λ timers. map.from_entries timers.moments.entries };

    ghost invariant = { λ timers. Agree timers.moments timers.queue };
}

/// The keys that are due at a moment, in two lists that have no key in common.
#[derive(Drop)]
pub struct Due {
    /// Those that were silent for the longer span, rising.
    pub expired: Keys,
    /// The others that were silent for the shorter one, rising.
    pub evasive: Keys,
}

impl Timers {
    /// No keys. It takes no memory.
    pub fn new(alloc: Global) -> Self
        ensures { result ≡ map.empty }
    {
        Timers {
            moments: BTreeMap::new(alloc),
            queue: BTreeSet::new(alloc),
            alloc,
        }
    }

    /// Sets the moment of a key, whether it had one or not.
    pub fn touch(&mut self, key: u64, at: u64) -> Result<(), OutOfMemory>
        ensures ok { OnOk result (self.new ≡ map.insert self.old key at) }
        ensures err { OnErr result (self.new ≡ self.old) }
    {
        self.queue.insert((at, key))?;
        let Ok(before) = self.moments.insert(key, at) else {
            self.queue.remove(&(at, key));
            return Err(OutOfMemory);
        };
        if let Some(moment) = before {
            if moment != at {
                self.queue.remove(&(moment, key));
            }
        }
        Ok(())
    }

    /// The moment of a key, if it has one.
    pub fn moment(&self, key: u64) -> Option<u64>
        ensures { result ≡ moment_of self.now key }
    {
        self.moments.get(&key).copied()
    }

    /// Takes a key out, if it is there.
    pub fn forget(&mut self, key: u64)
        ensures { self.new ≡ map.remove self.old key }
    {
        if let Some(at) = self.moments.remove(&key) {
            self.queue.remove(&(at, key));
        }
    }

    /// The keys that have been silent: `expired` those whose moment lies at least so long back, `evasive` the others
    /// whose moment lies at least `evasive` back. It looks at these keys alone.
    pub fn due(&self, now: u64, evasive: u64, expired: u64) -> Result<Due, OutOfMemory>
        // The times of the settings.
        requires order { evasive ≤ expired }
        requires past { NoneAfter now self.now }
        // The keys that are due.
        ensures expired { IfOk result (λ due. IsRisingListOf (is_silent_for self.now now expired) due.expired) }
        ensures evasive { IfOk result (λ due. IsRisingListOf
            (λ key. is_silent_for self.now now evasive key && not (is_silent_for self.now now expired key))
            due.evasive) }
    {
        let Some(latest) = now.checked_sub(evasive) else {
            return Ok(Due {
                expired: Keys::new(self.alloc),
                evasive: Keys::new(self.alloc),
            });
        };
        let Some(limit) = now.checked_sub(expired) else {
            return Ok(Due {
                expired: Keys::new(self.alloc),
                evasive: self.keys_between(0, latest)?,
            });
        };
        let evasive = if limit < latest {
            self.keys_between(limit + 1, latest)?
        } else {
            Keys::new(self.alloc)
        };
        Ok(Due {
            expired: self.keys_between(0, limit)?,
            evasive,
        })
    }

    // The keys whose moments are in this range.
    fn keys_between(&self, first: u64, last: u64) -> Result<Keys, OutOfMemory>
        requires { first ≤ last }
        ensures { IfOk result (λ keys. IsRisingListOf (has_moment_between self.now first last) keys) }
    {
        let pairs = self.queue.range((first, 0)..=(last, u64::MAX));
        let mut keys: Vec<u64> = pairs.map(|(_, key)| *key).collect(self.alloc)?;
        keys.sort_unstable();
        Ok(Keys::from_vec(keys))
    }
}
