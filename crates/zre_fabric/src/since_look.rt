//! When a look comes before any other turn.

ghost use Rattle.std.specs.Prelude.{◌≡◌, ◌==◌, ◌+◌, nat_le};
ghost use Rattle.zre_outside.specs.Causes.{raised};
ghost use Rattle.zre_fabric.specs.Looking.{is_full};
ghost use Rattle.zre_fabric.specs.Retries.{latest};

/// A look comes after so many entries at most.
const ENTRIES: u64 = 64;

/// A look comes after so many octets at most.
const OCTETS: u64 = 65536;

/// So many commands in a row are each followed by a look at once. After them the sockets have their turn.
const COMMANDS: u64 = 64;

/// How many entries were given since the last look, and how many commands since the last entry that isn't one.
#[derive(Default, Drop)]
pub(crate) struct SinceLook {
    entries: u64,
    commands: u64,
    // The octets of those entries.
    octets: u64,
}

impl SinceLook {
    /// Whether a look comes before any other turn. Where there are both entries and commands, the last turn was a
    /// command.
    pub(crate) fn is_full(&self) -> bool
        ensures { result ≡ is_full self.now.entries self.now.commands }
    {
        self.entries >= ENTRIES || self.entries > 0 && self.commands > 0 && self.commands < COMMANDS
    }

    /// Whether entries with so many octets came that a look comes before any other turn.
    pub(crate) fn is_long(&self) -> bool
        ensures { result ≡ nat_le 65536 self.now.octets }
    {
        self.octets >= OCTETS
    }

    /// Whether no entry was given since the last look.
    pub(crate) fn has_looked(&self) -> bool
        ensures { result ≡ (self.now.entries == 0) }
    {
        self.entries == 0
    }

    pub(crate) fn gave_look(&mut self)
        ensures entries { self.new.entries ≡ 0 }
        ensures commands { self.new.commands ≡ self.old.commands }
        ensures octets { self.new.octets ≡ 0 }
    {
        self.entries = 0;
        self.octets = 0;
    }

    pub(crate) fn gave_command(&mut self)
        ensures entries { self.new.entries ≡ raised self.old.entries }
        ensures commands { self.new.commands ≡ raised self.old.commands }
        ensures octets { self.new.octets ≡ latest (self.old.octets + 0) }
    {
        let _octets = self.octets;
        self.entries = self.entries.saturating_add(1);
        self.commands = self.commands.saturating_add(1);
    }

    /// An entry with so many octets was given.
    pub(crate) fn gave_entry(&mut self, octets: u64)
        ensures entries { self.new.entries ≡ raised self.old.entries }
        ensures commands { self.new.commands ≡ 0 }
        ensures octets { self.new.octets ≡ latest (self.old.octets + octets) }
    {
        self.octets = self.octets.saturating_add(octets);
        self.entries = self.entries.saturating_add(1);
        self.commands = 0;
    }
}
