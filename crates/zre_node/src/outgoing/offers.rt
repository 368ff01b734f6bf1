//! What links have to send.

ghost use Rattle.std.specs.Prelude.{◌≡◌, List, ◌++◌, OnOk};
ghost use Rattle.zre_values.specs.declared.settings.Settings.{Settings as Config};
ghost use Rattle.zre_journal.specs.Chronicle.{Mark};
ghost use Rattle.zre_node.specs.Offers.{offered};
ghost use Rattle.zre_node.specs.Stands.{Holds};

use crate::effects::Effects;
use crate::tables::Tables;
use zre_values::OutOfMemory;

impl Tables {
    /// The links on which something was put, and that have something to send, are offered.
    #[inline(always)]
    pub fn offer(&self, out: &mut Effects) -> Result<(), OutOfMemory>
        ensures { (g : Config) (K : List Mark) → Holds g K self.now →
            OnOk result (out.new ≡ record out.old { acts = out.old.acts ++ offered g K out.old.pushed }) }
    {
        if out.pushed.len() == 0 {
            return Ok(());
        }
        self.peers.offer(&out.pushed, &mut out.acts)
    }
}
