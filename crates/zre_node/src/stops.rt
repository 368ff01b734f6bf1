//! The node stops.

ghost use Rattle.std.specs.Prelude.{◌≡◌, List, OnOk};
ghost use Rattle.zre_values.specs.declared.settings.Settings.{Settings as Config};
ghost use Rattle.zre_journal.specs.Chronicle.{Mark};
ghost use Rattle.zre_journal.specs.Commands.{at_stop};
ghost use Rattle.zre_node.specs.Stands.{Holds, Stopped};

use crate::effects::Effects;
use crate::tables::Tables;
use zre_beacon::Beacon;
use zre_outside::Act;
use zre_peer::{Cause, Event};
use zre_values::OutOfMemory;

impl Tables {
    /// All known peers end, all connections are closed, and a last beacon goes out.
    pub fn stop(&mut self, out: &mut Effects) -> Result<(), OutOfMemory>
        ensures { (g : Config) (H : List Mark) → Holds g H self.old →
            OnOk result (Stopped g H self.new out.old out.new) }
    {
        let links = self.peers.links()?;
        let conns = self.conns.numbers()?;
        self.end_all(out, links.as_slice(), Cause::Stop)?;
        self.drop_all(out, conns.as_slice())?;
        let id = self.config.id;
        out.act(Act::Beacon {
            bytes: Beacon { id, port: 0 }.write(),
        })?;
        out.tell(Event::Stop)?;
        self.stopped = true;
        Ok(())
    }
}
