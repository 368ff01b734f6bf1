//! What several peers are sent.

ghost use Rattle.std.specs.Prelude.{◌≡◌, List, OnOk};
ghost use Rattle.zre_values.specs.declared.settings.Settings.{Settings as Config};
ghost use Rattle.zre_journal.specs.Chronicle.{Mark, in_turn};
ghost use Rattle.zre_journal.specs.Peers.{lives};
ghost use Rattle.zre_journal.specs.Pushes.{push as pushing, push_all as pushing_all};
ghost use Rattle.zre_msg.specs.declared.message.Body.TheVariants.{Shout};
ghost use Rattle.zre_msg.specs.Spelling.{FitsBody, FitsString};
ghost use Rattle.zre_node.specs.Stands.{Holds, Did, AreKnown};

use crate::effects::Effects;
use crate::tables::Tables;
use zre_link::Tail;
use zre_msg::Body;
use zre_values::OutOfMemory;

impl Tables {
    /// A body is put on these links of known peers, one after the other. A peer that is too slow for it ends.
    pub fn push_all(
        &mut self,
        out: &mut Effects,
        links: &[u64],
        body: &mut Body,
    ) -> Result<(), OutOfMemory>
        requires { FitsBody body.old }
        ensures did { (g : Config) (K : List Mark) → Holds g K self.old → AreKnown K links.now →
            OnOk result (Did g (in_turn (λ l J. pushing g l body.old J) links.now K) K self.new out.old out.new) }
        ensures lent { body.new ≡ body.old }
    {
        for link in links {
            self.push(out, *link, body)?;
        }
        Ok(())
    }

    /// A SHOUT to this group, with the content of the tail, in the same way.
    pub fn shout_all(
        &mut self,
        out: &mut Effects,
        links: &[u64],
        group: &[u8],
        tail: &Tail,
    ) -> Result<(), OutOfMemory>
        requires { FitsString group.now }
        ensures { (g : Config) (K : List Mark) → Holds g K self.old → AreKnown K links.now → OnOk result
            (Did g (in_turn (λ l J. pushing g l (Shout group.now tail.now) J) links.now K) K self.new out.old out.new) }
    {
        for link in links {
            self.push_shout(out, *link, group, tail)?;
        }
        Ok(())
    }

    /// A body for all known peers.
    pub fn push_everywhere(&mut self, out: &mut Effects, body: &mut Body) -> Result<(), OutOfMemory>
        requires { FitsBody body.old }
        ensures { (g : Config) (K : List Mark) → Holds g K self.old →
            OnOk result (Did g (pushing_all g (lives K) body.old K) K self.new out.old out.new) }
    {
        let links = self.peers.links()?;
        self.push_all(out, links.as_slice(), body)
    }
}
