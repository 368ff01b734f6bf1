//! Peers end.

ghost use Rattle.std.specs.Prelude.{◌≡◌, List, ℕ, ◌∷◌, [], None, OnOk, IsSome, Some, map};
ghost use Rattle.zre_values.specs.declared.settings.Settings.{Settings as Config};
ghost use Rattle.zre_journal.specs.Chronicle.{Mark, Ends};
ghost use Rattle.zre_journal.specs.Peers.{life};
ghost use Rattle.zre_node.specs.Stands.{Holds, Nearly, Parted, Did, AreKnown};

use crate::effects::Effects;
use crate::tables::Tables;
use zre_peer::Cause;
use zre_tables::Peer;
use zre_values::OutOfMemory;

impl Tables {
    // What is left to do where a peer that has ended was taken out of its table.
    fn part(
        &mut self,
        out: &mut Effects,
        link: u64,
        peer: &Peer,
        cause: Cause,
    ) -> Result<(), OutOfMemory>
        ensures { (g : Config) (H : List Mark) → Parted g H link peer.now self.old →
            OnOk result (Did g (Ends link cause ∷ []) H self.new out.old out.new) }
    {
        if let Some(running) = &peer.run {
            self.conns.ignore(running.conn, self.clock);
            out.exit(self.alloc, peer.id, &running.run, cause)?;
        }
        out.close_link(link, cause)
    }

    /// The known peer of this link ends: the user is told, where it was entered, its connection is ignored from now
    /// on, and its link is closed.
    #[inline(never)]
    pub fn end(&mut self, out: &mut Effects, link: u64, cause: Cause) -> Result<(), OutOfMemory>
        ensures { (g : Config) (H : List Mark) → Nearly g H link self.old → IsSome (life link H) →
            OnOk result (Did g (Ends link cause ∷ []) H self.new out.old out.new) }
    {
        let Some(peer) = self.peers.remove(link) else {
            return Ok(());
        };
        self.part(out, link, &peer, cause)
    }

    /// The known peers of these links end, one after the other.
    pub fn end_all(
        &mut self,
        out: &mut Effects,
        links: &[u64],
        cause: Cause,
    ) -> Result<(), OutOfMemory>
        ensures { (g : Config) (H : List Mark) → Holds g H self.old → AreKnown H links.now →
            OnOk result (Did g (map (λ l. Ends l cause) links.now) H self.new out.old out.new) }
    {
        for link in links {
            self.end(out, *link, cause)?;
        }
        Ok(())
    }
}
