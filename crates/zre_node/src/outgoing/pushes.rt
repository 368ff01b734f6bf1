//! Messages are put on links.

ghost use Rattle.std.specs.Prelude.{◌≡◌, List, ◌∷◌, [], OnOk, IsSome};
ghost use Rattle.zre_values.specs.declared.settings.Settings.{Settings as Config};
ghost use Rattle.zre_journal.specs.Chronicle.{Mark};
ghost use Rattle.zre_journal.specs.Peers.{life};
ghost use Rattle.zre_journal.specs.Pushes.{push as pushing};
ghost use Rattle.zre_msg.specs.declared.message.Body.TheVariants.{Shout};
ghost use Rattle.zre_msg.specs.Spelling.{FitsBody, FitsString};
ghost use Rattle.zre_node.specs.Stands.{Holds, Did};

use crate::effects::Effects;
use crate::tables::Tables;
use zre_link::{PushFault, Tail};
use zre_msg::Body;
use zre_peer::Cause;
use zre_values::OutOfMemory;

impl Tables {
    /// A body is put on the link of a known peer, or the peer is too slow and ends.
    #[inline(never)]
    pub fn push(&mut self, out: &mut Effects, link: u64, body: &mut Body) -> Result<(), OutOfMemory>
        requires { FitsBody body.old }
        ensures did { (g : Config) (K : List Mark) → Holds g K self.old → IsSome (life link K) →
            OnOk result (Did g (pushing g link body.old K) K self.new out.old out.new) }
        ensures lent { body.new ≡ body.old }
    {
        match self.peers.push(link, body) {
            Ok(()) => out.pushed.push(link),
            Err(PushFault::Slow { unsent, size }) => {
                self.end(out, link, Cause::Slow { unsent, size })
            }
            Err(PushFault::OutOfMemory) => Err(OutOfMemory),
        }
    }

    /// A SHOUT to this group, with the content of the tail, in the same way.
    #[inline(never)]
    pub fn push_shout(
        &mut self,
        out: &mut Effects,
        link: u64,
        group: &[u8],
        tail: &Tail,
    ) -> Result<(), OutOfMemory>
        requires { FitsString group.now }
        ensures { (g : Config) (K : List Mark) → Holds g K self.old → IsSome (life link K) →
            OnOk result (Did g (pushing g link (Shout group.now tail.now) K) K self.new out.old out.new) }
    {
        match self.peers.push_shout(link, group, tail) {
            Ok(()) => out.pushed.push(link),
            Err(PushFault::Slow { unsent, size }) => {
                let slow = Cause::Slow { unsent, size };
                self.end(out, link, slow)
            }
            Err(PushFault::OutOfMemory) => Err(OutOfMemory),
        }
    }
}
