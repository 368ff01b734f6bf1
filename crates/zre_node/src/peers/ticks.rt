//! Time goes by: peers become evasive or expire, and connections that run no peer are closed.

ghost use Rattle.std.specs.Prelude.{◌≡◌, ℕ, List, ◌∷◌, [], OnOk, map};
ghost use Rattle.zre_outside.specs.declared.entry.Entry.{Entry as EntryValue};
ghost use Rattle.zre_outside.specs.declared.entry.Input.TheVariants as given;
ghost use Rattle.zre_peer.specs.declared.causes.CloseWhy.TheVariants as closing;
ghost use Rattle.zre_values.specs.declared.settings.Settings.{Settings as Config};
ghost use Rattle.zre_journal.specs.Chronicle.{Mark, SendsBeacon, Closes, in_turn};
ghost use Rattle.zre_journal.specs.Ticks.{at_tick};
ghost use Rattle.zre_node.specs.Journal.{Took};
ghost use Rattle.zre_node.specs.Stands.{Holds, Did};
ghost use Rattle.zre_node.specs.Ticks.{probes, IsEntered, AreEntered, AreIdle};

use crate::effects::Effects;
use crate::tables::Tables;
use zre_beacon::Beacon;
use zre_link::PushFault;
use zre_outside::Act;
use zre_peer::{Cause, CloseWhy};
use zre_values::OutOfMemory;

impl Tables {
    // An entered peer is evasive: the user is told, and the peer is sent a PING, or is too slow and ends.
    fn probe(&mut self, out: &mut Effects, link: u64) -> Result<(), OutOfMemory>
        ensures { (g : Config) (K : List Mark) → Holds g K self.old → IsEntered link K →
            OnOk result (Did g (probes g link K) K self.new out.old out.new) }
    {
        match self.peers.probe(link, &mut out.events) {
            Ok(()) => out.pushed.push(link),
            Err(PushFault::Slow { unsent, size }) => {
                let slow = Cause::Slow { unsent, size };
                self.end(out, link, slow)
            }
            Err(PushFault::OutOfMemory) => Err(OutOfMemory),
        }
    }

    // The entered peers of these links are evasive: they are probed one after the other.
    fn probe_all(&mut self, out: &mut Effects, links: &[u64]) -> Result<(), OutOfMemory>
        ensures { (g : Config) (K : List Mark) → Holds g K self.old → AreEntered K links.now →
            OnOk result (Did g (in_turn (probes g) links.now K) K self.new out.old out.new) }
    {
        for link in links {
            self.probe(out, *link)?;
        }
        Ok(())
    }

    // These open connections, which run no peers, have waited too long.
    fn close_all(&mut self, out: &mut Effects, conns: &[u64]) -> Result<(), OutOfMemory>
        ensures { (g : Config) (H : List Mark) → Holds g H self.old → AreIdle H conns.now →
            OnOk result (Did g (map (λ c. Closes c closing.Timeout) conns.now) H self.new out.old out.new) }
    {
        for conn in conns {
            self.close(out, *conn, CloseWhy::Timeout)?;
        }
        Ok(())
    }

    // The node's own beacon goes out.
    fn call(&self, out: &mut Effects) -> Result<(), OutOfMemory>
        ensures { (g : Config) (H : List Mark) → Holds g H self.now →
            OnOk result (Did g (SendsBeacon g.port ∷ []) H self.now out.old out.new) }
    {
        let beacon = Beacon {
            id: self.config.id,
            port: self.config.port,
        };
        out.act(Act::Beacon {
            bytes: beacon.write(),
        })
    }

    /// Time goes by. Who is silent for too long, and which connections have waited for too long, is judged before any
    /// of them ends or is closed.
    pub fn tick(&mut self, out: &mut Effects) -> Result<(), OutOfMemory>
        ensures { (g : Config) (K : List Mark) → Holds g K self.old →
            OnOk result (Did g (at_tick g K) K self.new out.old out.new) }
    {
        let (evasive, expired, now) = (self.config.evasive, self.config.expired, self.clock);
        let silent = self.peers.silent(expired, now)?;
        let evasive_ones = self.peers.evasive(evasive, expired, now)?;
        let stale = self.conns.stale(expired, now)?;
        self.end_all(out, silent.as_slice(), Cause::Expired)?;
        self.probe_all(out, evasive_ones.as_slice())?;
        self.close_all(out, stale.as_slice())?;
        self.call(out)
    }

    /// A tick of the clock comes.
    #[inline(never)]
    pub fn take_tick(&mut self, out: &mut Effects, at: u64) -> Result<(), OutOfMemory>
        ensures { (g : Config) (H : List Mark) (e : EntryValue) → e.at ≡ at → e.input ≡ given.Tick →
            out.old.pushed ≡ [] → Holds g H self.old → OnOk result (Took g e H self.new out.old out.new) }
    {
        self.come(at);
        self.tick(out)?;
        self.offer(out)
    }
}
