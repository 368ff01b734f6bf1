//! Connections open and close.

ghost use Rattle.std.specs.Prelude.{◌≡◌, List, ◌∷◌, [], ◌++◌, true, false, None, OnOk, IfSome, MatchOption, map};
ghost use Rattle.std.specs.Option.{option_map};
ghost use Rattle.zre_values.specs.declared.settings.Settings.{Settings as Config};
ghost use Rattle.zre_journal.specs.Chronicle.{Mark, Closes, ClosesAtStop};
ghost use Rattle.zre_journal.specs.Connections.{is_open, runs};
ghost use Rattle.zre_journal.specs.Arrivals.{at_opened, at_shut, end_of_run};
ghost use Rattle.zre_node.specs.Stands.{Holds, Did, RunNone};

use crate::effects::Effects;
use crate::tables::{Tables, is_new};
use zre_outside::Act;
use zre_peer::{Cause, CloseWhy};
use zre_tables::Connection;
use zre_values::limits::CONNECTIONS;
use zre_values::{Octets, OutOfMemory};
use zre_zmtp::greeting;

impl Tables {
    /// A connection comes. It is answered by the greeting, or turned away where too many are open.
    pub fn opened(&mut self, out: &mut Effects, conn: u64) -> Result<(), OutOfMemory>
        ensures { (g : Config) (H : List Mark) → Holds g H self.old →
            OnOk result (Did g (at_opened g conn H) H self.new out.old out.new) }
    {
        if !is_new(self.last, conn) {
            return Ok(());
        }
        self.last = Some(conn);
        if self.conns.len() >= CONNECTIONS {
            return out.close(conn, CloseWhy::TooMany);
        }
        let opened = Connection::opened(self.alloc, self.config.id, self.clock);
        self.conns.insert(conn, opened)?;
        out.answer(conn, Octets::copy(self.alloc, &greeting())?)
    }

    /// The peer that an open connection runs ends, if it runs one.
    #[inline(never)]
    pub fn end_run(&mut self, out: &mut Effects, conn: u64, cause: Cause) -> Result<(), OutOfMemory>
        ensures { (g : Config) (H : List Mark) → Holds g H self.old → is_open conn H ≡ true →
            OnOk result (Did g (end_of_run g (runs conn H) cause) H self.new out.old out.new) }
    {
        match self.run_of(conn) {
            Some(link) => self.end(out, link, cause),
            None => Ok(()),
        }
    }

    // The link of the peer that an open connection runs.
    fn run_of(&self, conn: u64) -> Option<u64>
        ensures { (g : Config) (H : List Mark) → Holds g H self.now → is_open conn H ≡ true → result ≡ runs conn H }
    {
        match self.conns.get(conn) {
            Some(found) => found.run,
            None => None,
        }
    }

    /// An open connection that runs no peer is closed.
    #[inline(never)]
    pub fn close(&mut self, out: &mut Effects, conn: u64, why: CloseWhy) -> Result<(), OutOfMemory>
        ensures { (g : Config) (H : List Mark) → Holds g H self.old → runs conn H ≡ None →
            OnOk result (Did g (Closes conn why ∷ []) H self.new out.old out.new) }
    {
        self.conns.remove(conn);
        out.close(conn, why)
    }

    /// A connection is shut.
    pub fn shut(&mut self, out: &mut Effects, conn: u64) -> Result<(), OutOfMemory>
        ensures { (g : Config) (H : List Mark) → Holds g H self.old →
            OnOk result (Did g (at_shut g conn H) H self.new out.old out.new) }
    {
        if !self.conns.contains(conn) {
            return Ok(());
        }
        self.end_run(out, conn, Cause::Shut)?;
        self.conns.remove(conn);
        Ok(())
    }

    /// These open connections, which run no peers, are closed without a word to the user.
    pub fn drop_all(&mut self, out: &mut Effects, conns: &[u64]) -> Result<(), OutOfMemory>
        ensures { (g : Config) (H : List Mark) → Holds g H self.old → RunNone H →
            OnOk result (Did g (map (λ c. ClosesAtStop c) conns.now) H self.new out.old out.new) }
    {
        for conn in conns {
            self.conns.remove(*conn);
            out.act(Act::CloseConn { conn: *conn })?;
        }
        Ok(())
    }
}
