//! The moves but for pieces, one by one. Each answers whether it may come.

ghost use Rattle.std.specs.Prelude.{◌≡◌, ◌&&◌, ℕ, List, is_none, IfOk, OnOk};
ghost use Rattle.zre_net.specs.Grammar.{may_come};
ghost use Rattle.zre_net.specs.declared.moves.Move.TheVariants as MoveValue;
ghost use Rattle.zre_net.specs.History.{Happening, settings_of};
ghost use Rattle.zre_net.specs.Lists.{nth as nth_of};
ghost use Rattle.zre_net.specs.Rows.{IsBegun, HasStopped, IsLoaded, IsSpelled, IsSpelledAt};
ghost use Rattle.zre_net.specs.Running.{StandsAfter, IsPlayed};

use crate::moves::Part;
use crate::running::network::{Network, add_owner, may_have, set_running};
use crate::running::nth::{nth, place_of};
use crate::running::read_side::ReadSide;
use crate::running::rows::{Carrier, Started, Way};
use crate::running::sender::Sender;
use crate::running::spelling::Spelling;
use crate::running::waiting::Waiting;
use std::alloc::Global;
use zre_journal::Config;
use zre_node::Node;
use zre_outside::{Command, Input};
use zre_values::{Octets, OutOfMemory, PeerId};
use zre_zmtp::{SocketType, greeting, ready};

// The node that is found gets an entry; where none is found, the move may not come.
macro_rules! bring {
    ($network:expr, $found:expr, $one:pat => $start:expr, $at:expr, $input:expr) => {{
        let Some($one) = $found else {
            return Ok(false);
        };
        $network.turn($start, $at, $input)?;
        Ok(true)
    }};
}

// Whether none runs.
fn is_free(start: Option<u64>) -> bool
    ensures { result ≡ is_none start }
{
    start.is_none()
}

fn all(first: bool, second: bool, third: bool) -> bool
    ensures { result ≡ (first && (second && third)) }
{
    first && second && third
}

// A node that starts.
fn begin(alloc: Global, node: u8, since: u64, config: Config) -> Result<Started, OutOfMemory>
    ensures { IfOk result (IsBegun node since config) }
{
    if !config.valid() {
        drop(config);
        return Err(OutOfMemory);
    }
    let id = config.id;
    let host = config.host;
    let core = Node::new(alloc, config)?;
    Ok(Started {
        node,
        since,
        id,
        host,
        sender: Sender::new(alloc, core),
    })
}

// The node of a start is gone.
fn stop(started: &mut Started)
    ensures { HasStopped started.old started.new }
{
    started.sender.stop();
}

// The octets of a part of a link, where it has that part.
fn spelled(
    alloc: Global,
    started: &Started,
    link: u64,
    part: Part,
) -> Result<Option<Spelling>, OutOfMemory>
    ensures { IfOk result (IsSpelled started.now link part) }
{
    match part {
        Part::Greeting => Ok(Some(Spelling::copy(alloc, &greeting())?)),
        Part::Ready => {
            let octets = ready(alloc, SocketType::Dealer, Some(started.id))?;
            Ok(Some(Spelling::copy(alloc, octets.as_slice())?))
        }
        Part::Message { number } => started.sender.lines.message(alloc, link, number),
    }
}

// A connection is made to carry these octets.
fn load(carrier: &mut Carrier, octets: Spelling) -> Result<(), OutOfMemory>
    ensures { OnOk result (IsLoaded carrier.old octets carrier.new) }
{
    carrier.waiting.add(octets)
}

impl Network {
    // Whether a node may start.
    fn may_start(&self, node: u8, id: PeerId, port: u16) -> bool
        ensures { (H : List Happening) (at : ℕ) (name host : List ℕ) → StandsAfter H self.now →
            result ≡ may_come (MoveValue.Start node at id name host port) H }
    {
        all(
            is_free(self.runner(node)),
            may_have(self.owners.as_slice(), node, id),
            0 < port,
        )
    }

    /// A node starts with the settings of a schedule.
    pub(crate) fn start(&mut self, node: u8, at: u64, config: Config) -> Result<bool, OutOfMemory>
        requires { config ≡ settings_of config.id config.name config.host config.port }
        ensures { (H : List Happening) → StandsAfter H self.old → IfOk result (λ may.
            IsPlayed (MoveValue.Start node at config.id config.name config.host config.port) H may self.new) }
    {
        let id = config.id;
        if !self.may_start(node, id, config.port) {
            return Ok(false);
        }
        let started = begin(self.alloc, node, at, config)?;
        self.started.push(started)?;
        add_owner(&mut self.owners, node, id)?;
        set_running(&mut self.running, node, Some(self.started.len() as u64))?;
        Ok(true)
    }

    /// A node is gone.
    pub(crate) fn crash(&mut self, node: u8) -> Result<bool, OutOfMemory>
        ensures { (H : List Happening) → StandsAfter H self.old →
            IfOk result (λ may. IsPlayed (MoveValue.Crash node) H may self.new) }
    {
        let Some(start) = self.runner(node) else {
            return Ok(false);
        };
        let Some(place) = place_of(self.started.as_slice(), start) else {
            return Err(OutOfMemory);
        };
        stop(&mut self.started[place]);
        set_running(&mut self.running, node, None)?;
        Ok(true)
    }

    /// Time has passed at a node.
    pub(crate) fn tick(&mut self, node: u8, at: u64) -> Result<bool, OutOfMemory>
        ensures { (H : List Happening) → StandsAfter H self.old →
            IfOk result (λ may. IsPlayed (MoveValue.Tick node at) H may self.new) }
    {
        bring!(self, self.runner(node), start => start, at, Input::Tick)
    }

    /// The user of a node asks for something.
    pub(crate) fn ask(&mut self, node: u8, at: u64, command: Command) -> Result<bool, OutOfMemory>
        ensures { (H : List Happening) → StandsAfter H self.old →
            IfOk result (λ may. IsPlayed (MoveValue.Do node at command) H may self.new) }
    {
        let Some(start) = self.runner(node) else {
            drop(command);
            return Ok(false);
        };
        self.turn(start, at, Input::Do(command))?;
        Ok(true)
    }

    /// A node hears a beacon.
    pub(crate) fn hear(&mut self, beacon: u64, node: u8, at: u64) -> Result<bool, OutOfMemory>
        ensures { (H : List Happening) → StandsAfter H self.old →
            IfOk result (λ may. IsPlayed (MoveValue.Beacon beacon node at) H may self.new) }
    {
        let Some(start) = self.runner(node) else {
            return Ok(false);
        };
        let Some(sent) = nth(self.beacons.as_slice(), beacon) else {
            return Ok(false);
        };
        let from = sent.from;
        let bytes = Octets::copy(self.alloc, &sent.octets)?;
        self.turn(start, at, Input::Datagram { from, bytes })?;
        Ok(true)
    }

    /// A connection that carries a link opens at a node.
    pub(crate) fn open(&mut self, link: u64, node: u8, at: u64) -> Result<bool, OutOfMemory>
        ensures { (H : List Happening) → StandsAfter H self.old →
            IfOk result (λ may. IsPlayed (MoveValue.Open link node at) H may self.new) }
    {
        let Some(to) = self.runner(node) else {
            return Ok(false);
        };
        let Some(way) = nth(self.links.as_slice(), link) else {
            return Ok(false);
        };
        let along = *way;
        let Some(started) = nth(self.started.as_slice(), to) else {
            return Err(OutOfMemory);
        };
        let read_side = ReadSide::new(self.alloc, started.id);
        self.conns.push(Carrier {
            to,
            along,
            waiting: Waiting::new(self.alloc),
            read_side,
        })?;
        let conn = self.conns.len() as u64;
        self.step(to, at, Input::Opened { conn })?;
        Ok(true)
    }

    // The octets of a part of a link, where it has that part.
    fn spelled(&self, along: Way, part: Part) -> Result<Option<Spelling>, OutOfMemory>
        ensures { IfOk result (IsSpelledAt (nth_of along.start self.now.started.items) along.link part) }
    {
        match nth(self.started.as_slice(), along.start) {
            Some(started) => spelled(self.alloc, started, along.link, part),
            None => Err(OutOfMemory),
        }
    }

    /// A connection is made to carry one part more.
    pub(crate) fn carry(&mut self, conn: u64, part: Part) -> Result<bool, OutOfMemory>
        ensures { (H : List Happening) → StandsAfter H self.old →
            IfOk result (λ may. IsPlayed (MoveValue.Carry conn part) H may self.new) }
    {
        let Some(place) = place_of(self.conns.as_slice(), conn) else {
            return Ok(false);
        };
        let along = self.conns[place].along;
        let Some(octets) = self.spelled(along, part)? else {
            return Ok(false);
        };
        let Some(pending) = self.pending.checked_add(octets.len() as u64) else {
            drop(octets);
            return Err(OutOfMemory);
        };
        load(&mut self.conns[place], octets)?;
        self.pending = pending;
        Ok(true)
    }

    /// A connection is closed.
    pub(crate) fn shut(&mut self, conn: u64, at: u64) -> Result<bool, OutOfMemory>
        ensures { (H : List Happening) → StandsAfter H self.old →
            IfOk result (λ may. IsPlayed (MoveValue.Shut conn at) H may self.new) }
    {
        bring!(self, self.receiver(conn), to => to, at, Input::Shut { conn })
    }

    /// A link stands.
    pub(crate) fn linked(&mut self, link: u64, at: u64) -> Result<bool, OutOfMemory>
        ensures { (H : List Happening) → StandsAfter H self.old →
            IfOk result (λ may. IsPlayed (MoveValue.Linked link at) H may self.new) }
    {
        bring!(self, self.sender(link), Way { start, link } => start, at, Input::Linked { link })
    }

    /// A link breaks.
    pub(crate) fn unlinked(&mut self, link: u64, at: u64) -> Result<bool, OutOfMemory>
        ensures { (H : List Happening) → StandsAfter H self.old →
            IfOk result (λ may. IsPlayed (MoveValue.Unlinked link at) H may self.new) }
    {
        bring!(self, self.sender(link), Way { start, link } => start, at, Input::Unlinked { link })
    }

    /// Octets come back on a link.
    pub(crate) fn reply(&mut self, link: u64, at: u64, bytes: Octets) -> Result<bool, OutOfMemory>
        ensures { (H : List Happening) → StandsAfter H self.old →
            IfOk result (λ may. IsPlayed (MoveValue.Reply link at bytes) H may self.new) }
    {
        bring!(self, self.sender(link), Way { start, link } => start, at, Input::Reply { link, bytes })
    }

    /// Octets of a link are sent.
    pub(crate) fn took(&mut self, link: u64, count: u64, at: u64) -> Result<bool, OutOfMemory>
        ensures { (H : List Happening) → StandsAfter H self.old →
            IfOk result (λ may. IsPlayed (MoveValue.Took link count at) H may self.new) }
    {
        bring!(self, self.sender(link), Way { start, link } => start, at, Input::Took { link, count })
    }
}
