//! One entry of a node, and what comes of it: what it tells, the beacons that it sends, and the links that it makes.

ghost use Rattle.std.specs.Prelude.{◌≡◌, ◌+◌, ◌++◌, ◌∷◌, [], List, Some, map, IfOk, OnOk};
ghost use Rattle.std.specs.List.{filter_map};
ghost use Rattle.zre_outside.specs.declared.entry.Entry.{Entry as EntryValue};
ghost use Rattle.zre_values.specs.declared.settings.Settings.{Settings as Config};
ghost use Rattle.zre_journal.specs.Events.{chronicle};
ghost use Rattle.zre_journal.specs.Chronicle.{Comes};
ghost use Rattle.zre_net.specs.declared.moves.Move.{Move};
ghost use Rattle.zre_net.specs.History.{Happening, Happens, Incarnation, incarnations, chronicle_of};
ghost use Rattle.zre_net.specs.Comes.{turn_of};
ghost use Rattle.zre_net.specs.Lists.{nth as nth_of};
ghost use Rattle.zre_net.specs.Sender.{is_slight};
ghost use Rattle.zre_net.specs.Sending.{HasSent};
ghost use Rattle.zre_net.specs.Rows.{sent_in, way_in, entry_at, Turned, StaysAt};
ghost use Rattle.zre_net.specs.Running.{AreNodes, StandsAfter, IsStill, IsKept, IsSilent};

use crate::running::network::Network;
use crate::running::nth::place_of;
use crate::running::rows::{SentBeacon, Started, Way};
use crate::running::said::SaidEvents;
use zre_node::Step;
use zre_outside::{Act, Entry, Input};
use zre_peer::Events;
use zre_values::{List, OutOfMemory};

/// What an entry brought about at a start, and how many octets its messages had before and have now.
#[derive(Drop)]
pub(crate) struct EntryTurn {
    pub step: Step,
    pub before: u64,
    pub after: u64,
    pub node: u8,
    pub host: [u8; 4],
}

// An entry comes.
fn take_turn(started: &mut Started, at: u64, input: Input) -> Result<EntryTurn, OutOfMemory>
    ensures turned { (g : Config) (J : List EntryValue) → HasSent g J started.old.sender →
        is_slight g input (chronicle g J) (Comes (entry_at started.old at input) ∷ chronicle g J) →
        IfOk result (λ t. Turned g J (entry_at started.old at input) t started.new) }
    ensures stays { IfOk result (λ t. StaysAt t started.old started.new) }
{
    let before = started.sender.lines.octets();
    let at = at.max(started.since);
    let step = started.sender.step(Entry { at, input })?;
    Ok(EntryTurn {
        step,
        before,
        after: started.sender.lines.octets(),
        node: started.node,
        host: started.host,
    })
}

// The events of a node are told.
fn tell(said: &mut SaidEvents, node: u8, events: Events) -> Result<(), OutOfMemory>
    ensures { OnOk result (said.new ≡ said.old ++ map (λ e. (node, e)) events) }
{
    for event in events.into_vec() {
        said.push((node, event))?;
    }
    Ok(())
}

// The beacon of an act, where it sends one.
fn send(beacons: &mut List<SentBeacon>, host: [u8; 4], act: &Act) -> Result<(), OutOfMemory>
    ensures { OnOk result (beacons.new ≡ beacons.old ++ filter_map (sent_in host) (act.now ∷ [])) }
{
    if let Act::Beacon { bytes } = act {
        beacons.push(SentBeacon {
            from: host,
            octets: *bytes,
        })?;
    }
    Ok(())
}

// The beacons of acts.
fn send_all(beacons: &mut List<SentBeacon>, host: [u8; 4], acts: &[Act]) -> Result<(), OutOfMemory>
    ensures { OnOk result (beacons.new ≡ beacons.old ++ filter_map (sent_in host) acts.now) }
{
    for act in acts {
        send(beacons, host, act)?;
    }
    Ok(())
}

// The link of an act, where it makes one.
fn connect(links: &mut List<Way>, start: u64, act: &Act) -> Result<(), OutOfMemory>
    ensures { OnOk result (links.new ≡ links.old ++ filter_map (way_in start) (act.now ∷ [])) }
{
    if let Act::Connect { link, .. } = act {
        links.push(Way { start, link: *link })?;
    }
    Ok(())
}

// The links of acts.
fn connect_all(links: &mut List<Way>, start: u64, acts: &[Act]) -> Result<(), OutOfMemory>
    ensures { OnOk result (links.new ≡ links.old ++ filter_map (way_in start) acts.now) }
{
    for act in acts {
        connect(links, start, act)?;
    }
    Ok(())
}

// The total, with one part of it changed.
fn changed(total: u64, before: u64, after: u64) -> Result<u64, OutOfMemory>
    ensures { IfOk result (λ all. all + before ≡ total + after) }
{
    match total.checked_sub(before) {
        Some(rest) => match rest.checked_add(after) {
            Some(all) => Ok(all),
            None => Err(OutOfMemory),
        },
        None => Err(OutOfMemory),
    }
}

impl Network {
    /// An entry comes at a start. At most one message may come with it.
    pub(crate) fn step(&mut self, start: u64, at: u64, input: Input) -> Result<(), OutOfMemory>
        ensures nodes { (H : List Happening) (m : Move) (a : Incarnation) → AreNodes H self.old → IsStill m →
            nth_of start (incarnations H) ≡ Some a →
            is_slight a.settings input (chronicle_of a H) (Comes (turn_of a at input).entry ∷ chronicle_of a H) →
            OnOk result (AreNodes (Happens m (Some (turn_of a at input)) ∷ H) self.new) }
        ensures conns { OnOk result (self.new.conns ≡ self.old.conns) }
        ensures pending { OnOk result (self.new.pending ≡ self.old.pending) }
    {
        let Some(place) = place_of(self.started.as_slice(), start) else {
            drop(input);
            return Err(OutOfMemory);
        };
        let turn = take_turn(&mut self.started[place], at, input)?;
        let Ok(queued) = changed(self.queued, turn.before, turn.after) else {
            drop(turn);
            return Err(OutOfMemory);
        };
        self.queued = queued;
        let Ok(()) = send_all(&mut self.beacons, turn.host, turn.step.acts.as_slice()) else {
            drop(turn);
            return Err(OutOfMemory);
        };
        let Ok(()) = connect_all(&mut self.links, start, turn.step.acts.as_slice()) else {
            drop(turn);
            return Err(OutOfMemory);
        };
        tell(&mut self.said, turn.node, turn.step.events)
    }

    /// An entry that is neither about the opening of a connection nor a piece of one comes at a start.
    pub(crate) fn turn(&mut self, start: u64, at: u64, input: Input) -> Result<(), OutOfMemory>
        ensures { (H : List Happening) (m : Move) (a : Incarnation) → StandsAfter H self.old → IsStill m → IsKept m →
            IsSilent input → nth_of start (incarnations H) ≡ Some a →
            OnOk result (StandsAfter (Happens m (Some (turn_of a at input)) ∷ H) self.new) }
    {
        self.step(start, at, input)
    }
}
