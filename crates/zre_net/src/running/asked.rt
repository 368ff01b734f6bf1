//! What a network is asked between its moves.

ghost use Rattle.std.specs.Prelude.{◌≡◌, List, Some, is_some, length, IfSome};
ghost use Rattle.zre_node.specs.Journal.{StandsFor};
ghost use Rattle.zre_net.specs.declared.moves.Move.{Move as MoveValue};
ghost use Rattle.zre_net.specs.Comes.{history};
ghost use Rattle.zre_net.specs.History.{Incarnation, running, journal};
ghost use Rattle.zre_net.specs.Numbers.{broadcasts, routes, conns};
ghost use Rattle.zre_net.specs.Running.{HasRun};

use crate::running::network::Network;
use crate::running::nth::nth;
use zre_node::Node;

impl Network {
    /// How many beacons its nodes have sent. The next has the number after this.
    pub fn beacons(&self) -> u64
        ensures { (ms : List MoveValue) → HasRun ms self.now → result ≡ length (broadcasts (history ms)) }
    {
        self.beacons.len() as u64
    }

    /// How many links its nodes have made. The next has the number after this.
    pub fn links(&self) -> u64
        ensures { (ms : List MoveValue) → HasRun ms self.now → result ≡ length (routes (history ms)) }
    {
        self.links.len() as u64
    }

    /// How many connections were opened. The next has the number after this.
    pub fn conns(&self) -> u64
        ensures { (ms : List MoveValue) → HasRun ms self.now → result ≡ length (conns (history ms)) }
    {
        self.conns.len() as u64
    }

    /// The node that runs under a number, to be asked what it shows of its peers. None where none runs.
    pub fn node(&self, node: u8) -> Option<&Node>
        ensures there { (ms : List MoveValue) → HasRun ms self.now →
            is_some result ≡ is_some (running node (history ms)) }
        ensures stands { (ms : List MoveValue) (a : Incarnation) → HasRun ms self.now →
            running node (history ms) ≡ Some a →
            IfSome result (λ n. StandsFor a.settings (journal a (history ms)) n.now) }
    {
        let Some(start) = self.runner(node) else {
            return None;
        };
        let Some(started) = nth(self.started.as_slice(), start) else {
            return None;
        };
        started.sender.node()
    }
}
