use zre_peer::Event;
use zre_values::List;

/// What the nodes of a schedule tell: each event with the number of its node, in the order of the moves.
pub type SaidEvents = List<(u8, Event)>;
