//! Laws of what connections say. The functions do nothing: what they ensure is for proofs.

ghost use Rattle.std.specs.Prelude.{◌≡◌, ℕ, List, [], ◌++◌, true, Some, length};
ghost use Rattle.std.specs.List.{AllByRecursion};
ghost use Rattle.zre_values.specs.declared.peer_id.PeerId.{PeerId};
ghost use Rattle.zre_mailbox.specs.Talk.{arrivals, talk, completed, has_ready, Goes, Introduced, IsInOrder};
ghost use Rattle.zre_mailbox.specs.Conn.{identity_in};
ghost use Rattle.zre_mailbox.specs.Utterances.{Utterance, IsHearable, stream, heard};

/// What was said stays said: more octets say more after it, and after a fault nothing.
pub fn talk_grows()
    ensures { (own : PeerId) (o more : List ℕ) → Goes own o more }
{}

/// However octets are cut, they say the same.
pub fn completed_in_turn()
    ensures { (own : PeerId) (o a b : List ℕ) → completed own o (a ++ b) ≡ completed own o a
        ++ completed own (o ++ a) b }
{}

/// No octets say nothing.
pub fn nothing_said()
    ensures { (own : PeerId) → talk own [] ≡ [] }
{}

/// What arrives is the greeting, then one peer, which isn't the node itself, and then messages: as much of that as
/// came.
pub fn arrivals_are_in_order()
    ensures { (own : PeerId) (o : List ℕ) → IsInOrder own (arrivals own o) }
{}

/// READY that is whole and passes introduces its peer.
pub fn ready_introduces()
    ensures { (own : PeerId) (o : List ℕ) → has_ready own o ≡ true → Introduced own (arrivals own o) }
{}

/// Who was introduced stays so.
pub fn identity_stays()
    ensures { (own : PeerId) (o more : List ℕ) (peer : PeerId) → identity_in (arrivals own o) ≡ Some peer
        → identity_in (arrivals own (o ++ more)) ≡ Some peer }
{}

/// Of what a node says, in whichever order its greeting, its READY and its messages come, just this arrives: where the
/// greeting is first and READY next, every message, as it was spelled, up to a further greeting; a further READY is
/// skipped, and all else that is out of place is a fault.
pub fn just_whole_parts_are_heard()
    ensures { (own id : PeerId) (us : List Utterance) → length id.0 ≡ 16 → AllByRecursion IsHearable us
        → arrivals own (stream id us) ≡ heard own id us }
{}
