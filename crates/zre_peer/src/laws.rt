//! Laws of runs. The functions do nothing: what they ensure is for proofs.

ghost use Rattle.std.specs.Prelude.{◌≡◌, ℕ, ◌<◌, List, length, take, true};
ghost use Rattle.std.specs.List.{range_with_len};
ghost use Rattle.zre_msg.specs.declared.message.Message.{Message};
ghost use Rattle.zre_peer.specs.Ledger.{IsNumbered, IsPicked, IsNear, ArePicked, AreNear, Follows};
ghost use Rattle.zre_peer.specs.Runs.{in_order};

/// Of a sender's numbered list a run takes the next message, unless the view after it would pass a limit, and no other
/// that lies fewer than 65536 places from it: a missing, repeated or reordered one is refused, with its cause.
pub fn the_next_of_a_list_is_taken()
    ensures { (sent ms : List Message) (pick : ℕ) (m : Message) → IsNumbered sent → IsPicked sent pick m
        → (0 < length ms → IsNear (length ms) pick) → Follows ms pick m }
{}

/// What a run takes of such a list is its beginning, message by message.
pub fn a_run_is_the_beginning_of_its_list()
    ensures { (sent : List Message) (picks : List ℕ) (ms : List Message) → IsNumbered sent → ArePicked sent picks ms
        → AreNear 0 (take (length ms) picks) → in_order ms ≡ true
        → (take (length ms) picks ≡ range_with_len 1 (length ms)) × (take (length ms) sent ≡ ms) }
{}
