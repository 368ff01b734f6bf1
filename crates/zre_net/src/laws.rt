//! Laws of what schedules mean. The functions do nothing: what they ensure is for proofs.

ghost use Rattle.std.specs.Prelude.{◌≡◌, ◌≤◌, ◌++◌, ◌∷◌, ℕ, List, [], None, length, take};
ghost use Rattle.zre_msg.specs.declared.message.Message.{Message};
ghost use Rattle.zre_outside.specs.declared.entry.Entry.{Entry};
ghost use Rattle.zre_values.specs.declared.settings.Settings.{Settings as Config};
ghost use Rattle.zre_journal.specs.Cutting.{piece};
ghost use Rattle.zre_node.specs.declared.node.Node.{Node};
ghost use Rattle.zre_node.specs.Journal.{StandsFor};
ghost use Rattle.zre_net.specs.Agreement.{CarryFew, HandsInOrder, IsWithinWindow, IsAgreed};
ghost use Rattle.zre_net.specs.Answer.{bad_move};
ghost use Rattle.zre_net.specs.Example.{IsExample};
ghost use Rattle.zre_net.specs.History.{Happening};
ghost use Rattle.zre_net.specs.Joined.{IsJoined};
ghost use Rattle.zre_net.specs.Numbers.{Route, queued_on};
ghost use Rattle.zre_net.specs.Reading.{bad_line, moves_of};
ghost use Rattle.zre_net.specs.Restart.{IsRestart};

/// Of a text that is too long no more than its first 16,777,217 octets have to be looked at.
pub fn long_texts_are_refused_early()
    ensures { (text : List ℕ) → bad_line (take 16777217 text) ≡ bad_line text }
{}

/// A text without a bad line has at most 16,777,216 octets.
pub fn schedules_are_short()
    ensures { (text : List ℕ) → bad_line text ≡ None → length text ≤ 16777216 }
{}

/// What was put on a link stays, whatever comes: more may come after it.
pub fn links_only_grow()
    ensures { (s : Route) (h : Happening) (H : List Happening) → (more : List Message)
        × (queued_on s (h ∷ H) ≡ queued_on s H ++ more) }
{}

/// Two nodes, and a message that is left out or not.
pub fn an_example_computes()
    ensures { IsExample }
{}

/// What a crashed node had put on its links may still come, and a later start of it takes over.
pub fn a_restart_computes()
    ensures { IsRestart }
{}

/// A node that was told octets in two pieces at one reading stands for the journal that has them in one.
pub fn a_cut_piece_is_a_whole_one()
    ensures { (g : Config) (J : List Entry) (at c : ℕ) (a b : List ℕ) (n : Node) →
        StandsFor g (J ++ piece at c a ∷ piece at c b ∷ []) n → StandsFor g (J ++ piece at c (a ++ b) ∷ []) n }
{}

/// The pieces that come on a connection, joined, are a front of the spellings of what it was made to carry, in that
/// order and each once: what is left of them is what it has yet to hand in. So it is after each part of a schedule.
pub fn pieces_are_a_front_of_what_is_carried()
    ensures { (lines : List (List ℕ)) → bad_move (moves_of lines) ≡ None → HandsInOrder (moves_of lines) }
{}

/// Network agreement: in a schedule within the window, what a node shows of another that one of its connections runs is
/// what that one was, by its own account, as it queued the last message that was processed.
pub fn nodes_agree()
    ensures { (lines : List (List ℕ)) → bad_move (moves_of lines) ≡ None → IsAgreed (moves_of lines) }
{}

/// A schedule in which no connection carries more than 65,535 messages, nor one past the 65,535th of its link, is
/// within the window.
pub fn few_messages_are_within_the_window()
    ensures { (H : List Happening) → CarryFew H → IsWithinWindow H }
{}

/// Two nodes that agree, at a moment at which the one is in another group than as it spoke.
pub fn an_agreement_computes()
    ensures { IsJoined }
{}
