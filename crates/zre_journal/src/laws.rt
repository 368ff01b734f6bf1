//! Laws of what journals mean. The functions do nothing: what they ensure is for proofs.

ghost use Rattle.std.specs.Prelude.{◌≡◌, ℕ, ◌≤◌, ◌<◌, ◌++◌, ◌∷◌, [], true, List, length, Some};
ghost use Rattle.std.specs.List.{list_any, AllByRecursion};
ghost use Rattle.zre_outside.specs.declared.entry.Entry.{Entry};
ghost use Rattle.zre_outside.specs.declared.entry.Input.TheVariants.{Tick};
ghost use Rattle.zre_journal.specs.Endings.{is_end};
ghost use Rattle.zre_values.specs.declared.settings.Settings.{Settings as Config};
ghost use Rattle.zre_journal.specs.Asked.{AreDue};
ghost use Rattle.zre_journal.specs.Causes.{EndsByTable};
ghost use Rattle.zre_journal.specs.Chronicle.{Mark};
ghost use Rattle.zre_journal.specs.Events.{acts, acts_after, chronicle, events};
ghost use Rattle.zre_journal.specs.Asked.{held_after, bound_after};
ghost use Rattle.zre_journal.specs.Config.{CanBe};
ghost use Rattle.zre_values.specs.Settings.{is_valid};
ghost use Rattle.zre_journal.specs.Held.{Within};
ghost use Rattle.zre_journal.specs.Introducing.{Introduces};
ghost use Rattle.zre_journal.specs.Happens.{has_stopped};
ghost use Rattle.zre_journal.specs.Closing.{LeavesNothing, ArePaired, IsNoPeer};
ghost use Rattle.zre_mailbox.specs.declared.arrival.Arrival.TheVariants as arrival;
ghost use Rattle.zre_mailbox.specs.Talk.{Arrived};
ghost use Rattle.zre_mailbox.specs.Utterances.{IsReadable};
ghost use Rattle.zre_msg.specs.declared.message.Message.{Message};
ghost use Rattle.zre_peer.specs.Ledger.{IsNumbered, IsPicked, IsNear};
ghost use Rattle.zre_journal.specs.Connections.{runs};
ghost use Rattle.zre_journal.specs.Keeping.{Keeps};
ghost use Rattle.zre_journal.specs.Ledger.{Ledger, IsDrawn, IsPlaced, IsWithinWindow, KeepsLedger, IsJudged};
ghost use Rattle.zre_journal.specs.Ledger.{IsNearWhereItComes, KeepsLedgers};
ghost use Rattle.zre_journal.specs.Places.{Arrives};
ghost use Rattle.zre_journal.specs.Peers.{counted};
ghost use Rattle.zre_journal.specs.Standing.{KnownIsBorn, OpenIsOpened};
ghost use Rattle.zre_journal.specs.Isolation.{Isolates};
ghost use Rattle.zre_journal.specs.Leaks.{LeaksNothing};
ghost use Rattle.zre_journal.specs.Obeying.{Obeys};
ghost use Rattle.zre_journal.specs.Silence.{TellsSilence};
ghost use Rattle.zre_journal.specs.Tables.{TellsByTables};
ghost use Rattle.zre_journal.specs.Told.{told_in};
ghost use Rattle.zre_journal.specs.Answering.{AnswersInTurn};
ghost use Rattle.zre_journal.specs.Outgoing.{GoesOutInOrder};
ghost use Rattle.zre_journal.specs.Laws.{Continues, HasEnded, RunsAlone, AreStrangers, AreFew, EndsOnce};
ghost use Rattle.zre_journal.specs.Laws.{ShowsItsMessages, StartsWhereItWaits};
ghost use Rattle.zre_journal.specs.Proper.{IsProper};
ghost use Rattle.zre_journal.specs.Links.{queued};
ghost use Rattle.zre_journal.specs.Speaking.{SpokeTruly};
ghost use Rattle.zre_journal.specs.Truth.{TellsTruth};
ghost use Rattle.zre_journal.specs.Hearing.{RunsOnOctets};
ghost use Rattle.zre_journal.specs.Cleaning.{IsClean};
ghost use Rattle.zre_journal.specs.Cutting.{IsSameCut};
ghost use Rattle.zre_journal.specs.Spoken.{AreInTurn, FollowsMessages};

/// What is told in the chronicle of a journal is just the journal's events, in order: those whose lines `replay`,
/// `chat` and `simulate` write.
pub fn what_is_told_are_the_events()
    ensures { (g : Config) (J : List Entry) → told_in (chronicle g J) ≡ events g J }
{}

/// The events of a journal begin those of every longer one, and so do its acts.
pub fn journals_continue()
    ensures { (g : Config) (J K : List Entry) → Continues g J K }
{}

/// After a stop nothing begins, ends, is told or is done.
pub fn a_stop_is_the_end()
    ensures { (g : Config) (J K : List Entry) → has_stopped (chronicle g J) ≡ true → HasEnded g J K }
{}

/// A node has stopped only where an entry tells it to: the journal's end, or a quit.
pub fn a_stop_is_told()
    ensures { (g : Config) (J : List Entry) → CanBe g → has_stopped (chronicle g J) ≡ true
        → list_any (λ e. is_end e.input) J ≡ true }
{}

/// What holds of the chronicle of every journal: links are numbered by births, nothing has come about on a new link or
/// connection, and a peer is run by one connection, its own.
pub fn journals_are_proper()
    ensures { (g : Config) (J : List Entry) → IsProper (chronicle g J) }
{}

/// A peer is run by one connection alone, which is open and has introduced itself as that peer.
pub fn a_peer_has_one_run()
    ensures { (g : Config) (J : List Entry) → RunsAlone (chronicle g J) }
{}

/// A run starts, and a connection is refused, only where the connection waits for its first message.
pub fn runs_start_where_a_connection_waits()
    ensures { (g : Config) (J : List Entry) → StartsWhereItWaits (chronicle g J) }
{}

/// No two open connections have introduced themselves as one peer.
pub fn identities_are_apart()
    ensures { (g : Config) (J : List Entry) → AreStrangers (chronicle g J) }
{}

/// No two known peers have one id. At most 256 peers are known, and at most 512 connections are open.
pub fn peers_and_connections_are_few()
    ensures { (g : Config) (J : List Entry) → AreFew (chronicle g J) }
{}

/// All that is told of a peer stands between an ENTER and the EXIT after it: an ENTER comes only where the peer isn't
/// in, and all else only where it is. A peer is in exactly where it is known and entered.
pub fn events_of_a_peer_are_in_turn()
    ensures { (g : Config) (J : List Entry) → AreInTurn (events g J) (chronicle g J) }
{}

/// What was told of an entered peer since its ENTER, but for EVASIVE, is what the messages that were counted on its
/// connection tell: all of them, each once and in their order.
pub fn events_follow_messages()
    ensures { (g : Config) (J : List Entry) → FollowsMessages (events g J) (chronicle g J) }
{}

/// A known peer ends at a place of the journal exactly where the table of causes has a cause for it there, with that
/// cause: no two hold at one place.
pub fn peers_end_by_the_table_of_causes()
    ensures { (g : Config) (J : List Entry) → EndsByTable g J }
{}

/// A peer ends at most once, so with one cause, and isn't known from then on.
pub fn a_peer_ends_once()
    ensures { (g : Config) (J : List Entry) → EndsOnce (chronicle g J) }
{}

/// The messages that were counted on a connection are in order: HELLO first, numbered 1, and each further one with the
/// number that is due and a view within the limits. The view of an entered peer that is known is what the messages
/// of the connection that runs it lead to.
pub fn views_follow_messages()
    ensures { (g : Config) (J : List Entry) → ShowsItsMessages (chronicle g J) }
{}

/// HELLO fits at any time: it has a spelling, within the limit of a message, and no new link is slow with it, whatever
/// groups the node has joined.
pub fn hello_fits()
    ensures { (g : Config) (J : List Entry) → CanBe g → Introduces g (chronicle g J) }
{}

/// Where a link is to be looked at, its peer is known and it has octets that may go out.
pub fn offers_are_due()
    ensures { (g : Config) (J : List Entry) (e : Entry)
        → AreDue g (chronicle g (J ++ e ∷ [])) (acts_after g (e ∷ []) (chronicle g J)) }
{}

/// What a node holds has a limit in each part, and so altogether one that its known peers and its open connections set:
/// below 2.3 GB with as many of both as there may be.
pub fn what_is_held_is_bounded()
    ensures parts { (g : Config) (J : List Entry) → CanBe g → Within g (chronicle g J) }
    ensures all { (g : Config) (J : List Entry) → CanBe g → held_after g J ≤ bound_after g J }
{}

/// The chronicle keeps its journal: its entries are the journal's, its clock is the greatest reading of them, and the
/// octets of a connection and the replies on a link are what they carried since it was opened and since it was up.
pub fn the_chronicle_keeps_the_journal()
    ensures { (g : Config) (J : List Entry) → Keeps J (chronicle g J) }
{}

/// A peer is known exactly where it was born and hasn't ended since.
pub fn known_is_born_and_not_ended()
    ensures { (g : Config) (J : List Entry) → KnownIsBorn (chronicle g J) }
{}

/// A connection is open exactly where it was opened and hasn't been closed since.
pub fn open_is_opened_and_not_closed()
    ensures { (g : Config) (J : List Entry) → OpenIsOpened (chronicle g J) }
{}

/// After a stop no peer is known, no connection is open, and STOP is the last event.
pub fn a_stop_leaves_nothing()
    ensures { (g : Config) (J : List Entry) → has_stopped (chronicle g J) ≡ true
        → LeavesNothing (events g J) (chronicle g J) }
{}

/// Acts pair up: links are connected under the numbers 1, 2, 3 and so on; each is closed at most once, after its
/// CONNECT; and each connection is closed at most once.
pub fn acts_pair_up()
    ensures { (g : Config) (J : List Entry) → ArePaired (acts g J) }
{}

/// The node's own identity is never that of a known peer or of a connection.
pub fn the_node_is_no_peer()
    ensures { (g : Config) (J : List Entry) → IsNoPeer g (chronicle g J) }
{}

/// What a node says of itself is true: on the link of a known peer HELLO is the first message and no other is, and who
/// reads all that was put there has the node's own name, endpoint, headers, groups and status.
pub fn a_node_tells_the_truth()
    ensures { (g : Config) (J : List Entry) → TellsTruth g (chronicle g J) }
{}

/// What was counted on a connection is a prefix of the messages that its octets say. Where it runs a peer, that is all
/// of them, and the octets have no fault.
pub fn a_run_is_its_octets()
    ensures { (g : Config) (J : List Entry) → RunsOnOctets g (chronicle g J) }
{}

/// After a tick no known peer was silent for the time after which it expires, and no open connection ran no peer for
/// that time.
pub fn a_tick_cleans_up()
    ensures { (g : Config) (J : List Entry) (e : Entry) → is_valid g ≡ true → e.input ≡ Tick
        → IsClean g (chronicle g (J ++ e ∷ [])) }
{}

/// A piece that is cut in two at the same reading brings about the same: the same is told, and the same is done but for
/// offers, which are made at the end of each entry.
pub fn any_cut()
    ensures { (g : Config) (J : List Entry) (at c : ℕ) (a b : List ℕ) → IsSameCut g J at c a b }
{}

/// Where the messages of a journal are drawn from ledgers, and each that was counted lay fewer than 65,536 places from
/// the one due, what was counted on a connection is the beginning of what was sent on it: no message is missing, came
/// twice or is out of order, and the view and the events of the peer are theirs.
pub fn a_ledger_is_kept()
    ensures { (g : Config) (J : List Entry) (b : Ledger) → IsDrawn g b (chronicle g J)
        → IsWithinWindow b (chronicle g J) → KeepsLedger b (events g J) (chronicle g J) }
{}

/// A message of a ledger that comes fewer than 65,536 places from the one due is counted where it is that one and the
/// view after it is within the limits; a missing, repeated or reordered one ends the peer at once, before anything
/// later of it.
pub fn a_gap_shows_at_once()
    ensures { (g : Config) (sent : List Message) (c l pick : ℕ) (m : Message) (K : List Mark) → IsNumbered sent
        → IsPicked sent pick m → runs c K ≡ Some l → 0 < length (counted l K) → IsNear (length (counted l K)) pick
        → IsJudged g c l pick m K }
{}

/// Messages that come near the one due are counted near it: where each that comes on a connection that runs a peer lies
/// fewer than 65,536 places from the one due, so did each that was counted after the first.
pub fn what_comes_near_is_counted_near()
    ensures { (g : Config) (J : List Entry) (b : Ledger) → IsDrawn g b (chronicle g J) → IsNearWhereItComes g b J
        → IsWithinWindow b (chronicle g J) }
{}

/// Where the messages of a journal are drawn from ledgers, and each comes fewer than 65,536 places from the one due,
/// those that were counted are the beginning of their ledger, and each that comes to a run is judged by its place.
pub fn ledgers_are_kept()
    ensures { (g : Config) (J : List Entry) → KeepsLedgers g J (events g J) }
{}

/// Where the messages of a journal are drawn from ledgers, each message that comes on a connection that runs a peer is
/// judged so by its place: m comes there at the moment K, and what comes of it is what the chronicle has next.
pub fn each_message_is_judged_by_its_place()
    ensures { (g : Config) (b : Ledger) (J : List Entry) (c l : ℕ) (m : Message) (K : List Mark)
        → IsDrawn g b (chronicle g J) → Arrives g J c (Arrived (arrival.Message m)) K → runs c K ≡ Some l
        → IsPlaced g b J c l m K }
{}

/// What a node said of itself was true, message by message: on each link, also that of a peer that is gone, who reads
/// the messages up to the n-th has the view of the node that was true as it put that one there, within the limits of a
/// view. So HELLO has the groups of the moment at which the link was made.
pub fn a_node_spoke_truly()
    ensures { (g : Config) (J : List Entry) → CanBe g → SpokeTruly g (chronicle g J) }
{}

/// Each message that a node puts on a link is read as it was spelled, and passes no limit.
pub fn messages_are_readable()
    ensures { (g : Config) (J : List Entry) (l : ℕ) → CanBe g
        → AllByRecursion IsReadable (queued l (chronicle g J)) }
{}

/// Nothing leaks: each Connect is followed by a CloseLink or an Unlinked of its link, or else its peer is known; each
/// Opened that is answered is followed by a CloseConn or a Shut of its connection, or else the connection is open; and
/// never both. So never more than 256 links and 512 connections are without an end.
pub fn nothing_leaks()
    ensures { (g : Config) (J : List Entry) → LeaksNothing g J }
{}

/// What comes on a connection, its opening and its end leave every peer alone but the one that the connection has
/// introduced itself as: whether and how it is known, its messages and view, when it was active, its link and what is
/// told of it are as before. Every other connection is as before, too, but one of that identity, which gives way once
/// the connection has introduced itself so. All that can come about is listed: for others it is that a connection of
/// the same identity gives way, that room is taken, that the next link has a greater number, and that the clock goes
/// on.
pub fn connections_are_isolated()
    ensures { (g : Config) (J : List Entry) → Isolates g J }
{}

/// A command is refused once, with the first reason that holds, and nothing else comes of it; or it isn't, and then
/// exactly what it is to send is put on the link of each known peer that it is meant for, once, or ends that peer as
/// slow, and nothing comes about on another link.
pub fn commands_are_obeyed()
    ensures { (g : Config) (J : List Entry) → Obeys g J }
{}

/// At a tick a peer of which nothing was heard for `expired`, by the journal's readings, is known no more, and told as
/// gone where it was entered; any other isn't told as gone for that, and nobody is but at a tick. So it goes at the
/// first such tick, unless it went for another cause before, and as expired at no earlier entry. One that was heard of
/// less than `evasive` before each tick is never told as evasive.
pub fn silence_is_told()
    ensures { (g : Config) (J : List Entry) → TellsSilence g J }
{}

/// A connection is told as closed at a place of the journal exactly where the table of closings has a reason for it
/// there, with that reason, and once; it is told as ignored, a peer is born and a known peer turns evasive exactly so.
pub fn tables_are_told()
    ensures { (g : Config) (J : List Entry) → TellsByTables g J }
{}

/// What is answered on a connection is the greeting as it opens, and then READY to its greeting and PONG to each PING
/// that its octets say, in their order and each once: all of them while it is live, and from then on a prefix of them.
pub fn answers_are_in_turn()
    ensures { (g : Config) (J : List Entry) → AnswersInTurn g J }
{}

/// What the outside took of what a link had to send, joined, begins the link's text, now and after whatever comes
/// later, and is as long as the chronicle says: nothing goes out twice, is passed over, or is changed after it went
/// out.
pub fn what_goes_out_is_the_text()
    ensures { (g : Config) (J K : List Entry) → CanBe g → GoesOutInOrder g J K }
{}
