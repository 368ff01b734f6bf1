//! What a journal means: which connections are open and which peers are known, what the node tells, and what it asks
//! of the outside. The definitions stand in `specs/`; a node's [`Config`] is the `Settings` of `zre_values`.
#![tactic(auto)]

mod laws;

pub use laws::{
    a_gap_shows_at_once, a_ledger_is_kept, a_node_spoke_truly, a_node_tells_the_truth,
    a_peer_ends_once, a_peer_has_one_run, a_run_is_its_octets, a_stop_is_the_end, a_stop_is_told,
    a_stop_leaves_nothing, a_tick_cleans_up, acts_pair_up, answers_are_in_turn, any_cut,
    commands_are_obeyed, connections_are_isolated, each_message_is_judged_by_its_place,
    events_follow_messages, events_of_a_peer_are_in_turn, hello_fits, identities_are_apart,
    journals_are_proper, journals_continue, known_is_born_and_not_ended, ledgers_are_kept,
    messages_are_readable, nothing_leaks, offers_are_due, open_is_opened_and_not_closed,
    peers_and_connections_are_few, peers_end_by_the_table_of_causes,
    runs_start_where_a_connection_waits, silence_is_told, tables_are_told,
    the_chronicle_keeps_the_journal, the_node_is_no_peer, views_follow_messages,
    what_comes_near_is_counted_near, what_goes_out_is_the_text, what_is_held_is_bounded,
};
pub use zre_values::Settings as Config;
