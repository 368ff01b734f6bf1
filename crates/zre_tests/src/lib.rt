//! Tests of what rows of data can't show (`zre_rows` runs those): threads, pipes, sockets and files, over public
//! calls alone. They stand in a crate of their own, so that no crate below is proved a second time for its tests.
#![tactic(auto)]

#[cfg(test)]
mod adapters;
#[cfg(test)]
mod callers;
#[cfg(test)]
mod chats;
#[cfg(test)]
mod driven;
#[cfg(test)]
mod gates;
#[cfg(test)]
mod network;
#[cfg(test)]
mod pipes;
#[cfg(test)]
mod runs_beside;
#[cfg(test)]
mod shared_table;
#[cfg(test)]
mod terminal;
#[cfg(test)]
mod two_nodes;
