//! The real network as a [`World`](zre_outside::World): UDP for beacons, a TCP listener for the mailbox, a connection
//! for each peer that comes, a link for each peer that the node goes to, and the clock, over `mio`'s poll.
//!
//! # Calling
//!
//! ```text
//! let mut world = RealWorld::new(rt, rt.alloc());  // takes no memory, opens nothing
//! world.start(&start)?;                            // binds; from here on `next` gives turns
//! match world.next(None)? {
//!     Turn::Entry(entry) => ..,                    // something came, or a Tick
//!     Turn::Look => ..,                            // look for a command, and hand it to `next(Some(command))`
//! }
//! world.act(&act)?;                                // never waits; what fails comes back as a later entry
//! world.offer(link, bytes)?;                       // `Took` tells how many octets went out
//! ```
//!
//! - A Tick comes at once and then each `interval` milliseconds; Ticks that were missed aren't made up for.
//! - A look comes after 20 milliseconds at most in which nothing came, after 64 entries or 64 KiB at most, and again at
//!   once after each command. After 64 commands in a row what the sockets have comes first. With nothing to do the call
//!   waits in the poll, which is asked after each look.
//! - A connect that fails is tried again after 100 milliseconds, doubling to 2 seconds and up to a quarter less by
//!   chance, for 30 seconds; then the link has failed and `Unlinked` comes, as it comes at once for a link that
//!   stood. An endpoint whose link was closed is dialed again after as long. At most 32 links are dialed at the same
//!   time.
//! - Shares: from one address 64 connections are opened at once and then 20 a second; further ones wait, accepted and
//!   unread, 128 in all, and one address has at most 128, those that wait included. From one address 64 beacons are
//!   given at once and then 31 a second. One address has at most 128 links, of which 32 are tried again.
//! - At the third of closings of links to an endpoint, each within 10 seconds of the one before, connections of its
//!   address begin to wait, accepted and unread, until a link to it has stood for 200 milliseconds, and 3 seconds at
//!   most. So a peer that greets anew whenever it is greeted doesn't go on for ever.
//! - Turns: a connection or a link gives at most 16 KiB at a time. One that gave so much since it last had nothing
//!   waits behind those that gave less, and has one turn in five while there are such.
//! - A world with a [`Bell`] looks at once where it is rung. `Ringer::with_bell` makes the bell and what rings it;
//!   [`Ringing`] is a source that rings before each read, when what the last read gave has been put where the looks
//!   find it. After much input it waits there until a look found nothing, so that who puts commands needn't try again
//!   and again. Several sources may ring one bell.
//! - An [`Alarm`] is raised by who fails: [`Alarming`] is a sink, a recorder or a world that raises it where a call is
//!   refused, and a sink that raises it at a write of no octets, too. [`Heeding`] is a source that waits for its input
//!   and the alarm at the same time, and is at its end once that was raised. So nobody waits for input in vain.
//!   [`Observed`] is such an object for any [`Observer`].
//! - A [`TcpDesk`] gives at most so many clients, then closes its listener, so that a further one is refused. Where
//!   there is no descriptor for one it fails. Each client's source rings, and heeds the alarm.
//! - `RealWorld::reserve` takes the mailbox's port before the start.
//! - Pieces and replies have at most 16,384 octets, datagrams 65,536. Connections are numbered from 1 in the order in
//!   which they came.
//! - A write to a link or a connection whose peer is gone is an error of that call and no signal: std sends with
//!   `MSG_NOSIGNAL`. A connection and a link send without delay (`TCP_NODELAY`).
//! - `Failed` says that the clock, the poll, the UDP socket or the listener failed, that no two more sockets could be
//!   had at the start, or that the world wasn't started. `reason` tells which of them, and why.
//!
//! # What is proved, and what is tested
//!
//! Proved, beside safety: the contracts of `World`. A command comes back as the entry to do it, `looked` says whether
//! the last turn was a look, and the count of faults rises in the calls that are answered with `Failed` and in no
//! others. A look comes again after each command and after 64 entries (clauses `look` and `since_look` of
//! `next`). What a turn says of sockets is told by no clause (`told` is `None`), since no contract says what a system
//! answers. Proved of the parts: the readings of the clock never fall, when a Tick is due and how long the poll waits,
//! a token of the poll names its source, what comes of a connection or a link is an entry of just that one, and when
//! something is tried again, waits, is counted, may happen once more, or has its turn. Of a bell nothing is proved but
//! that a source which rings reads what the one under it gives; of an alarm, that what raises it does what the object
//! under it does, and that a source which heeds it reads what the one under it gives, or has ended for good. Tested
//! over loopback: the rest of the list above, each kind of entry, and that a failing bind fails at once.
#![tactic(auto)]

mod alarm;
mod arrivals;
mod beacons;
mod bell;
mod bucket;
mod conn;
mod entry_source;
mod errors;
mod fabric;
mod heeding;
mod hold;
mod link;
mod links;
mod network_fault;
mod notifier;
mod observed;
mod pace;
mod polled;
mod polled_sockets;
mod prepared;
mod read_buffer;
mod real_world;
mod redial;
mod retry;
mod shares;
mod since_look;
mod sockets;
mod source_queue;
mod stopwatch;
mod tcp_desk;
mod turns;

pub use alarm::{Alarm, Alarming};
pub use bell::{Bell, Ringer, Ringing};
pub use errors::{ErrorClass, class_of};
pub use heeding::Heeding;
pub use network_fault::{Reason, SystemPart};
pub use observed::{Observed, Observer};
pub use real_world::RealWorld;
pub use tcp_desk::{TcpClient, TcpDesk};
