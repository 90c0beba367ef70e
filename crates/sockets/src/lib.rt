//! Sessions over TCP: a thread for each desk, which serves one connection after another.
//!
//! `serve_desks` takes connections from a listener and hands each to a desk that is free, in the thread of that desk. A connection has a
//! session of its own, in the loop of `serving`: its input is cut behind each read (`reads.rt`), so that what comes in one read is fed at
//! once, the news are told after each read and after each 100 milliseconds in which nothing came, and all that was written then leaves at
//! once. A peer that takes no byte of what is written to it holds up its own desk alone, and is closed: a write that took no byte in 5 seconds fails. One that took some is followed by another
//! one, and the system takes a little more where it seemed full, so that this comes about after 5 to 15 seconds. A peer that is idle for as
//! many seconds as were asked for is closed (`specs/Idle.antt`), which is counted by the reads in which nothing came: bytes of a line that
//! has no end neither count nor begin anew. An error of the listener is waited out, but for those by which it can't work any more
//! (`accepting.rt`). Then, and where the watch ends it, each session ends within 100 milliseconds, in a read or a write. Those who came by then and
//! weren't given to a thread are closed. A
//! `ListenerWatch` is told how many desks got a thread, before anybody is taken, what became of the connections, and why the listener ended.
//!
//! A caller, with its contract, which is proved as it stands:
//!
//! ```text
//! ghost use Rattle.std.specs.Prelude.{◌∷◌, [], IfOk};
//! ghost use Rattle.sockets.specs.Attendance.{visits_of};
//! ghost use Rattle.sockets.specs.Desks.{HaveServedInHall};
//!
//! use session::Desk;
//! use sockets::{Attended, Listen, ListenerWatch, serve_desks};
//! use std::alloc::{AllocError, Global};
//! use std::sync::Wait;
//! use std::thread::Threads;
//! use std::time::Clock;
//!
//! /// Serves one connection after another by a single desk, until the listener fails. What it exchanged is what the conversations of its visits
//! /// ask.
//! pub fn serve_in_turn<
//!     K: Desk + Send + Drop,
//!     R: Threads + Wait + Clock + Sync,
//!     N: Listen,
//!     W: ListenerWatch,
//! >(
//!     rt: &R,
//!     alloc: Global,
//!     desk: K,
//!     listener: N,
//!     watch: &W,
//! ) -> Result<Attended<K, N>, AllocError>
//!     ensures { IfOk result (λ after. HaveServedInHall K.does (desk ∷ []) (visits_of after.attendance) after.desks.items) }
//! {
//!     let mut desks = Vec::new(alloc);
//!     desks.push(desk)?;
//!     Ok(serve_desks(rt, alloc, desks, listener, 0, watch)?)
//! }
//! ```
//!
//! # What is proved
//!
//! Each call of the system on the listener and on a connection is made in one file, `raw.rt`, and noted with what came of it, where clauses
//! read it alone (`specs/Socket.antt`). A conversation is said of these notes (`specs/Desks.antt`, `IsConversation`): what was written to a peer is the
//! replies to the bytes that were read from it, in order, and the news after each read, also one that waited in vain; it ended since the
//! peer sends nothing more, since a read or a write failed, since the peer was idle for a second or longer, since it took no byte in 50 writes, since
//! the hall had ended, or since there was no memory for a session, before anything was read or written; and where it ended in a write, a prefix of what was due is
//! written. `serve_desks` gives its desks back in their order, each with the visits of those whom it served: it was asked just what their
//! conversations ask, one after another. No more connections wait than the lobby counts as free threads (its own invariant), and a shelf stays right
//! of what its desk shows.
//!
//! A visit is what a connection was asked that is closed: `raw.rt` alone makes one, of a connection, and a list of visits, of such. Each peer has
//! a part of a ledger (`door.rt`), which its visit brings back, or its turning away. So where all parts are back, nobody was dropped, and the visits are as many
//! as came by the listener's calls (`specs/Attendance.antt`). Of those who were turned away nothing was read, and nothing was written to them.
//! The hall's end, which cuts conversations, asks for a door that is shut, of the ledger that was named when the hall was made, and a door that is
//! shut lets nobody in. That the hall's guests come by that door, and that no other call ends the hall, is the code.
//!
//! Tested, since no clause says it: that a connection is served where a desk is free, and that places are given again. So is which error of the listener is
//! waited out: the listener is a parameter, so that a test can give one that fails. What `raw.rt` notes is what the system answered: its few lines are to be read.
#![tactic(auto)]

mod accepting;
mod attendance;
mod begun;
mod connection;
mod conversation;
mod desks;
mod door;
mod guests;
mod hall;
mod lobby;
mod outgoing;
mod parting;
mod patience;
mod pause;
mod raw;
mod reads;
mod talk;
mod threads;
mod watch;

pub use attendance::{Attendance, Attended};
pub use desks::serve_desks;
pub use raw::{Addresses, HostListener, HostPeer, Listen, SocketNotes, Visit, Visits};
pub use watch::{ListenerWatch, Peers};
