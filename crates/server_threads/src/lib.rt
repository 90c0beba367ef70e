//! The threads of a server: one writes, and each session has its own.
//!
//! `specs/Served.antt` says what the life of a server leaves, by one record, `WasServed`, whatever its sessions do. There is one order of the
//! commands that were taken, a legal history from the state that the store was opened with. The store that is given back holds what a
//! prefix of it makes, which is all of it after an `Ok`, and a crash at any moment leaves what a prefix makes, at the end of a batch. Each command
//! that a desk answered as taken has its place in the order, with its revision, and what stands there is what the rule of acceptance takes for
//! just this command; for each point in a desk's exchanges there was a moment from which on no crash takes away what was acknowledged by
//! then: that at which a commit had ended, of the last batch that the desk was told of. And nothing else was ordered: the order is as long as what the seats of the desks counted. A seat counts each command that its desk
//! answered as taken, perhaps some of those that it answered `StoreFailed`, and nothing else.
//!
//! A server begins (`begin` in `life.rt`) with a flusher and a board from `start`, a hub of that board, and all seats. `make_ready` makes a desk
//! at the hub for each seat for which there is a viewer. `hold_beside` holds whatever sessions it is given beside the thread that writes,
//! by `flush_all` of `turns`, and this one beside the composers of milestones, where it gets a thread for them. When the sessions at these desks
//! have ended the desks are tallied, and the hub is ended by the tally of all its seats (`Closing::close` in `desks.rt`), so not before; the flusher
//! writes what is left. Then the hub gives its board back: the board owns the order, and its seats have counted all of it. The thread that writes is asked for before anybody is served. Where the system gives none,
//! nobody is, and the store comes back unchanged.
//!
//! `serve_on` holds sessions over the connections of a listener, by `serve_desks` of `sockets`, and `serve_streams` one over a pair of streams,
//! by `serve_session` of `serving`. A `Watch` is told when somebody can be served, what becomes of connections, and of a store that fails,
//! when it does; it may end the serving. Of streams
//! `specs/Streams.antt` says what was written. Over connections the visits are given back, desk by desk, and those who were turned away
//! (`Attendance` of `sockets`): each desk was asked just what the conversations of its visits ask (`specs/Connections.antt`), and after an `Ok` all
//! are there who came by the listener's calls. Lives of a server follow one another, each on what a crash left of the one before: `laws` says what
//! holds over all of them.
//!
//! Callers, which `test_server_threads` proves:
//!
//! ```text
//! ghost use Rattle.std.specs.Prelude.{◌≡◌, true, IfOk, is_ok};
//! ghost use Rattle.recovery.specs.Open.{state_of};
//! ghost use Rattle.sockets.specs.Attendance.{visits_of};
//! ghost use Rattle.server_threads.specs.Connections.{EachHasServed};
//! ghost use Rattle.server_threads.specs.Served.{WasServed};
//! ghost use Rattle.server_threads.specs.Streams.{ByOne, EndsAtHub};
//!
//! use disk::Disk;
//! use recovery::Store;
//! use refusal::Refusal;
//! use server_threads::{Attendance, Connected, Streamed, Watch, serve_on, serve_streams};
//! use serving::Input;
//! use session::Output;
//! use sockets::Listen;
//! use std::alloc::Global;
//! use std::sync::Wait;
//! use std::thread::Threads;
//! use std::time::Clock;
//!
//! /// Serves a store until the listener fails, with milestones at about every 256 revisions, and gives it back where all that was
//! /// ordered is written, with those who came: all of them, by the listener's calls.
//! pub fn serve_store<R: Threads + Wait + Clock + Sync, N: Listen, D: Disk + Send + Drop, W: Watch<D>>(
//!     rt: &R,
//!     alloc: Global,
//!     store: Store<D>,
//!     listener: N,
//!     watch: &W,
//! ) -> Result<(Store<D>, Attendance), Refusal>
//!     ensures served { IfOk result (λ after. WasServed (EachHasServed (state_of store) (visits_of after.1)) true store after.0) }
//!     ensures complete { IfOk result (λ after. after.1.is_complete ≡ true) }
//! {
//!     let Connected {
//!         store,
//!         listener: _,
//!         attendance,
//!         served,
//!     } = serve_on(rt, alloc, store, listener, 256, 0, watch);
//!     served?;
//!     Ok((store, attendance))
//! }
//!
//! /// Serves one session over a pair of streams: its output is the replies to its input, and the store holds all that its desk acknowledged.
//! pub fn serve_session<
//!     R: Threads + Wait + Sync,
//!     I: Input + Drop,
//!     O: Output + Drop,
//!     D: Disk + Send + Drop,
//!     W: Watch<D>,
//! >(
//!     rt: &R,
//!     alloc: Global,
//!     store: Store<D>,
//!     input: I,
//!     output: O,
//!     watch: &W,
//! ) -> Streamed<I, O, D>
//!     ensures { WasServed (ByOne (EndsAtHub result.served (state_of store)
//!         (I.remaining input) (I.remaining result.input) (O.contents output) (O.contents result.output)
//!         (I.has_failed result.input) (O.has_failed result.output))) (is_ok result.served) store result.store }
//! {
//!     serve_streams(rt, alloc, store, input, output, 256, watch)
//! }
//! ```
#![tactic(auto)]

mod beside;
mod connections;
mod desks;
pub mod laws;
mod life;
mod moments;
mod seated;
mod streams;
mod watch;
mod writing;
mod written;

pub use connections::{Connected, serve_on};
pub use flusher::Moment;
pub use hub_desk::Counters;
pub use sockets::{Attendance, Peers};
pub use streams::{Streamed, serve_streams};
pub use watch::Watch;
