//! The board that many sessions order their edits on, and from which one flusher takes batches; and the hub, which is that board
//! behind its lock.
//!
//! A `Board` is the value behind the lock. It owns the run's order (`published::Order`), which is a legal history from the state that the
//! store was opened with, and its state is the fold of that order; no more of it is settled than is taken off, the published batches that it
//! was told of are the prefix that is settled, and its order is as long as what its seats have counted. This holds whenever the lock is
//! free, by its type. Each call moves the board as the definition of that step in `world` says (specs/Legal.antt, specs/Runs.antt). What is
//! settled was committed: `Board::settle` wants the receipt of a commit, which a store alone makes, and the token of a publish.
//!
//! A `Ticket` has a token of the order up to its length, in which its command has its place as the rule of acceptance says
//! (specs/Placed.antt). So by the token of what is published alone, without the board, its order is a prefix of that (`Ticket::stands`).
//!
//! A `Found` is what the commands of one who submits have found of the order. `Hub::submit_after` answers a command by an order that has all
//! that first, and all that was published by the token that it is lent (`IsSubmittedAfter`, specs/Found.antt): a ticket is of just that
//! order, and a refusal is what the rule of acceptance answers after it.
//!
//! What `take` takes off is a `Run`, which nothing else makes and nobody can change: so a flusher can only hold what a board took off. It
//! isn't `Drop`: it ends by the receipt of its commit, with its store, or where it has no command. Where it follows what is published, it
//! gives the token of the order by which it is published (`Run::goes_on`).
//!
//! Beside the first of its commands a run has the documents as they leave them, on what is published before it (`Run::made`,
//! `Run::committed`; `AreMade` of revision). The board keeps a copy of each as it takes the command, which shares the chunks with its own
//! document: so whoever adds the run to a state needn't apply an edit again. Where memory runs out for a copy, or many or long texts would be
//! held, the commands from there on have none, until all before them are taken off.
//!
//! What is the flusher's, to take, to settle, to wait for work and to fail, asks for a hub's `Writer`, and to end it or to give its seats
//! out for its `Closer`: `Hub::new` gives one of each, which can't be copied, so that no session's desk can do any of it. To end a hub
//! its caller shows besides that all seats of the life are tallied (`Tally`): so it ends only where nobody can submit any more. To fail
//! a board a `Cause` is used up besides, which only who has the life's log of what is published makes, of a store that has failed or is full for
//! good: that is the life's flusher. The hub's own calls
//! can't either: what lies under the lock stands in a module of its own (src/locked.rt), which lends the board for reading alone, and asks for
//! the same rights. So `Hub::submit` can't take, settle, fail, end or give a seat, and `Hub::wait_work`, which is lent a `Writer` alone,
//! can't end. `Hub::into_board` takes both back, so a board has one of each at a time.
//!
//! The `Writer` counts how many commands are taken off and how many are settled, by ledgers of the life whose books lie under the lock
//! (`published::Ledgers`). No other thread changes either, so its counts are the board's. A third ledger has that `wait_work` told it that the
//! hub was ended with nothing left to take off: so the board that `into_board` gives back has all of its order taken off then (`IsCountedBy`). By
//! them each run that is taken off comes next after those before it, and what comes next is settled: `Hub::settle` refuses nothing (`ComesNext`,
//! specs/Runs.antt).
//!
//! Some answers are tokens that nothing else makes: `Settled` where a batch was settled, `Failed` where the hub was told of a failure,
//! `Work` where a command isn't taken off, `Idle` where the hub was ended and nothing is left to take, `Ended` where it was ended, `Nothing`
//! where a run was taken off empty, `Stopped` where a board had failed or a hub had ended, and so no command is submitted. Whoever answers
//! with one had it of such a call, this one or an earlier one.
//!
//! A `Hub` is shared by threads: sessions submit and wait for their acknowledgements, and one flusher takes batches, writes them with
//! the board unlocked, and settles them. After it has let the lock go, `settle` tells the places of the seats whose tickets are covered, and
//! wakes them with one call (specs/Waiting.antt; the head of src/hub.rt says why nobody sleeps past that). Once the end was called nothing
//! more is submitted.
//!
//! A caller, with its contract, which `test_hub` proves as it stands:
//!
//! ```text
//! ghost use Rattle.std.specs.Prelude.{◌≡◌, IfOk};
//! ghost use Rattle.recovery.specs.Found.{commands_of};
//! ghost use Rattle.hub.specs.Placed.{StandsFirst};
//!
//! use hub::{Hub, Seat, Ticket};
//! use published::{Life, Told};
//! use refusal::Refusal;
//! use revision::Command;
//! use std::alloc::Global;
//! use std::sync::Wait;
//!
//! /// Submits a command, and waits until its reply may be given: the token that comes with it has the ticket's order first.
//! pub fn submit_and_wait<D, L: Life, R: Wait>(
//!     rt: &R,
//!     alloc: Global,
//!     hub: &Hub<D, L>,
//!     seat: &mut Seat<L>,
//!     command: &Command,
//! ) -> Result<(Ticket<L>, Told<D, L>), Refusal>
//!     ensures command { IfOk result (λ done. done.0.command ≡ command.now) }
//!     ensures stands { IfOk result (λ done. StandsFirst L.start done.0 (commands_of done.1)) }
//! {
//!     let ticket = match hub.submit(rt, alloc, seat, command) {
//!         Ok(ticket) => ticket,
//!         Err(why) => return Err(why.refusal()),
//!     };
//!     match hub.wait_ack(rt, &ticket) {
//!         Ok(told) => Ok((ticket, told)),
//!         Err(stopped) => Err(stopped.refusal()),
//!     }
//! }
//! ```
//!
//! The crate stands on `world`, on `revision`, on `document` for what commands leave, on `journal` for the width of a batch, on `recovery`
//! for receipts and on `published` for the tokens of what was published.
//!
//! # What isn't promised
//!
//! - What a hub's call did to the board under the lock, but for what its writer counts: no clause can name the board at that moment. The tokens that it moves say
//!   some of it (a ticket, a seat's count, a `Told`, a `Found`), and tests the rest. That a command has its place in the order a ticket says.
//!   `Hub::submit_after` refuses by a prefix of the order that has all that its caller was told and had found; whether more was
//!   ordered by then no clause says, nor that memory is short where it says so. Of a refusal of `Hub::submit` it is said only that some legal
//!   history from the run's start makes a board that gives it. That the store has failed both say by a token alone.
//! - That a thread which waits is ever woken.
//! - That a ticket is asked for at the board that gave it. A seat and a token are of one run by their types.
#![tactic(auto)]

mod ahead;
mod board;
mod cause;
mod found;
mod hub;
mod locked;
mod place;
mod run;
mod seat;
mod submit_error;
mod tokens;
mod waiting;

pub use ahead::Ahead;
pub use board::Board;
pub use cause::Cause;
pub use found::Found;
pub use hub::Hub;
pub use locked::{Closer, Writer};
pub use run::Run;
pub use seat::{Seat, Tally, Ticket};
pub use submit_error::SubmitError;
pub use tokens::{Ended, Failed, Idle, Nothing, Settled, Stopped, Work};
