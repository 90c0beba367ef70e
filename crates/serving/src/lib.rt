//! The loop of a session, and a session over a pair of streams, by any desk.
//!
//! `serve_pieces` is the loop. An input comes in pieces (`Pieces`), and says where it is cut and why it ends. In each turn a piece is fed to the
//! session, the news are told where the input is cut behind it, and all that was written is sent on before the next piece is read. The output is the
//! replies to the pieces, made with the answers of the desk, and the news of the turns (`specs/Turns.antt`).
//!
//! `serve_session` serves a stream, cut behind each line (`lines.rt`): the replies to a line and the news after it are out before the next one
//! is taken (`specs/Serving.antt`). A `ServingError` is why a program ends before its end. The input of a connection is in `sockets`.
//!
//! An `Input` is what it reads from, as session's `Output` is what it writes to: it knows whether a read has failed, so that no caller is told
//! of a stream that failed where none did.
//!
//! It stands on `session` for lines and replies.
//!
//! A caller, with its contract, which is proved as it stands:
//!
//! ```text
//! ghost use Rattle.std.specs.Prelude.{◌≡◌, false, OnOk};
//! ghost use Rattle.std.specs.Io.KnownBytes.{IsAtEnd};
//!
//! use serving::{Input, ServingError, serve_session};
//! use session::{Desk, Output, Session, Shelf};
//! use std::alloc::Global;
//! use std::sync::Wait;
//!
//! /// Serves a whole session, from its beginning to the end of the input. Then all that was written is sent on.
//! pub fn serve_whole<R: Wait, K: Desk, I: Input, O: Output>(
//!     rt: &R,
//!     alloc: Global,
//!     desk: &mut K,
//!     input: &mut I,
//!     output: &mut O,
//! ) -> Result<(), ServingError>
//!     ensures at_end { OnOk result (IsAtEnd (I.remaining input.new)) }
//!     ensures sent { OnOk result (O.has_failed output.new ≡ false) }
//! {
//!     let mut session = Session::new(alloc)?;
//!     let mut shelf = Shelf::new(alloc)?;
//!     serve_session(rt, alloc, &mut session, desk, &mut shelf, input, output)
//! }
//! ```
#![tactic(auto)]

mod failure;
mod input;
mod lines;
mod pieces;
mod serve;
mod streams;

pub use failure::ServingError;
pub use input::{Input, InputError, InputStream};
pub use pieces::Pieces;
pub use serve::serve_pieces;
pub use streams::serve_session;
