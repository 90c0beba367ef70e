//! Why a command isn't submitted.
ghost use Rattle.std.specs.Prelude.{◌≡◌};
ghost use Rattle.hub.specs.Given.{refusal_of, WasBy};

use crate::board::Board;
use crate::tokens::Stopped as Token;
use published::Life;
use refusal::Refusal;

/// Why a hub has no ticket for a command.
#[derive(Drop)]
pub enum SubmitError<L: Life> {
    /// The store had failed or the hub had ended, which a session gets as `StoreFailed`.
    Stopped(Token<L>),
    /// The board refused it.
    ByBoard(Refusal),
}

impl<L: Life> SubmitError<L> {
    // Why a board refused a command.
    pub(crate) fn by_board<D>(board: &Board<D, L, ()>, refusal: Refusal) -> SubmitError<L>
        ensures { WasBy board.now.failed refusal result }
    {
        if board.has_failed() {
            SubmitError::Stopped(Token::by_board(board))
        } else {
            SubmitError::ByBoard(refusal)
        }
    }

    /// The refusal that a session gets.
    pub fn refusal(&self) -> Refusal
        ensures { result ≡ refusal_of self.now }
    {
        match self {
            SubmitError::Stopped(token) => token.refusal(),
            SubmitError::ByBoard(refusal) => *refusal,
        }
    }
}
