//! An input in pieces.
ghost use Rattle.std.specs.Prelude.{◌≡◌, ℕ, List, IfOk, IfErr};
ghost use Rattle.serving.specs.Turns.{InputPiece};

use session::Session;

/// How a session's input comes: in pieces, where it is cut, and why it ends.
pub trait Pieces<I> {
    /// Why it ends.
    type End;

    /// Of this input this piece is given, and both are these then.
    ghost gives: { Self → I → InputPiece → Self → I → Type 0 };

    /// It ends for this cause, and both are these then.
    ghost ends: { Self → I → Self.End → Self → I → Type 0 };

    /// The bytes of the piece that was given last.
    ghost newest: { Self → List ℕ };

    /// Reads the next piece, for a session that has answered those before, and answers whether the input is cut behind it. An empty piece
    /// is given where nothing came. Refused where the input has ended.
    fn next(&mut self, input: &mut I, session: &Session) -> Result<bool, Self::End>
        ensures given { IfOk result (λ is_cut. gives self.old input.old (record { bytes = newest self.new; is_cut = is_cut }) self.new input.new) }
        ensures ended { IfErr result (λ why. ends self.old input.old why self.new input.new) };

    /// The piece that was given last.
    fn piece(&self) -> &[u8]
        ensures { result.now ≡ newest self.now };
}
