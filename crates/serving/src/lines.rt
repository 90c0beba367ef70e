//! The input of a pair of streams, in pieces of lines.
ghost use Rattle.std.specs.Prelude.{◌≡◌, ◌≤◌, [], ◌++◌, ◌∷◌, length, take, IfErr, OnOk};
ghost use Rattle.std.specs.Io.KnownBytes.{Consumes};
ghost use Rattle.serving.specs.Serving.{EndsLines, GivesOfLine, IsOfLine};

use crate::input::{Input, InputError};
use crate::pieces::Pieces;
use session::{Session, text_length};

/// How many bytes are read at once.
const READ: usize = 8192;

/// An input that is cut behind each line: text within a line is given, or the rest of a line with its end. What one read brings is given
/// before the next read.
#[derive(Drop)]
pub struct LinePieces {
    bytes: [u8; READ],
    /// Where the piece begins that was given last.
    begin: usize,
    /// Where it ends, and what is left begins.
    end: usize,
    /// So many bytes were read.
    count: usize,
    ghost given: { begin ≤ end },
    ghost left: { end ≤ count },
    ghost room: { count ≤ 8192 },
}

impl LinePieces {
    ghost use Rattle.serving.specs.LinesView.{left_of, newest_of};

    /// Nothing is read yet.
    pub fn new() -> LinePieces
        ensures { left_of result ≡ [] }
    {
        LinePieces {
            bytes: [0; READ],
            begin: 0,
            end: 0,
            count: 0,
        }
    }

    // Reads, where nothing is left of the read before. Nothing is read where a signal cut it short. Refused where the input has ended.
    fn read<I: Input>(&mut self, input: &mut I) -> Result<(), Result<(), InputError>>
        ensures read { OnOk result (Consumes (I.remaining input.old) (I.remaining input.new) (left_of self.new)) }
        ensures ended { IfErr result (λ why. EndsLines [] (I.remaining input.old) why (I.remaining input.new) (I.has_failed input.new)) }
    {
        self.begin = 0;
        self.end = 0;
        self.count = 0;
        match input.read(&mut self.bytes) {
            Ok(Some(0)) => Err(Ok(())),
            Ok(Some(count)) => {
                self.count = count;
                Ok(())
            }
            Ok(None) => Ok(()),
            Err(failed) => Err(Err(failed)),
        }
    }

    // Gives what is left up to the first line end, with that one, or all that is left. Answers whether it ends in a line end.
    fn cut(&mut self) -> bool
        ensures whole { left_of self.old ≡ newest_of self.new ++ left_of self.new }
        ensures of_line { IsOfLine (record { bytes = newest_of self.new; is_cut = result }) }
    {
        let (count, is_cut) = first_piece(&self.bytes[self.end..self.count]);
        self.begin = self.end;
        self.end += count;
        is_cut
    }
}

// How many bytes stand up to the first line end, with that one, or all of them; and whether there is a line end.
fn first_piece(bytes: &[u8]) -> (usize, bool)
    ensures within { result.0 ≤ length bytes.now }
    ensures of_line { IsOfLine (record { bytes = take result.0 bytes.now; is_cut = result.1 }) }
{
    let count = text_length(bytes);
    if count < bytes.len() {
        (count + 1, true)
    } else {
        (count, false)
    }
}

impl<I: Input> Pieces<I> for LinePieces {
    ghost use Rattle.serving.specs.LinesView.{left_of, newest_of};

    type End = Result<(), InputError>;

    ghost gives = { λ lines input piece after behind.
        GivesOfLine (left_of lines) (I.remaining input) piece (left_of after) (I.remaining behind) };

    ghost ends = { λ lines input why after behind.
        EndsLines (left_of lines) (I.remaining input) why (I.remaining behind) (I.has_failed behind) };

    ghost newest = { newest_of };

    fn next(&mut self, input: &mut I, _session: &Session) -> Result<bool, Result<(), InputError>> {
        if self.end == self.count {
            self.read(input)?;
        }
        Ok(self.cut())
    }

    fn piece(&self) -> &[u8] {
        &self.bytes[self.begin..self.end]
    }
}
