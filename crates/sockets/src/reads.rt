//! The input of a connection, in pieces of what each read brings.
ghost use Rattle.std.specs.Prelude.{◌≡◌, ◌≤◌, ◌+◌, ◌*◌, ◌++◌, ◌∷◌, ℕ, [], None, true, IfErr, OnOk, OnErr};
ghost use Rattle.std.specs.Option.{ForSome};
ghost use Rattle.serving.specs.Turns.{InputPiece};
ghost use Rattle.sockets.specs.Socket.{pieces_of, waits_of};
ghost use Rattle.sockets.specs.Ends.{EndsBetween};

use crate::hall::Hall;
use crate::parting::Parting;
use crate::patience::Patience;
use crate::raw::{Got, HostReader};
use serving::Pieces;
use session::Session;

/// How many bytes are read at once.
const READ: usize = 8192;

/// An input that is cut behind each read, also one that waited in vain. It ends where the connection's input does or fails, where the peer is
/// idle for as long as it may be, or where the hall ends.
#[derive(Drop)]
pub struct ReadPieces<'h> {
    hall: &'h Hall,
    patience: Patience,
    bytes: [u8; READ],
    /// How many bytes the newest read brought, where there was one.
    count: Option<usize>,
    ghost room: { ForSome count (λ count. count ≤ 8192) },
}

impl<'h> ReadPieces<'h> {
    ghost use Rattle.sockets.specs.Host.{number_read, reads_of};
    ghost use Rattle.sockets.specs.Reads.{hall_of, newest_of, not_noted};

    /// Nothing was read yet, of a peer who may be idle for as long as the hall says.
    pub fn new(hall: &'h Hall) -> ReadPieces<'h>
        ensures hall { hall_of result ≡ hall.now.ended.id }
        ensures none { result.count ≡ None }
        ensures patience { result.patience ≡ record { limit = hall.now.idle * 10; waited = 0 } }
    {
        ReadPieces {
            hall,
            patience: Patience::new(hall.idle()),
            bytes: [0; READ],
            count: None,
        }
    }

    // Notes what the newest read brought to the session, which has answered it.
    fn note(&mut self, session: &Session)
        ensures hall { hall_of self.new ≡ hall_of self.old }
        ensures limit { self.new.patience.limit ≡ self.old.patience.limit }
        ensures waited { self.new.patience.waited ≤ self.old.patience.waited + not_noted self.old.count }
    {
        if let Some(count) = self.count {
            let mut patience = self.patience;
            patience.note(session, &self.bytes[..count]);
            self.patience = patience;
        }
    }

    // Reads what comes, no byte where nothing came in time. Refused where the input has ended or failed.
    fn read(&mut self, reader: &mut HostReader) -> Result<(), Parting<'h>>
        ensures hall { hall_of self.new ≡ hall_of self.old }
        ensures patience { self.new.patience ≡ self.old.patience }
        ensures read { OnOk result (pieces_of (reads_of reader.new) ≡ pieces_of (reads_of reader.old) ++ record { bytes = newest_of self.new; is_cut = true } ∷ []) }
        ensures waited { OnOk result (waits_of (reads_of reader.new) ≡ waits_of (reads_of reader.old) + not_noted self.new.count) }
        ensures ends { IfErr result (λ why. (hall : ℕ) → EndsBetween hall why (reads_of reader.new)) }
        ensures none { OnErr result (pieces_of (reads_of reader.new) ≡ pieces_of (reads_of reader.old)) }
        ensures same { number_read reader.new ≡ number_read reader.old }
    {
        self.count = match reader.read(&mut self.bytes) {
            Got::Bytes(count) => Some(count),
            Got::Nothing => Some(0),
            Got::End => return Err(Parting::Ended),
            Got::Failed => return Err(Parting::ReadFailed),
        };
        Ok(())
    }
}

impl<'h> Pieces<HostReader> for ReadPieces<'h> {
    ghost use Rattle.sockets.specs.Reads.{newest_of, EndsReads, GivesRead};

    type End = Parting<'h>;

    ghost gives = { GivesRead };

    ghost ends = { λ pieces reader why after behind. EndsReads pieces reader why behind };

    ghost newest = { newest_of };

    fn next(&mut self, reader: &mut HostReader, session: &Session) -> Result<bool, Parting<'h>> {
        self.note(session);
        if let Some(token) = self.hall.ended() {
            return Err(Parting::Over(token));
        }
        if self.patience.is_over() {
            return Err(Parting::Idle);
        }
        self.read(reader)?;
        Ok(true)
    }

    fn piece(&self) -> &[u8] {
        match self.count {
            Some(count) => &self.bytes[..count],
            None => &[],
        }
    }
}
