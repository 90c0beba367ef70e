//! How long a peer may be idle.
ghost use Rattle.std.specs.Prelude.{◌≡◌, ◌*◌, ◌&&◌, nat_le, nat_lt};
ghost use Rattle.sockets.specs.Idle.{has_end, waited_after};

use session::Session;

/// So many waits of a read make a second.
const BEATS: u64 = 10;

/// For how many waits of a read a peer has been idle, and for how many it may be; 0 is for ever.
#[derive(Clone, Copy)]
pub struct Patience {
    limit: u64,
    waited: u64,
}

impl Patience {
    /// With a peer that may be idle for so many seconds, 0 for ever, and was for none yet.
    pub fn new(seconds: u32) -> Patience
        ensures { result ≡ record { limit = seconds * 10; waited = 0 } }
    {
        Patience {
            limit: u64::from(seconds) * BEATS,
            waited: 0,
        }
    }

    /// Notes what a read brought to a session, which has answered it: no byte where the read waited in vain. A peer is idle until it ends a
    /// line, where it has presented itself, and it isn't while it follows a document.
    pub fn note(&mut self, session: &Session, piece: &[u8])
        ensures { self.new ≡ record self.old { waited = waited_after session.now piece.now self.old.limit self.old.waited } }
    {
        if session.follows() || session.is_greeted() && ends_line(piece) {
            self.waited = 0;
        } else if piece.is_empty() && self.waited < self.limit {
            self.waited += 1;
        }
    }

    /// Whether the peer has been idle for as long as it may be.
    pub fn is_over(&self) -> bool
        ensures { result ≡ (nat_lt 0 self.now.limit && nat_le self.now.limit self.now.waited) }
    {
        0 < self.limit && self.limit <= self.waited
    }
}

// Whether a line ends in a piece.
fn ends_line(piece: &[u8]) -> bool
    ensures { result ≡ has_end piece.now }
{
    let mut rest = piece;
    while let Some((byte, behind)) = rest.split_first() {
        if *byte == b'\n' {
            return true;
        }
        rest = behind;
    }
    false
}
