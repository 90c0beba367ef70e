//! When nothing has come or gone in time.
ghost use Rattle.std.specs.Prelude.{◌≡◌, ◌↔◌, ◌⊎◌, true};

use std::io::ErrorKind;

/// Whether a call ended since nothing came or went in its time, or since a signal cut it short.
pub fn is_pause(kind: ErrorKind) -> bool
    ensures { result ≡ true ↔ (kind ≡ ErrorKind.WouldBlock) ⊎ ((kind ≡ ErrorKind.TimedOut) ⊎ (kind ≡ ErrorKind.Interrupted)) }
{
    kind == ErrorKind::WouldBlock || kind == ErrorKind::TimedOut || kind == ErrorKind::Interrupted
}
