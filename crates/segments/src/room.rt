//! Whether a slot is free.
ghost use Rattle.std.specs.Prelude.{◌≡◌};
ghost use Rattle.segments.specs.Room.{has_free};

use crate::numbers::next_slot;

/// Whether a slot is free.
pub fn has_free(numbers: &[Option<u64>]) -> bool
    ensures { result ≡ has_free numbers.now }
{
    match next_slot(numbers) {
        Some(_) => true,
        None => false,
    }
}
