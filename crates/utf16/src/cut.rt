//! The two halves of a text at a code unit.
ghost use Rattle.std.specs.Prelude.{◌≡◌, ◌++◌, ◌<◌, ◌≤◌, ◌↔◌, length, take, drop, IfOk};
ghost use Rattle.std.specs.Str.{IsCharBoundary};
ghost use Rattle.utf16.specs.Begun.{begun_in};
ghost use Rattle.utf16.specs.Units.{units_of, IsInPair};

use crate::len::{BLOCK, is_continuation, units_begun, units_in_block};

/// Why a text can't be cut at a code unit.
#[derive(Clone, Copy, Debug, PartialEq, Eq)]
pub enum Cut {
    /// The text has fewer code units.
    PastEnd,
    /// The place lies between the two units of a pair.
    InPair,
}

/// The text before and from the code unit `at`. Takes no memory.
pub fn split_at16(text: &str, at: u64) -> Result<(&str, &str), Cut>
    ensures whole { IfOk result (λ halves. halves.0.now ++ halves.1.now ≡ text.now) }
    ensures front { IfOk result (λ halves. units_of halves.0.now ≡ take at (units_of text.now)) }
    ensures back { IfOk result (λ halves. units_of halves.1.now ≡ drop at (units_of text.now)) }

    ensures past_end { (result ≡ Err Cut.PastEnd) ↔ (length (units_of text.now) < at) }
    ensures in_pair { (result ≡ Err Cut.InPair) ↔ IsInPair (units_of text.now) at }
{
    let (bytes, units) = place_at(text, at);
    if units == at {
        Ok(text.split_at(bytes))
    } else if units > at {
        Err(Cut::InPair)
    } else {
        Err(Cut::PastEnd)
    }
}

// Where the first character begins with at least `at` code units before it, else the end; and how many these are.
fn place_at(text: &str, at: u64) -> (usize, u64)
    ensures boundary { IsCharBoundary text.now result.0 }
    ensures units { result.1 ≡ length (units_of (take result.0 text.now)) }
    ensures past_end { result.1 < at → result.0 ≡ length text.now }
    ensures in_pair { at < result.1 → IsInPair (units_of text.now) at }
{
    let all = text.as_bytes();
    let (mut bytes, mut units) = blocks_before(all, at);
    while bytes < all.len() {
        let byte = all[bytes];
        if units >= at && !is_continuation(byte) {
            break;
        }
        units += u64::from(units_begun(byte));
        bytes += 1;
    }
    (bytes, units)
}

// The whole blocks where characters of at most `at` code units begin: their bytes, and these code units.
fn blocks_before(all: &[u8], at: u64) -> (usize, u64)
    ensures inside { result.0 ≤ length all.now }
    ensures units { result.1 ≡ begun_in (take result.0 all.now) }
    ensures not_past { result.1 ≤ at }
{
    let (mut bytes, mut units) = (0, 0);
    while bytes + BLOCK <= all.len() {
        let more = u64::from(units_in_block(&all[bytes..bytes + BLOCK]));
        if units + more > at {
            break;
        }
        bytes += BLOCK;
        units += more;
    }
    (bytes, units)
}

/// The text before and from the code unit `at`, of a text whose code units were counted. Where it has as many as bytes,
/// each character is one byte, and nothing is walked over. Takes no memory.
pub fn split_counted(text: &str, units: u64, at: u64) -> Result<(&str, &str), Cut>
    requires { units ≡ length (units_of text.now) }
    ensures whole { IfOk result (λ halves. halves.0.now ++ halves.1.now ≡ text.now) }
    ensures front { IfOk result (λ halves. units_of halves.0.now ≡ take at (units_of text.now)) }
    ensures back { IfOk result (λ halves. units_of halves.1.now ≡ drop at (units_of text.now)) }

    ensures past_end { (result ≡ Err Cut.PastEnd) ↔ (length (units_of text.now) < at) }
    ensures in_pair { (result ≡ Err Cut.InPair) ↔ IsInPair (units_of text.now) at }
{
    if at <= units && text.len() as u64 == units && text.is_char_boundary(at as usize) {
        return Ok(text.split_at(at as usize));
    }
    split_at16(text, at)
}
