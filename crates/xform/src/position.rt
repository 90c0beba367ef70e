//! Places in a document after a delta.
ghost use Rattle.std.specs.Prelude.{◌≡◌, ◌≤◌, ◌^◌};
ghost use Rattle.delta.specs.Gaps.{counted};
ghost use Rattle.xform.specs.Place.{place};

use delta::{Delta, OpRef};

/// Where a place is after a delta, both in UTF-16 code units from the beginning. What is inserted before the place moves
/// it, and so does what is inserted just there, but where the place has priority. It takes no memory.
pub fn transform_position(delta: &Delta, index: u64, priority: bool) -> u64
    requires { index ≤ 2 ^ 48 }
    ensures { result ≡ place (counted delta.now) index priority }
{
    let ops = delta.ops();
    let mut place = 0;
    let mut before = index;
    for op in ops {
        match op.get() {
            OpRef::Text(_, _) | OpRef::Embed(_, _, _) => {
                if before > 0 || !priority {
                    place += op.out_len();
                }
            }
            OpRef::Retain(len, _) => {
                let kept = len.min(before);
                place += kept;
                before -= kept;
                if kept < len {
                    return place;
                }
            }
            OpRef::Delete(len) => {
                let deleted = len.min(before);
                before -= deleted;
                if deleted < len {
                    return place;
                }
            }
        }
    }
    place + before
}
