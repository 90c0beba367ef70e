//! Edits that come late: made on an older revision, they are taken over the newest one.
ghost use Rattle.std.specs.Prelude.{◌≡◌, IfOk, ◌≤◌, ◌<◌, ◌^◌, ◌-◌};
ghost use Rattle.revision.specs.Late.{late as late_edit, HasRoom};
ghost use Rattle.delta.specs.Operation.{base_of, out_of};
ghost use Rattle.revision.specs.Past.{newest, deltas_above};

use super::Past;
use delta::Delta;
use std::alloc::{AllocError, Global};
use xform::move_past_all;

impl Past {
    /// An edit that was made on a revision that is held, late past what was taken since. Its lengths are those of a
    /// command's delta, at most 2^44 each. Refused as out of memory alone.
    pub fn late(&self, alloc: Global, edit: &Delta, revision: u64) -> Result<Delta, AllocError>
        requires held { self.now.past.floor ≤ revision }
        requires there { revision ≤ newest self.now.past }
        requires base { base_of edit.now ≤ 2 ^ 44 }
        requires out { out_of edit.now ≤ 2 ^ 44 }
        ensures late { IfOk result (λ made. made ≡ late_edit edit.now (deltas_above self.now.past revision)) }
    {
        late(alloc, edit, self.since(revision))
    }
}

/// An edit past the deltas that were taken since its base, in turn from the oldest, each with priority. With room for it,
/// which a command's delta has past all deltas that a document holds (`laws::late_room`), it is refused as out of memory
/// alone. The edit is copied once.
pub(crate) fn late(alloc: Global, edit: &Delta, since: &[Delta]) -> Result<Delta, AllocError>
    requires { HasRoom edit.now since.now }
    ensures late { IfOk result (λ made. made ≡ late_edit edit.now since.now) }
{
    past_all(alloc, edit.copy(alloc)?, since)
}

/// The same of an edit that is given away: it is what comes back where nothing was taken since. Only a delta that reaches
/// to where the edit changes something makes a new one; past all others numbers alone are moved, in constant time each.
pub(crate) fn past_all(alloc: Global, edit: Delta, since: &[Delta]) -> Result<Delta, AllocError>
    requires { HasRoom edit since.now }
    ensures late { IfOk result (λ made. made ≡ late_edit edit since.now) }
{
    match move_past_all(alloc, since, edit) {
        Ok(past) => Ok(past),
        Err(refusal) => Err(refusal.as_alloc_error()),
    }
}
