//! The content of a milestone, as a cell spells it.
ghost use Rattle.std.specs.Prelude.{◌≡◌, ◌⊎◌, ◌<◌, ◌≤◌, ◌^◌, ℕ, IfOk, IfErr, OnOk, IsErrOf};
ghost use Rattle.revision.specs.Sources.{count_of};
ghost use Rattle.revision.specs.Spellable.{IsSpellable};
ghost use Rattle.revision.specs.Width.{delta_width as width_of};
ghost use Rattle.milestone.specs.CellSpelling.{inserts_of, IsCell};

use crate::milestone::Milestone;
use delta::Delta;
use refusal::Refusal;
use revision::delta_width;
use std::alloc::Global;

impl Milestone {
    /// The delta that makes the document of the empty one, by inserts alone, as a cell spells it. Refused exactly where the delta's
    /// spelling has 2^32 bytes or more (`TooHeavy`), which is more than a cell of any size has, and where memory runs out (`NoMemory`).
    pub fn content(&self, alloc: Global) -> Result<Delta, Refusal>
        ensures delta { IfOk result (λ delta. delta ≡ inserts_of self.now.content.units) }
        ensures spellable { IfOk result (λ _. IsSpellable (inserts_of self.now.content.units)) }
        ensures is_cell { IfOk result (λ _. (number : ℕ) → number < 2 ^ 32 → count_of self.now.sources < 2 ^ 32
            → IsCell number self.now) }
        ensures heavy { IsErrOf result Refusal.TooHeavy → 2 ^ 32 ≤ width_of (inserts_of self.now.content.units) }
        ensures light { OnOk result (width_of (inserts_of self.now.content.units) < 2 ^ 32) }
        ensures only { IfErr result (λ e. (e ≡ Refusal.TooHeavy) ⊎ (e ≡ Refusal.NoMemory)) }
    {
        let content = self.document().as_delta(alloc)?;
        self.facts();
        if delta_width(&content) >= 1 << 32 {
            return Err(Refusal::TooHeavy);
        }
        Ok(content)
    }
}
