//! Who made a change.
ghost use Rattle.std.specs.Prelude.{◌≡◌, true};
ghost use Rattle.revision.specs.Name.{is_source_name};

use super::name::Name;
use crate::step::Step;

/// The source of a change, whose name has 1 to 32 characters, with its number for it, and what the change does to the document.
#[derive(Drop)]
pub struct Taker {
    pub(crate) source: Name,
    pub(crate) number: u64,
    pub(crate) step: Step,
    ghost named: { is_source_name source ≡ true },
}
