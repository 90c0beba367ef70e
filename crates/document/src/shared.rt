//! Runs that documents have together.
ghost use Rattle.std.specs.Prelude.{◌≡◌, ◌≢◌, ◌+◌, ◌-◌, min, ◌<◌, ◌^◌, ◌++◌, length, IfOk, OnErr, IsTrue, MatchBool, Some, ◌↔◌, false};
ghost use Rattle.utf16.specs.Units.{units_of};
ghost use Rattle.delta.specs.Element.{letters};
ghost use Rattle.document.specs.Runs.{text_attributes, IsApart};
ghost use Rattle.document.specs.Weight.{weight_of};

use crate::run::{Piece, Run};
use attributes::Attrs;
use std::alloc::{AllocError, Global};
use std::marker::Model;
use std::sync::Arc;

/// A run, a text or an embed with its attributes, that any number of documents own together, seen as its units. Only a run with one
/// owner is changed in place. Its number of code units and its weight are kept beside it, so that whoever steps over a run doesn't
/// look into it.
#[derive(Drop)]
pub struct SharedRun {
    run: Arc<Run>,
    units: u64,
    weight: u64,
}

impl Model for SharedRun {
    ghost use Rattle.std.specs.Prelude.{◌≡◌, ◌<◌, ◌-◌, ◌^◌, min, length, List};
    ghost use Rattle.document.specs.Weight.{weight_of};
    ghost use Rattle.std.specs.Coded.{coded_list};
    ghost use Rattle.std.specs.Arc.{arc_value};
    ghost use Rattle.delta.specs.Element.{Element};
    ghost use Rattle.delta.specs.ElementCode.{element_code};

    ghost Value = { List Element };

    ghost coded = { coded_list element_code };

    ghost view = { λ r. arc_value r.run };

    ghost invariant = { λ r. (r.units ≡ length (arc_value r.run)) × (0 < r.units)
        × (r.weight ≡ min (weight_of (arc_value r.run)) (2 ^ 64 - 1)) };
}

impl SharedRun {
    ghost use Rattle.document.specs.Pieces.{piece_units, IsCounted};

    /// A run with one owner.
    pub(crate) fn new(alloc: Global, run: Run) -> Result<Self, AllocError>
        ensures run { IfOk result (λ shared. shared ≡ run) }
    {
        let units = run.units();
        let weight = run.weight();
        match Arc::new(alloc, run) {
            Ok(run) => Ok(SharedRun { run, units, weight }),
            Err(_) => Err(AllocError),
        }
    }

    /// One more owner of the run. It takes no memory: refused only where the run can have no more owners.
    pub(crate) fn share(&self) -> Result<Self, AllocError>
        ensures same { IfOk result (λ shared. shared ≡ self.now) }
    {
        let run = Arc::try_clone(&self.run)?;
        Ok(SharedRun {
            run,
            units: self.units,
            weight: self.weight,
        })
    }

    /// How many code units it has; an embed counts as one.
    pub fn units(&self) -> u64
        ensures units { result ≡ length self.now }
        ensures some { 0 < result }
    {
        self.units
    }

    /// Whether it is a text with these attributes.
    pub(crate) fn takes(&self, attrs: &Attrs) -> bool
        ensures { IsTrue result ↔ (text_attributes self.now ≡ Some attrs.now) }
    {
        self.run.takes(attrs)
    }

    /// Whether it and the next run are texts of equal attributes.
    pub(crate) fn joins(&self, next: &SharedRun) -> bool
        ensures { (result ≡ false) → IsApart (text_attributes self.now) (text_attributes next.now) }
    {
        match next.piece() {
            Piece::Text(_, _, attrs) => self.takes(attrs),
            Piece::Embed(_, _, _) => false,
        }
    }

    /// The whole run as a piece.
    pub fn piece(&self) -> Piece<'_>
        ensures units { piece_units result ≡ self.now }
        ensures counted { IsCounted result }
    {
        self.run.piece()
    }

    /// Its weight, and 2^64 - 1 where that is more.
    pub fn weight(&self) -> u64
        ensures { result ≡ min (weight_of self.now) (2 ^ 64 - 1) }
    {
        self.weight
    }

    /// Takes a text in at the end where the run is a text with equal attributes, and says whether it is. The run is changed in
    /// place where it has one owner, and is else made anew for this one.
    pub(crate) fn merge(
        &mut self,
        alloc: Global,
        text: &str,
        units: u64,
        attrs: &Attrs,
    ) -> Result<bool, AllocError>
        requires counted { units ≡ length (units_of text.now) }
        requires bound { length self.old + units < 2 ^ 64 }
        ensures ok { IfOk result (λ yes. MatchBool yes
            ((self.new ≡ self.old ++ letters (units_of text.now) attrs.now)
            × (text_attributes self.old ≡ Some attrs.now))
            ((self.new ≡ self.old) × (text_attributes self.old ≢ Some attrs.now))) }
        ensures err { OnErr result (self.new ≡ self.old) }
    {
        if !self.run.takes(attrs) {
            return Ok(false);
        }
        if let Some(run) = Arc::get_mut(&mut self.run) {
            run.append(text, units)?;
            self.weight = run.weight();
            self.units += units;
            return Ok(true);
        }
        let mut run = self.run.copy(alloc, text.len())?;
        run.append(text, units)?;
        *self = SharedRun::new(alloc, run)?;
        Ok(true)
    }
}
