//! Chunks of runs, which documents have together.
ghost use Rattle.std.specs.Prelude.{◌≡◌, ◌≢◌, ◌+◌, ◌-◌, min, ◌<◌, ◌^◌, length, IfOk, OnOk, OnErr, MatchBool, Some};
ghost use Rattle.utf16.specs.Units.{units_of};
ghost use Rattle.delta.specs.Element.{letters};
ghost use Rattle.document.specs.Chunks.{IsChunk};
ghost use Rattle.document.specs.Runs.{units_of_runs, last_attributes, first_attributes, text_attributes, TakesText};
ghost use Rattle.document.specs.Weight.{weight_of};

use crate::runs::{merge_into, share_all};
use crate::shared::SharedRun;
use crate::weights::{runs_units, runs_weight, text_weight};
use attributes::Attrs;
use std::alloc::{AllocError, Global};
use std::marker::Model;
use std::sync::Arc;

/// 1 to 128 runs that any number of documents own together, seen as the list of these runs. Its number of code units and its
/// weight are kept beside the runs, so that whoever steps over a chunk doesn't look into it.
#[derive(Drop)]
pub struct Chunk {
    runs: Arc<Vec<SharedRun>>,
    units: u64,
    weight: u64,
}

impl Model for Chunk {
    ghost use Rattle.std.specs.Prelude.{◌≡◌, ◌-◌, ◌^◌, min, length, List};
    ghost use Rattle.document.specs.Weight.{weight_of};
    ghost use Rattle.std.specs.Coded.{coded_list};
    ghost use Rattle.std.specs.Arc.{arc_value};
    ghost use Rattle.delta.specs.Element.{Element};
    ghost use Rattle.delta.specs.ElementCode.{element_code};
    ghost use Rattle.document.specs.Runs.{units_of_runs};
    ghost use Rattle.document.specs.Chunks.{IsChunk};

    ghost Value = { List (List Element) };

    ghost coded = { coded_list (coded_list element_code) };

    ghost view = { λ c. (arc_value c.runs).items };

    ghost invariant = { λ c. (c.units ≡ length (units_of_runs (arc_value c.runs).items))
        × (c.weight ≡ min (weight_of (units_of_runs (arc_value c.runs).items)) (2 ^ 64 - 1))
        × IsChunk (arc_value c.runs).items };
}

impl Chunk {
    /// A chunk of these runs, with one owner.
    pub(crate) fn new(alloc: Global, runs: Vec<SharedRun>) -> Result<Self, AllocError>
        requires sized { IsChunk runs.items }
        requires bound { length (units_of_runs runs.items) < 2 ^ 64 }
        ensures runs { IfOk result (λ chunk. chunk ≡ runs.items) }
    {
        let units = runs_units(runs.as_slice());
        let weight = runs_weight(runs.as_slice());
        match Arc::new(alloc, runs) {
            Ok(runs) => Ok(Chunk {
                runs,
                units,
                weight,
            }),
            Err(_) => Err(AllocError),
        }
    }

    /// Has these runs in place of its own. Where the chunk has one owner that takes no memory.
    pub(crate) fn replace(&mut self, alloc: Global, runs: Vec<SharedRun>) -> Result<(), AllocError>
        requires sized { IsChunk runs.items }
        requires bound { length (units_of_runs runs.items) < 2 ^ 64 }
        ensures ok { OnOk result (self.new ≡ runs.items) }
        ensures err { OnErr result (self.new ≡ self.old) }
    {
        let units = runs_units(runs.as_slice());
        let weight = runs_weight(runs.as_slice());
        if let Some(own) = Arc::get_mut(&mut self.runs) {
            *own = runs;
            self.units = units;
            self.weight = weight;
            return Ok(());
        }
        *self = Chunk::new(alloc, runs)?;
        Ok(())
    }

    /// One more owner of the chunk. It takes no memory: refused only where the chunk can have no more owners.
    pub(crate) fn share(&self) -> Result<Self, AllocError>
        ensures same { IfOk result (λ chunk. chunk ≡ self.now) }
    {
        let runs = Arc::try_clone(&self.runs)?;
        Ok(Chunk {
            runs,
            units: self.units,
            weight: self.weight,
        })
    }

    /// Its runs, 1 to 128 of them. It takes no memory.
    pub fn runs(&self) -> &[SharedRun]
        ensures runs { result.now ≡ self.now }
        ensures sized { IsChunk self.now }
    {
        self.runs.as_slice()
    }

    /// How many code units it has; an embed counts as one. In constant time.
    pub fn len16(&self) -> u64
        ensures { result ≡ length (units_of_runs self.now) }
    {
        self.units
    }

    /// Its weight, as `Document::weight` counts it, and 2^64 - 1 where that is more. In constant time.
    pub fn weight(&self) -> u64
        ensures { result ≡ min (weight_of (units_of_runs self.now)) (2 ^ 64 - 1) }
    {
        self.weight
    }

    /// Its first run.
    pub(crate) fn first(&self) -> &SharedRun
        ensures { first_attributes self.now ≡ text_attributes result.now }
    {
        &self.runs[0]
    }

    /// Its last run.
    pub(crate) fn last(&self) -> &SharedRun
        ensures { last_attributes self.now ≡ text_attributes result.now }
    {
        let len = self.runs.len();
        &self.runs[len - 1]
    }

    /// Takes a text into the last run, where that is a text of equal attributes, and says whether it is. The chunk is changed in
    /// place where it has one owner, and is else made anew for this one.
    pub(crate) fn merge_last(
        &mut self,
        alloc: Global,
        text: &str,
        units: u64,
        attrs: &Attrs,
    ) -> Result<bool, AllocError>
        requires counted { units ≡ length (units_of text.now) }
        requires bound { length (units_of_runs self.old) + units < 2 ^ 64 }
        ensures ok { IfOk result (λ yes. MatchBool yes
            (TakesText self.old self.new (letters (units_of text.now) attrs.now) attrs.now)
            ((last_attributes self.old ≢ Some attrs.now) × (self.new ≡ self.old))) }
        ensures err { OnErr result (self.new ≡ self.old) }
    {
        if !self.last().takes(attrs) {
            return Ok(false);
        }
        let more = text_weight(text, units, attrs);
        if let Some(runs) = Arc::get_mut(&mut self.runs) {
            merge_into(alloc, runs, text, units, attrs)?;
            self.weight = self.weight.saturating_add(more);
            self.units += units;
            return Ok(true);
        }
        let mut runs = share_all(alloc, self.runs.as_slice())?;
        merge_into(alloc, &mut runs, text, units, attrs)?;
        *self = Chunk::new(alloc, runs)?;
        Ok(true)
    }
}
