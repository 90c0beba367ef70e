//! A document at a revision.
ghost use Rattle.std.specs.Prelude.{◌≡◌, ◌≤◌, true};
ghost use Rattle.revision.specs.Past.{is_content};
ghost use Rattle.revision.specs.State.{last_of_all, are_sources};
ghost use Rattle.milestone.specs.Milestone.{IsMilestone};

use document::Document;
use revision::{Name, Sources};
use std::marker::Model;

/// A document at a revision, with its name and its sources there, seen as what a cell holds. The name has 1 to 64 characters, the
/// revision is 1 to 2^53 - 1, nothing stands in a document that is deleted, and each source has a name of 1 to 32 characters and a window
/// as one may have at the revision.
#[derive(Drop)]
pub struct Milestone {
    name: Name,
    revision: u64,
    document: Document,
    live: bool,
    sources: Sources,
}

impl Model for Milestone {
    ghost use Rattle.history.specs.Cell as spec;
    ghost use Rattle.milestone.specs.Milestone.{IsMilestone, cell_code};

    ghost Value = { spec.Cell };

    ghost coded = { cell_code };

    ghost use Rattle.milestone.specs.MilestoneView.{milestone_of};

    ghost view = { milestone_of };

    ghost invariant = { λ m. IsMilestone (milestone_of m) };
}

/// What a milestone is made of.
#[derive(Drop)]
pub struct MilestoneParts {
    pub name: Name,
    pub revision: u64,
    pub document: Document,
    pub live: bool,
    pub sources: Sources,
}

impl Milestone {
    /// The document of this name at a revision of 1 to 2^53 - 1, live or deleted, where its sources have windows as they may have there.
    /// It takes no memory.
    pub fn new(
        name: Name,
        revision: u64,
        document: Document,
        live: bool,
        sources: Sources,
    ) -> Milestone
        requires content { is_content (record { units = document; live = live }) ≡ true }
        requires first { 1 ≤ revision }
        requires last { revision ≤ last_of_all }
        requires sources { are_sources revision sources.entries ≡ true }
        ensures { result
            ≡ record {
              name = name;
              revision = revision;
              content = record { units = document; live = live };
              sources = sources;
            } }
    {
        name.facts();
        sources.facts();
        Milestone {
            name,
            revision,
            document,
            live,
            sources,
        }
    }

    /// The document's name.
    pub fn name(&self) -> &Name
        ensures { result.now ≡ self.now.name }
    {
        &self.name
    }

    /// The revision, 1 to 2^53 - 1.
    pub fn revision(&self) -> u64
        ensures revision { result ≡ self.now.revision }
        ensures milestone { IsMilestone self.now }
    {
        self.revision
    }

    /// What each milestone keeps, for the prover. It does nothing.
    pub fn facts(&self)
        ensures { IsMilestone self.now }
    {
        let _ = &self.sources;
    }

    /// What stands in the document at the revision.
    pub fn document(&self) -> &Document
        ensures { result.now ≡ self.now.content.units }
    {
        &self.document
    }

    /// Whether the document is live there; else it is deleted.
    pub fn is_live(&self) -> bool
        ensures live { result ≡ self.now.content.live }
        ensures milestone { IsMilestone self.now }
    {
        self.live
    }

    /// The document's sources at the revision.
    pub fn sources(&self) -> &Sources
        ensures sources { result.now ≡ self.now.sources }
        ensures milestone { IsMilestone self.now }
    {
        &self.sources
    }

    /// What it is made of. It takes no memory.
    pub fn into_parts(self) -> MilestoneParts
        ensures { result
            ≡ record {
              name = self.name;
              revision = self.revision;
              document = self.content.units;
              live = self.content.live;
              sources =
                  self.sources;
            } }
    {
        MilestoneParts {
            name: self.name,
            revision: self.revision,
            document: self.document,
            live: self.live,
            sources: self.sources,
        }
    }
}
