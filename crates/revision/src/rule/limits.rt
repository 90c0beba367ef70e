//! How much a store may hold.
ghost use Rattle.std.specs.Prelude.{◌≡◌, ◌≤◌};
ghost use Rattle.revision.specs.Invariants.{IsLimits};

use std::marker::Model;

/// How much a store may hold, each limit included.
#[derive(Clone, Copy, Debug, PartialEq, Eq)]
pub struct Limits {
    docs: u32,
    sources: u32,
    weight: u32,
    width: u32,
    keep: u32,
    retry: u32,
}

impl Model for Limits {
    ghost use Rattle.revision.specs.State as spec;
    ghost use Rattle.revision.specs.Invariants.{IsLimits};
    ghost use Rattle.revision.specs.steps.LimitsView.{limits_of, limits_from};

    ghost Value = { spec.Limits };

    ghost view = { limits_of };

    ghost inverse = { limits_from };

    ghost invariant = { λ l. IsLimits (limits_of l) };
}

impl Limits {
    /// Limits in their ranges: 1 to 65,536 documents, 1 to 4,096 sources of a document, the weight of a document (that of its
    /// units, `Document::weight`, and of each source 56 and 8 for each number of its window), the bytes of a command's entry in the
    /// journal, and how many revisions below the newest one are held, 1 to 65,536.
    pub fn new(docs: u32, sources: u32, weight: u32, width: u32, keep: u32) -> Limits
        requires { IsLimits
            (record { docs = docs; sources = sources; weight = weight; width = width; keep = keep; retry = 8 }) }
        ensures { result
            ≡ record { docs = docs; sources = sources; weight = weight; width = width; keep = keep; retry = 8 } }
    {
        Limits {
            docs,
            sources,
            weight,
            width,
            keep,
            retry: 8,
        }
    }

    /// The same where a source weighs 64 with any number of numbers in its window.
    pub fn without_retries(docs: u32, sources: u32, weight: u32, width: u32, keep: u32) -> Limits
        requires { IsLimits
            (record { docs = docs; sources = sources; weight = weight; width = width; keep = keep; retry = 0 }) }
        ensures { result
            ≡ record { docs = docs; sources = sources; weight = weight; width = width; keep = keep; retry = 0 } }
    {
        Limits {
            docs,
            sources,
            weight,
            width,
            keep,
            retry: 0,
        }
    }

    /// What all limits keep, for the prover. It does nothing.
    pub fn facts(&self)
        ensures limits { IsLimits self.now }
    {
        let _ = &self.docs;
    }

    /// Documents, 1 to 65,536.
    pub fn docs(&self) -> u32
        ensures docs { result ≡ self.now.docs }
        ensures limits { IsLimits self.now }
    {
        self.docs
    }

    /// Sources of a document, 1 to 4,096.
    pub fn sources(&self) -> u32
        ensures { result ≡ self.now.sources }
    {
        self.sources
    }

    /// The weight of a document: that of its units and of its sources.
    pub fn weight(&self) -> u32
        ensures { result ≡ self.now.weight }
    {
        self.weight
    }

    /// The bytes of a command's entry in the journal.
    pub fn width(&self) -> u32
        ensures { result ≡ self.now.width }
    {
        self.width
    }

    /// How many revisions below the newest one are held, 1 to 65,536.
    pub fn keep(&self) -> u32
        ensures { result ≡ self.now.keep }
    {
        self.keep
    }

    /// What each number of a source's window weighs, 0 to 8. A source with one number weighs 64.
    pub fn retry(&self) -> u32
        ensures retry { result ≡ self.now.retry }
        ensures bound { result ≤ 8 }
    {
        self.retry
    }
}
