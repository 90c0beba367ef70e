//! Names with their numbers.
ghost use Rattle.std.specs.Prelude.{◌≡◌, ℕ, List, Some, None, cond, bytes_eq, OnOk, OnErr};
ghost use Rattle.std.specs.BTreeMap.{get_by_text};

use super::name::Name;
use std::alloc::{AllocError, Global};
use std::collections::BTreeMap;

/// Which number a name has. A name is found by comparing it to few others.
#[derive(Drop)]
pub(crate) struct Names {
    map: BTreeMap<String, u32>,
}

impl Names {
    /// An empty table. Doesn't allocate.
    pub(crate) fn new(alloc: Global) -> Names
        ensures { (q : List ℕ) → get_by_text result.map q ≡ None }
    {
        Names {
            map: BTreeMap::new(alloc),
        }
    }

    /// The number of a name.
    pub(crate) fn number(&self, name: &Name) -> Option<u32>
        ensures { result ≡ get_by_text self.now.map name.now }
    {
        self.map.get(name.as_str()).copied()
    }

    /// Gives a name its number. Refused as out of memory alone, and then unchanged.
    pub(crate) fn insert(
        &mut self,
        alloc: Global,
        name: &Name,
        number: u32,
    ) -> Result<(), AllocError>
        ensures ok { OnOk result ((q : List ℕ)
            → get_by_text self.new.map q ≡ cond (bytes_eq name.now q) (Some number) (get_by_text self.old.map q)) }
        ensures unchanged { OnErr result ((q : List ℕ) → get_by_text self.new.map q ≡ get_by_text self.old.map q) }
    {
        let text = String::from_str(alloc, name.as_str())?;
        self.map.insert(text, number)?;
        Ok(())
    }

    /// Takes a name out.
    pub(crate) fn remove(&mut self, name: &Name)
        ensures { (q : List ℕ)
            → get_by_text self.new.map q ≡ cond (bytes_eq name.now q) None (get_by_text self.old.map q) }
    {
        let _ = self.map.remove(name.as_str());
    }
}
