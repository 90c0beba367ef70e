//! A map that its copies own together.
ghost use Rattle.std.specs.Prelude.{◌≡◌, IfOk, OnOk, OnErr, option_copied};
ghost use Rattle.attributes.specs.Map as map;

use crate::key::Key;
use crate::map::Map;
use std::alloc::{AllocError, Global};
use std::marker::Model;
use std::sync::Arc;

/// A value that can be made once more.
pub(crate) trait Copied: Drop {
    /// An equal value.
    fn copied(&self, alloc: Global) -> Result<Self, AllocError>
    where
        Self: Sized,
        ensures same { IfOk result (λ copy. copy ≡ self.now) };
}

/// Names with a value each, which any number of copies own together. It is changed in place where it has one owner, and is else made
/// anew for the one that changes it.
#[derive(Drop)]
pub(crate) struct Shared<V> {
    alloc: Global,
    // none before the first entry
    map: Option<Arc<Map<V>>>,
}

impl<V> Model for Shared<V> {
    ghost use Rattle.attributes.specs.Map.{Map, map_code};
    ghost use Rattle.attributes.specs.Held.{held};

    ghost Value = { Map V };

    ghost coded = { map_code V.code };

    ghost view = { λ s. held s.map };
}

impl<V> Shared<V> {
    /// No entry.
    pub(crate) fn new(alloc: Global) -> Self
        ensures { result ≡ map.empty }
    {
        Shared { alloc, map: None }
    }

    /// The entries, in order.
    pub(crate) fn entries(&self) -> &[(Key, V)]
        ensures { result.now ≡ self.now.entries }
    {
        match &self.map {
            Some(map) => map.entries(),
            None => &[],
        }
    }

    /// What stands at a name.
    pub(crate) fn get(&self, name: &str) -> Option<&V>
        ensures { option_copied result ≡ map.get self.now name.now }
    {
        match &self.map {
            Some(map) => map.get(name),
            None => None,
        }
    }

    /// Whether something stands at a name.
    pub(crate) fn contains(&self, name: &str) -> bool
        ensures { result ≡ map.contains self.now name.now }
    {
        self.get(name).is_some()
    }

    /// One more owner. It takes no memory: refused only where there can be no more.
    pub(crate) fn share(&self, alloc: Global) -> Result<Self, AllocError>
        ensures same { IfOk result (λ shared. shared ≡ self.now) }
    {
        let map = match &self.map {
            Some(map) => Some(Arc::try_clone(map)?),
            None => None,
        };
        Ok(Shared { alloc, map })
    }

    /// Puts a value at a name, in place of what stood there.
    pub(crate) fn set(&mut self, key: Key, value: V) -> Result<(), AllocError>
    where
        V: Copied,
        ensures ok { OnOk result (self.new ≡ map.insert self.old key value) }
        ensures err { OnErr result (self.new ≡ self.old) }
    {
        if let Some(map) = &mut self.map {
            if let Some(own) = Arc::get_mut(map) {
                return own.set(key, value);
            }
        }
        let mut own = self.copy_of_map()?;
        own.set(key, value)?;
        self.hold(own)
    }

    /// Takes a name out, where it is there.
    pub(crate) fn remove(&mut self, name: &str) -> Result<(), AllocError>
    where
        V: Copied,
        ensures ok { OnOk result (self.new ≡ map.remove self.old name.now) }
        ensures err { OnErr result (self.new ≡ self.old) }
    {
        if let Some(map) = &mut self.map {
            if let Some(own) = Arc::get_mut(map) {
                own.remove(name);
                return Ok(());
            }
        }
        let mut own = self.copy_of_map()?;
        own.remove(name);
        self.hold(own)
    }

    // the same entries in a map of one owner
    fn copy_of_map(&self) -> Result<Map<V>, AllocError>
    where
        V: Copied,
        ensures same { IfOk result (λ copy. copy ≡ self.now) }
    {
        let mut copy = Map::new(self.alloc);
        for (key, value) in self.entries() {
            copy.set(key.copy(self.alloc)?, value.copied(self.alloc)?)?;
        }
        Ok(copy)
    }

    // has this map in place of its own
    fn hold(&mut self, map: Map<V>) -> Result<(), AllocError>
    where
        V: Drop,
        ensures ok { OnOk result (self.new ≡ map) }
        ensures err { OnErr result (self.new ≡ self.old) }
    {
        match Arc::new(self.alloc, map) {
            Ok(map) => {
                self.map = Some(map);
                Ok(())
            }
            Err(_) => Err(AllocError),
        }
    }
}
