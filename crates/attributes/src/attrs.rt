//! Attributes.
ghost use Rattle.std.specs.Prelude.{◌≡◌, [], IfOk, OnOk, OnErr, option_copied};
ghost use Rattle.attributes.specs.Map.{empty, insert, get, remove};

use crate::key::Key;
use crate::shared::Shared;
use crate::value::Value;
use std::alloc::{AllocError, Global};
use std::marker::Model;

/// Attributes of an insertion or a unit: a value at each of their names.
#[derive(Drop)]
pub struct Attrs {
    map: Shared<Value>,
}

impl Model for Attrs {
    ghost use Rattle.attributes.specs.Map.{map_code};
    ghost use Rattle.attributes.specs.Scalar.{scalar_code};
    ghost use Rattle.attributes.specs.Attributes.{Attributes};

    ghost Value = { Attributes };

    ghost coded = { map_code scalar_code };

    ghost view = { λ a. a.map };
}

impl Attrs {
    /// None.
    pub fn new(alloc: Global) -> Self
        ensures { result ≡ empty }
    {
        Attrs {
            map: Shared::new(alloc),
        }
    }

    /// Puts a value at a name, in place of what stood there.
    pub fn set(&mut self, key: Key, value: Value) -> Result<(), AllocError>
        ensures ok { OnOk result (self.new ≡ insert self.old key value) }
        ensures err { OnErr result (self.new ≡ self.old) }
    {
        self.map.set(key, value)
    }

    /// The value at a name.
    pub fn get(&self, name: &str) -> Option<&Value>
        ensures { option_copied result ≡ get self.now name.now }
    {
        self.map.get(name)
    }

    /// The names with their values, in the order of the names' bytes.
    pub fn entries(&self) -> &[(Key, Value)]
        ensures { result.now ≡ self.now.entries }
    {
        self.map.entries()
    }

    pub(crate) fn remove(&mut self, name: &str) -> Result<(), AllocError>
        ensures ok { OnOk result (self.new ≡ remove self.old name.now) }
        ensures err { OnErr result (self.new ≡ self.old) }
    {
        self.map.remove(name)
    }

    /// Equal attributes, which stand in memory once with these. It takes no memory: refused only where they can have no more owners.
    pub fn copy(&self, alloc: Global) -> Result<Self, AllocError>
        ensures same { IfOk result (λ attrs. attrs ≡ self.now) }
    {
        let map = self.map.share(alloc)?;
        Ok(Attrs { map })
    }
}

impl PartialEq for Attrs {
    ghost use Rattle.std.specs.Cmp.{decided, partial_equiv_from_equiv};
    ghost use Rattle.attributes.specs.Attributes.{same_attributes, same_attributes-Decides};

    ghost eq = { same_attributes };

    ghost laws = { partial_equiv_from_equiv (decided same_attributes same_attributes-Decides) };

    fn eq(&self, other: &Self) -> bool {
        self.entries() == other.entries()
    }
}
