//! Changes of attributes.
ghost use Rattle.std.specs.Prelude.{◌≡◌, ◌↔◌, IfOk, IsTrue, OnOk, OnErr, option_copied};
ghost use Rattle.attributes.specs.Map.{empty, insert, get, contains};

use crate::key::Key;
use crate::shared::{Copied, Shared};
use crate::value::Value;
use std::alloc::{AllocError, Global};
use std::marker::Model;

/// A change of attributes: at each of its names a new value, or None, which removes the name.
#[derive(Drop)]
pub struct Change {
    map: Shared<Option<Value>>,
}

impl Model for Change {
    ghost use Rattle.std.specs.Coded.{coded_option};
    ghost use Rattle.attributes.specs.Map.{map_code};
    ghost use Rattle.attributes.specs.Scalar.{scalar_code};
    ghost use Rattle.attributes.specs.Attributes.{Changes};

    ghost Value = { Changes };

    ghost coded = { map_code (coded_option scalar_code) };

    ghost view = { λ c. c.map };
}

impl Change {
    /// No name: everything stays as it is.
    pub fn new(alloc: Global) -> Self
        ensures { result ≡ empty }
    {
        Change {
            map: Shared::new(alloc),
        }
    }

    /// Whether the change has a name.
    pub fn contains(&self, name: &str) -> bool
        ensures { result ≡ contains self.now name.now }
    {
        self.map.contains(name)
    }

    /// Sets or removes a name, in place of what stood there.
    pub fn set(&mut self, key: Key, value: Option<Value>) -> Result<(), AllocError>
        ensures ok { OnOk result (self.new ≡ insert self.old key value) }
        ensures err { OnErr result (self.new ≡ self.old) }
    {
        self.map.set(key, value)
    }

    /// Sets or removes a name by a copy of the name and of its value.
    pub(crate) fn set_copy(
        &mut self,
        alloc: Global,
        key: &Key,
        value: &Option<Value>,
    ) -> Result<(), AllocError>
        ensures ok { OnOk result (self.new ≡ insert self.old key.now value.now) }
    {
        let key = key.copy(alloc)?;
        let value = copy_value(alloc, value)?;
        self.set(key, value)
    }

    /// What the change makes of a name, where it has the name.
    pub fn get(&self, name: &str) -> Option<&Option<Value>>
        ensures { option_copied result ≡ get self.now name.now }
    {
        self.map.get(name)
    }

    /// The names with what the change makes of them, in the order of the names' bytes.
    pub fn entries(&self) -> &[(Key, Option<Value>)]
        ensures { result.now ≡ self.now.entries }
    {
        self.map.entries()
    }

    /// Whether the change leaves everything as it is.
    pub fn is_empty(&self) -> bool
        ensures { IsTrue result ↔ (self.now ≡ empty) }
    {
        self.entries().is_empty()
    }

    /// An equal change, which stands in memory once with this one. It takes no memory: refused only where it can have no more owners.
    pub fn copy(&self, alloc: Global) -> Result<Self, AllocError>
        ensures same { IfOk result (λ change. change ≡ self.now) }
    {
        let map = self.map.share(alloc)?;
        Ok(Change { map })
    }
}

impl Copied for Value {
    fn copied(&self, alloc: Global) -> Result<Self, AllocError> {
        self.copy(alloc)
    }
}

impl Copied for Option<Value> {
    fn copied(&self, alloc: Global) -> Result<Self, AllocError> {
        copy_value(alloc, self)
    }
}

/// An equal value, or none.
pub(crate) fn copy_value(alloc: Global, value: &Option<Value>) -> Result<Option<Value>, AllocError>
    ensures same { IfOk result (λ copy. copy ≡ value.now) }
{
    match value {
        Some(value) => Ok(Some(value.copy(alloc)?)),
        None => Ok(None),
    }
}

impl PartialEq for Change {
    ghost use Rattle.std.specs.Cmp.{decided, partial_equiv_from_equiv};
    ghost use Rattle.attributes.specs.Attributes.{same_changes, same_changes-Decides};

    ghost eq = { same_changes };

    ghost laws = { partial_equiv_from_equiv (decided same_changes same_changes-Decides) };

    fn eq(&self, other: &Self) -> bool {
        self.entries() == other.entries()
    }
}
