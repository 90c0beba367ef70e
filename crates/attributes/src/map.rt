//! A sorted map from names to values of any kind.
ghost use Rattle.std.specs.Prelude.{◌≡◌, ◌≤◌, T, if◌then◌else◌, length, MatchResult, OnOk, OnErr, option_copied};
ghost use Rattle.std.specs.List.{insert};
ghost use Rattle.std.specs.Result.{is_ok};
ghost use Rattle.std.specs.FinMap.Entries.{is_sorted};
ghost use Rattle.attributes.specs.Map as map;
ghost use Rattle.attributes.specs.Map.{by_bytes};
ghost use Rattle.attributes.specs.Place.{IsHere, IsFree, StandsBefore};
ghost use lib.Dec.{T_prop};

use crate::key::Key;
use std::alloc::{AllocError, Global};
use std::cmp::Ordering;
use std::marker::Model;

/// Maps with fewer names have no more room than they need.
const FEW: usize = 4;

/// Names with a value each, in the order of the names' bytes.
#[derive(Drop)]
pub struct Map<V> {
    list: Vec<(Key, V)>,
    ghost ascending: { T (is_sorted by_bytes list.items) } by { T_prop _ },
}

impl<V> Model for Map<V> {
    ghost use Rattle.attributes.specs.Map.{Map, map_code};

    ghost Value = { Map V };

    ghost coded = { map_code V.code };

    ghost view = { λ m. record { entries = m.list.items; ascending = m.ascending } };
}

impl<V> Map<V> {
    /// No entry.
    pub fn new(alloc: Global) -> Self
        ensures { result ≡ map.empty }
    {
        Map {
            list: Vec::new(alloc),
        }
    }

    /// The entries, in order.
    pub fn entries(&self) -> &[(Key, V)]
        ensures { result.now ≡ self.now.entries }
    {
        self.list.as_slice()
    }

    // where the name stands, or else where it would stand: it looks at the last entry first, so that names that come in order are put
    // behind at once
    fn place(&self, name: &str) -> Result<usize, usize>
        ensures { MatchResult result (IsHere name.now self.now.entries) (IsFree name.now self.now.entries) }
    {
        let len = self.list.len();
        if len == 0 {
            return Err(0);
        }
        match name.cmp(self.list[len - 1].0.as_str()) {
            Ordering::Less => self.search(name, len - 1),
            Ordering::Equal => Ok(len - 1),
            Ordering::Greater => Err(len),
        }
    }

    // the same of a name that stands before what stands at a place: it halves what is left until that is one place
    fn search(&self, name: &str, end: usize) -> Result<usize, usize>
        requires within { end ≤ length self.now.entries }
        requires before { StandsBefore name.now self.now.entries end }
        ensures { MatchResult result (IsHere name.now self.now.entries) (IsFree name.now self.now.entries) }
    {
        let mut low = 0;
        let mut high = end;
        while low < high {
            let middle = low + (high - low) / 2;
            match name.cmp(self.list[middle].0.as_str()) {
                Ordering::Less => high = middle,
                Ordering::Equal => return Ok(middle),
                Ordering::Greater => low = middle + 1,
            }
        }
        Err(low)
    }

    /// What stands at a name.
    pub fn get(&self, name: &str) -> Option<&V>
        ensures { option_copied result ≡ map.get self.now name.now }
    {
        match self.place(name) {
            Ok(i) => Some(&self.list[i].1),
            Err(_) => None,
        }
    }

    /// Whether something stands at a name.
    pub fn contains(&self, name: &str) -> bool
        ensures { result ≡ map.contains self.now name.now }
    {
        self.place(name).is_ok()
    }

    /// Puts a value at a name, in place of what stood there.
    pub fn set(&mut self, key: Key, value: V) -> Result<(), AllocError>
    where
        V: Drop,
        ensures ok { OnOk result (self.new ≡ map.insert self.old key value) }
        ensures err { OnErr result (self.new ≡ self.old) }
    {
        match self.place(key.as_str()) {
            Ok(i) => {
                self.list[i].1 = value;
                Ok(())
            }
            Err(i) => {
                insert_at(&mut self.list, i, (key, value))?;
                Ok(())
            }
        }
    }

    /// Takes a name out, where it is there.
    pub fn remove(&mut self, name: &str)
    where
        V: Drop,
        ensures { self.new ≡ map.remove self.old name.now }
    {
        if let Ok(i) = self.place(name) {
            let _ = self.list.remove(i);
        }
    }
}

// puts an entry at a place of a list, which has no more room than it needs as long as it is short, as most are
fn insert_at<T: Drop>(list: &mut Vec<T>, at: usize, entry: T) -> Result<(), AllocError>
    requires { at ≤ length list.old.items }
    ensures items { list.new.items ≡ (if is_ok result then insert list.old.items at entry else list.old.items) }
{
    if list.len() < FEW {
        list.reserve_exact(1)?;
    }
    list.insert(at, entry)?;
    Ok(())
}
