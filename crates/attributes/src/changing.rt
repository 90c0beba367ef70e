//! What changes make of attributes and of each other.
ghost use Rattle.std.specs.Prelude.{◌≡◌, ◌<◌, ◌⊎◌, if◌then◌else◌, length, IfOk, OnOk, IsTrue, IsFalse};
ghost use Rattle.attributes.specs.Map.{contains, get, insert};
ghost use Rattle.attributes.specs.Attributes.{changed, composed, put_or_remove, transformed, reverted, same_option};

use crate::attrs::Attrs;
use crate::change::Change;
use crate::key::Key;
use crate::value::Value;
use std::alloc::{AllocError, Global};
use std::cmp::Ordering;

/// The attributes after a change. An empty change takes no memory.
pub fn apply(alloc: Global, attrs: &Attrs, change: &Change) -> Result<Attrs, AllocError>
    ensures value { IfOk result (λ after. after ≡ changed attrs.now change.now) }
{
    if change.is_empty() {
        return attrs.copy(alloc);
    }
    apply_each(alloc, attrs, change)
}

// the same of any change, name by name
fn apply_each(alloc: Global, attrs: &Attrs, change: &Change) -> Result<Attrs, AllocError>
    ensures value { IfOk result (λ after. after ≡ changed attrs.now change.now) }
{
    let old = attrs.entries();
    let new = change.entries();
    let mut after = Attrs::new(alloc);
    let mut kept = 0;
    let mut made = 0;

    // Both are walked once, in the order of their names, so that each name is put behind all others at once. What comes out rests
    // on no order.
    while kept < old.len() || made < new.len() {
        if is_next(old, kept, new, made) {
            keep_value(alloc, &mut after, &old[kept], change)?;
            kept += 1;
        } else {
            put(alloc, &mut after, &new[made])?;
            made += 1;
        }
    }
    Ok(after)
}

/// One change for two, the second after the first. Where one of them is empty that takes no memory.
pub fn compose(alloc: Global, first: &Change, second: &Change) -> Result<Change, AllocError>
    ensures value { IfOk result (λ both. both ≡ composed first.now second.now) }
{
    if first.is_empty() {
        return second.copy(alloc);
    }
    if second.is_empty() {
        return first.copy(alloc);
    }
    compose_each(alloc, first, second)
}

// the same of any two changes, name by name
fn compose_each(alloc: Global, first: &Change, second: &Change) -> Result<Change, AllocError>
    ensures value { IfOk result (λ both. both ≡ composed first.now second.now) }
{
    let old = first.entries();
    let new = second.entries();
    let mut both = Change::new(alloc);
    let mut kept = 0;
    let mut made = 0;

    // as in `apply_each`
    while kept < old.len() || made < new.len() {
        if is_next(old, kept, new, made) {
            keep(alloc, &mut both, &old[kept], second)?;
            kept += 1;
        } else {
            let (key, value) = &new[made];
            both.set_copy(alloc, key, value)?;
            made += 1;
        }
    }
    Ok(both)
}

// whether, of what is left of two lists in the order of names, the next is one of the first list's
fn is_next<V, W>(first: &[(Key, V)], i: usize, second: &[(Key, W)], j: usize) -> bool
    requires some { (i < length first.now) ⊎ (j < length second.now) }
    ensures first { IsTrue result → i < length first.now }
    ensures second { IsFalse result → j < length second.now }
{
    if i >= first.len() {
        return false;
    }
    if j >= second.len() {
        return true;
    }
    match first[i].0.as_str().cmp(second[j].0.as_str()) {
        Ordering::Greater => false,
        _ => true,
    }
}

// sets a name by a copy, unless a change has the name
fn keep_value(
    alloc: Global,
    attrs: &mut Attrs,
    entry: &(Key, Value),
    change: &Change,
) -> Result<(), AllocError>
    ensures ok { OnOk result
        (attrs.new ≡ (if contains change.now entry.now.0 then attrs.old else insert attrs.old entry.now.0 entry.now.1)) }
{
    if !change.contains(entry.0.as_str()) {
        attrs.set(entry.0.copy(alloc)?, entry.1.copy(alloc)?)?;
    }
    Ok(())
}

// the same in a change
fn keep(
    alloc: Global,
    made: &mut Change,
    entry: &(Key, Option<Value>),
    change: &Change,
) -> Result<(), AllocError>
    ensures ok { OnOk result
        (made.new ≡ (if contains change.now entry.now.0 then made.old else insert made.old entry.now.0 entry.now.1)) }
{
    if !change.contains(entry.0.as_str()) {
        made.set_copy(alloc, &entry.0, &entry.1)?;
    }
    Ok(())
}

// makes of a name what a change makes of it
fn put(alloc: Global, attrs: &mut Attrs, entry: &(Key, Option<Value>)) -> Result<(), AllocError>
    ensures ok { OnOk result (attrs.new ≡ put_or_remove attrs.old entry.now.0 entry.now.1) }
{
    match &entry.1 {
        Some(value) => attrs.set(entry.0.copy(alloc)?, value.copy(alloc)?),
        None => attrs.remove(entry.0.as_str()),
    }
}

/// The second change as it is after the first: with priority the first one's names are dropped.
pub fn transform(
    alloc: Global,
    first: &Change,
    second: &Change,
    priority: bool,
) -> Result<Change, AllocError>
    ensures value { IfOk result (λ after. after ≡ transformed first.now second.now priority) }
{
    if !priority {
        return second.copy(alloc);
    }
    let mut after = Change::new(alloc);
    for entry in second.entries() {
        keep(alloc, &mut after, entry, first)?;
    }
    Ok(after)
}

/// The change back to the attributes: the old value, or a removal, at each name that the change gives another value.
pub fn invert(alloc: Global, change: &Change, attrs: &Attrs) -> Result<Change, AllocError>
    ensures value { IfOk result (λ back. back ≡ reverted change.now attrs.now) }
{
    let mut back = Change::new(alloc);
    for (key, value) in change.entries() {
        if !stands_at(attrs, key, value) {
            back.set(key.copy(alloc)?, copy_at(alloc, attrs, key)?)?;
        }
    }
    Ok(back)
}

// whether just this value, or none, stands at a name
fn stands_at(attrs: &Attrs, key: &Key, value: &Option<Value>) -> bool
    ensures { result ≡ same_option value.now (get attrs.now key.now) }
{
    match (value, attrs.get(key.as_str())) {
        (Some(new), Some(old)) => new == old,
        (None, None) => true,
        _ => false,
    }
}

// the value at a name, or none
fn copy_at(alloc: Global, attrs: &Attrs, key: &Key) -> Result<Option<Value>, AllocError>
    ensures same { IfOk result (λ old. old ≡ get attrs.now key.now) }
{
    match attrs.get(key.as_str()) {
        Some(value) => Ok(Some(value.copy(alloc)?)),
        None => Ok(None),
    }
}
