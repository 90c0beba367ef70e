//! The plain program: deltas counted out into steps of one unit each, and what is made of them, step by step.
//!
//! It is written from what quill-delta says of each call, and not from the definitions that the crates are proved by.
use attributes::{Attrs, Change, Key, Value};
use delta::{Delta, Op, OpRef};
use refusal::Refusal;
use std::alloc::Global;

/// What a delta does with one unit: inserts a code unit or an embed, keeps the next unit of the document, or deletes it.
#[derive(Drop)]
pub enum Step {
    Code(u16, Attrs),
    Embed(Key, Value, Attrs),
    Keep(Change),
    Delete,
}

impl Step {
    /// Whether it inserts something.
    pub fn is_insert(&self) -> bool {
        match self {
            Step::Code(_, _) | Step::Embed(_, _, _) => true,
            Step::Keep(_) | Step::Delete => false,
        }
    }

    fn is_delete(&self) -> bool {
        match self {
            Step::Delete => true,
            Step::Code(_, _) | Step::Embed(_, _, _) | Step::Keep(_) => false,
        }
    }

    // whether it keeps a unit as it is
    fn is_plain(&self) -> bool {
        match self {
            Step::Keep(change) => change.is_empty(),
            Step::Code(_, _) | Step::Embed(_, _, _) | Step::Delete => false,
        }
    }

    fn is_same(&self, other: &Step) -> bool {
        match (self, other) {
            (Step::Code(code, attrs), Step::Code(others, more)) => code == others && attrs == more,
            (Step::Embed(name, value, attrs), Step::Embed(key, content, more)) => {
                name == key && value == content && attrs == more
            }
            (Step::Keep(change), Step::Keep(other)) => change == other,
            (Step::Delete, Step::Delete) => true,
            _ => false,
        }
    }

    // whether it inserts the first unit of a pair, and the next step the second
    fn is_pair_with(&self, next: &Step) -> bool {
        match (self, next) {
            (Step::Code(high, attrs), Step::Code(low, more)) => {
                high & 0xfc00 == 0xd800 && low & 0xfc00 == 0xdc00 && attrs == more
            }
            _ => false,
        }
    }

    fn copy(&self, alloc: Global) -> Result<Step, Refusal> {
        match self {
            Step::Code(code, attrs) => Ok(Step::Code(*code, attrs.copy(alloc)?)),
            Step::Embed(name, value, attrs) => { embed(alloc, name, value, attrs.copy(alloc)?) }
            Step::Keep(change) => Ok(Step::Keep(change.copy(alloc)?)),
            Step::Delete => Ok(Step::Delete),
        }
    }

    // the step, and then a change of the unit that it inserts or keeps
    fn then(&self, alloc: Global, change: &Change) -> Result<Step, Refusal> {
        match self {
            Step::Code(code, attrs) => {
                Ok(Step::Code(*code, attributes::apply(alloc, attrs, change)?))
            }
            Step::Embed(name, value, attrs) => {
                embed(alloc, name, value, attributes::apply(alloc, attrs, change)?)
            }
            Step::Keep(first) => Ok(Step::Keep(attributes::compose(alloc, first, change)?)),
            Step::Delete => Ok(Step::Delete),
        }
    }

    // the step as it is where another delta keeps its unit with a change
    fn beside(&self, alloc: Global, change: &Change, priority: bool) -> Result<Step, Refusal> {
        match self {
            Step::Keep(second) => {
                Ok(Step::Keep(attributes::transform(alloc, change, second, priority)?))
            }
            _ => self.copy(alloc),
        }
    }

    // the step that takes this one back, where it keeps or deletes a unit
    fn back(&self, alloc: Global, unit: &Step) -> Result<Step, Refusal> {
        match (self, unit) {
            (Step::Keep(change), Step::Code(_, attrs) | Step::Embed(_, _, attrs)) => {
                Ok(Step::Keep(attributes::invert(alloc, change, attrs)?))
            }
            _ => unit.copy(alloc),
        }
    }
}

fn embed(alloc: Global, name: &Key, value: &Value, attrs: Attrs) -> Result<Step, Refusal> {
    Ok(Step::Embed(name.copy(alloc)?, value.copy(alloc)?, attrs))
}

/// Steps in order: no insertion stands behind a deletion.
pub type Steps = Vec<Step>;

// adds a step at the end, an insertion before the deletions that are last
fn push(steps: &mut Steps, step: Step) -> Result<(), Refusal> {
    let mut at = steps.len();
    if step.is_insert() {
        at = behind_deletions(steps.as_slice());
    }
    steps.insert(at.min(steps.len()), step)?;
    Ok(())
}

// how many steps stand before the deletions that are last
fn behind_deletions(steps: &[Step]) -> usize {
    match steps.iter().rposition(|step| !step.is_delete()) {
        Some(last) => last + 1,
        None => 0,
    }
}

fn push_all(alloc: Global, steps: &mut Steps, more: &[Step]) -> Result<(), Refusal> {
    for step in more {
        push(steps, step.copy(alloc)?)?;
    }
    Ok(())
}

fn push_kept(alloc: Global, steps: &mut Steps, count: usize) -> Result<(), Refusal> {
    for _ in 0..count {
        push(steps, Step::Keep(Change::new(alloc)))?;
    }
    Ok(())
}

/// The steps of a delta.
pub fn counted(alloc: Global, delta: &Delta) -> Result<Steps, Refusal> {
    let mut steps = Vec::new(alloc);
    for op in delta.ops() {
        count(alloc, op, &mut steps)?;
    }
    Ok(steps)
}

fn count(alloc: Global, op: &Op, steps: &mut Steps) -> Result<(), Refusal> {
    match op.get() {
        OpRef::Text(text, attrs) => {
            for code in text.encode_utf16() {
                push(steps, Step::Code(code, attrs.copy(alloc)?))?;
            }
            Ok(())
        }
        OpRef::Embed(name, value, attrs) => {
            let step = embed(alloc, name, value, attrs.copy(alloc)?)?;
            push(steps, step)
        }
        OpRef::Retain(len, change) => {
            for _ in 0..len {
                push(steps, Step::Keep(change.copy(alloc)?))?;
            }
            Ok(())
        }
        OpRef::Delete(len) => {
            for _ in 0..len {
                push(steps, Step::Delete)?;
            }
            Ok(())
        }
    }
}

/// Whether both do the same; units that are kept at the end of one count for nothing.
pub fn are_same(steps: &[Step], others: &[Step]) -> bool {
    for (i, step) in steps.iter().enumerate() {
        let same = match others.get(i) {
            Some(other) => step.is_same(other),
            None => step.is_plain(),
        };
        if !same {
            return false;
        }
    }
    others.iter().skip(steps.len()).all(|step| step.is_plain())
}

// the insertions that come first, and the steps behind them
fn after_inserts<'a>(steps: &'a [Step]) -> (&'a [Step], &'a [Step]) {
    match steps.iter().position(|step| !step.is_insert()) {
        Some(at) => steps.split_at(at),
        None => (steps, &[]),
    }
}

/// The steps of the first delta, and then the second.
pub fn composed(alloc: Global, first: &[Step], second: &[Step]) -> Result<Steps, Refusal> {
    if cuts(first, second) {
        return Err(Refusal::CutsPair);
    }
    let mut one = Vec::new(alloc);
    let mut rest = second;
    for step in first {
        if step.is_delete() {
            push(&mut one, Step::Delete)?;
        } else {
            let (inserts, behind) = after_inserts(rest);
            push_all(alloc, &mut one, inserts)?;
            rest = meet(alloc, step, behind, &mut one)?;
        }
    }
    push_all(alloc, &mut one, rest)?;
    Ok(one)
}

// a unit that the first inserts or keeps under the next step of the second, and the steps behind that
fn meet<'a>(
    alloc: Global,
    step: &Step,
    second: &'a [Step],
    one: &mut Steps,
) -> Result<&'a [Step], Refusal> {
    match second.split_first() {
        Some((Step::Keep(change), rest)) => {
            push(one, step.then(alloc, change)?)?;
            Ok(rest)
        }
        Some((_, rest)) => {
            if !step.is_insert() {
                push(one, Step::Delete)?;
            }
            Ok(rest)
        }
        None => {
            push(one, step.copy(alloc)?)?;
            Ok(second)
        }
    }
}

// whether the second parts a pair of code units that the first inserts
fn cuts(first: &[Step], second: &[Step]) -> bool {
    let mut rest = second;
    for (i, step) in first.iter().enumerate() {
        if step.is_delete() {
            continue;
        }
        let (_, behind) = after_inserts(rest);
        let is_first = match first.get(i + 1) {
            Some(next) => step.is_pair_with(next),
            None => false,
        };
        if is_first && changes_after_one(behind) {
            return true;
        }
        rest = match behind.split_first() {
            Some((_, others)) => others,
            None => behind,
        };
    }
    false
}

// whether the second of the steps does something else than the first; behind the last, units are kept
fn changes_after_one(steps: &[Step]) -> bool {
    match (steps.get(0), steps.get(1)) {
        (Some(step), Some(next)) => !step.is_same(next),
        (Some(step), None) => !step.is_plain(),
        _ => false,
    }
}

/// The steps of the second delta as they are after the first; with priority the first goes first.
pub fn transformed(
    alloc: Global,
    first: &[Step],
    second: &[Step],
    priority: bool,
) -> Result<Steps, Refusal> {
    let mut after = Vec::new(alloc);
    let mut rest = first;
    for step in second {
        if priority || !step.is_insert() {
            let (inserts, behind) = after_inserts(rest);
            push_kept(alloc, &mut after, inserts.len())?;
            rest = behind;
        }
        rest = pass(alloc, rest, step, priority, &mut after)?;
    }
    Ok(after)
}

// a step of the second past the next one of the first, and the steps behind that
fn pass<'a>(
    alloc: Global,
    first: &'a [Step],
    step: &Step,
    priority: bool,
    after: &mut Steps,
) -> Result<&'a [Step], Refusal> {
    if step.is_insert() {
        push(after, step.copy(alloc)?)?;
        return Ok(first);
    }
    match first.split_first() {
        Some((Step::Keep(change), rest)) => {
            push(after, step.beside(alloc, change, priority)?)?;
            Ok(rest)
        }
        Some((_, rest)) => Ok(rest),
        None => {
            push(after, step.copy(alloc)?)?;
            Ok(first)
        }
    }
}

/// The steps of a document after a delta. Refused as PastEnd where the delta has more steps than the document has units.
pub fn applied(alloc: Global, document: &[Step], delta: &[Step]) -> Result<Steps, Refusal> {
    if base_len(delta) > document.len() {
        return Err(Refusal::PastEnd);
    }
    composed(alloc, document, delta)
}

// how many units of the document are kept or deleted
fn base_len(delta: &[Step]) -> usize {
    delta.iter().filter(|step| !step.is_insert()).count()
}

/// The steps that take a delta back on a document. Refused as applying it is.
pub fn inverted(alloc: Global, delta: &[Step], document: &[Step]) -> Result<Steps, Refusal> {
    let _ = applied(alloc, document, delta)?;
    let mut back = Vec::new(alloc);
    let mut units = document;
    for step in delta {
        units = turn(alloc, step, units, &mut back)?;
    }
    Ok(back)
}

// a step back, and the units behind it
fn turn<'a>(
    alloc: Global,
    step: &Step,
    units: &'a [Step],
    back: &mut Steps,
) -> Result<&'a [Step], Refusal> {
    if step.is_insert() {
        push(back, Step::Delete)?;
        return Ok(units);
    }
    match units.split_first() {
        Some((unit, others)) => {
            push(back, step.back(alloc, unit)?)?;
            Ok(others)
        }
        None => Ok(units),
    }
}

/// Where a place is after a delta; with priority, what is inserted just there doesn't move it.
pub fn place(delta: &[Step], index: u64, priority: bool) -> u64 {
    let mut place: u64 = 0;
    let mut before = index;
    for step in delta {
        if step.is_insert() {
            if before > 0 || !priority {
                place = place.saturating_add(1);
            }
        } else if before == 0 {
            return place;
        } else {
            before -= 1;
            if !step.is_delete() {
                place = place.saturating_add(1);
            }
        }
    }
    place.saturating_add(before)
}
