//! Deltas of plain letters, unit by unit.
use refusal::Refusal;
use std::alloc::Global;

/// What a delta does at one unit.
#[derive(Clone, Copy, PartialEq, Eq)]
pub enum Mark {
    Insert(u8),
    Keep,
    Drop,
}

/// The same effect, with what is inserted within a run of deletions before it, and without what is kept at the end.
pub fn normal(alloc: Global, delta: &[Mark]) -> Result<Vec<Mark>, Refusal> {
    let mut made = Vec::new(alloc);
    let mut dropped = 0_usize;
    for mark in delta {
        match *mark {
            Mark::Drop => dropped = dropped.saturating_add(1),
            Mark::Insert(letter) => made.push(Mark::Insert(letter))?,
            Mark::Keep => {
                push_drops(&mut made, dropped)?;
                dropped = 0;
                made.push(Mark::Keep)?;
            }
        }
    }
    push_drops(&mut made, dropped)?;
    made.truncate(before_kept(&made));
    Ok(made)
}

// How many marks stand before what is kept at the end.
fn before_kept(delta: &[Mark]) -> usize {
    let mut count = 0_usize;
    for (place, mark) in delta.iter().enumerate() {
        if *mark != Mark::Keep {
            count = place.saturating_add(1);
        }
    }
    count
}

fn push_drops(made: &mut Vec<Mark>, count: usize) -> Result<(), Refusal> {
    for _ in 0..count {
        made.push(Mark::Drop)?;
    }
    Ok(())
}

/// The text after a delta.
pub fn applied(alloc: Global, text: &[u8], delta: &[Mark]) -> Result<Vec<u8>, Refusal> {
    let mut made = Vec::new(alloc);
    let mut rest = text;
    for mark in delta {
        match (*mark, rest) {
            (Mark::Insert(letter), _) => made.push(letter)?,
            (Mark::Keep, [unit, others @ ..]) => {
                made.push(*unit)?;
                rest = others;
            }
            (Mark::Drop, [_, others @ ..]) => rest = others,
            _ => return Err(Refusal::PastEnd),
        }
    }
    made.extend_from_slice(rest)?;
    Ok(made)
}

/// A delta past one that was taken first.
pub fn past(alloc: Global, taken: &[Mark], delta: &[Mark]) -> Result<Vec<Mark>, Refusal> {
    let mut made = Vec::new(alloc);
    let mut first = taken;
    let mut second = delta;
    for _ in 0..taken.len().saturating_add(delta.len()) {
        match (first, second) {
            ([Mark::Insert(_), others @ ..], _) => {
                made.push(Mark::Keep)?;
                first = others;
            }
            (_, [Mark::Insert(letter), others @ ..]) => {
                made.push(Mark::Insert(*letter))?;
                second = others;
            }
            ([fate, others @ ..], [mark, more @ ..]) => {
                if *fate == Mark::Keep {
                    made.push(*mark)?;
                }
                first = others;
                second = more;
            }
            ([], [mark, more @ ..]) => {
                made.push(*mark)?;
                second = more;
            }
            (_, []) => {}
        }
    }
    normal(alloc, &made)
}

/// What takes a delta back that was made on a text.
pub fn back(alloc: Global, text: &[u8], delta: &[Mark]) -> Result<Vec<Mark>, Refusal> {
    let mut made = Vec::new(alloc);
    let mut rest = text;
    for mark in delta {
        match (*mark, rest) {
            (Mark::Insert(_), _) => made.push(Mark::Drop)?,
            (Mark::Keep, [_, others @ ..]) => {
                made.push(Mark::Keep)?;
                rest = others;
            }
            (Mark::Drop, [unit, others @ ..]) => {
                made.push(Mark::Insert(*unit))?;
                rest = others;
            }
            _ => return Err(Refusal::PastEnd),
        }
    }
    normal(alloc, &made)
}

/// How many bytes a delta has in the journal.
pub fn width(delta: &[Mark]) -> u64 {
    let mut width = 4_u64;
    let mut before = None;
    for mark in delta {
        let more = match (*mark, before) {
            (Mark::Insert(_), Some(Mark::Insert(_))) => 1,
            (Mark::Insert(_), _) => 10,
            (Mark::Keep, Some(Mark::Keep)) => 0,
            (Mark::Keep, _) => 13,
            (Mark::Drop, Some(Mark::Drop)) => 0,
            (Mark::Drop, _) => 9,
        };
        width = width.saturating_add(more);
        before = Some(*mark);
    }
    width
}
