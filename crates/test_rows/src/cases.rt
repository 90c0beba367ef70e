//! Generated cases: the crates against the plain program.
use crate::answers::no_row;
use crate::generated::Numbers;
use crate::plain;
use crate::plain::{Steps, are_same, counted};
use compose::{compose, compose_many, invert};
use delta::Delta;
use document::Document;
use refusal::Refusal;
use std::alloc::Global;
use xform::{move_past, transform, transform_position};

/// What the cases of a call came to.
#[derive(Drop)]
struct Tally {
    made: u64,
    past_end: u64,
    cut: u64,
}

/// `alike` where a call and its plain program come to the same in each of so many cases, with what they came to in one of
/// thirty or more; else `unlike`.
pub fn cases(alloc: Global, call: &str, seed: &str, count: &str) -> Result<String, Refusal> {
    let (Ok(state), Ok(count)) = (seed.parse::<u64>(), count.parse::<u64>()) else {
        return no_row(alloc);
    };
    let mut numbers = Numbers { state };
    let mut tally = Tally {
        made: 0,
        past_end: 0,
        cut: 0,
    };
    for _ in 0..count {
        if !is_alike(alloc, call, &mut numbers, &mut tally)? {
            return Ok(String::from_str(alloc, "unlike")?);
        }
    }
    tally.line(alloc, count / 30)
}

impl Tally {
    // what came so often
    fn line(&self, alloc: Global, often: u64) -> Result<String, Refusal> {
        let mut line = String::from_str(alloc, "alike")?;
        if self.made >= often {
            line.push_str(", made")?;
        }
        if self.past_end >= often {
            line.push_str(", PastEnd")?;
        }
        if self.cut >= often {
            line.push_str(", CutsPair")?;
        }
        Ok(line)
    }

    // counts what a call came to, and says whether the plain program came to the same
    fn add(
        &mut self,
        alloc: Global,
        found: Result<Delta, Refusal>,
        plain: Result<Steps, Refusal>,
    ) -> Result<bool, Refusal> {
        match (found, plain) {
            (Ok(delta), Ok(steps)) => {
                self.made = self.made.saturating_add(1);
                Ok(are_same(&counted(alloc, &delta)?, &steps))
            }
            (Err(Refusal::PastEnd), Err(Refusal::PastEnd)) => {
                self.past_end = self.past_end.saturating_add(1);
                Ok(true)
            }
            (Err(Refusal::CutsPair), Err(Refusal::CutsPair)) => {
                self.cut = self.cut.saturating_add(1);
                Ok(true)
            }
            _ => Ok(false),
        }
    }
}

// whether both come to the same in the next case
fn is_alike(
    alloc: Global,
    call: &str,
    numbers: &mut Numbers,
    tally: &mut Tally,
) -> Result<bool, Refusal> {
    if call == "position" {
        return places(alloc, numbers);
    }
    let first = match call {
        "apply" | "invert" => numbers.document(alloc)?,
        _ => numbers.delta(alloc)?,
    };
    let second = numbers.delta(alloc)?;
    let found = found(alloc, call, &first, &second);
    tally.add(alloc, found, expected(alloc, call, &first, &second))
}

// what a call comes to; the document that it may ask for is that of the first delta
fn found(alloc: Global, call: &str, first: &Delta, second: &Delta) -> Result<Delta, Refusal> {
    match call {
        "apply" => applied(alloc, first, second),
        "compose" => compose(alloc, first, second),
        "many" => composed_thrice(alloc, first, second),
        "transform" => transform(alloc, first, second, false),
        "transform first" => transform(alloc, first, second, true),
        "moved" => move_past(alloc, first, second.copy(alloc)?),
        "invert" => inverted(alloc, first, second),
        _ => Err(Refusal::BadMessage),
    }
}

fn applied(alloc: Global, start: &Delta, delta: &Delta) -> Result<Delta, Refusal> {
    let mut document = Document::from_delta(alloc, start)?;
    document.apply(alloc, delta)?;
    Ok(document.as_delta(alloc)?)
}

// the first, the second, and the first again
fn composed_thrice(alloc: Global, first: &Delta, second: &Delta) -> Result<Delta, Refusal> {
    let mut deltas = Vec::new(alloc);
    for delta in [first, second, first] {
        deltas.push(delta.copy(alloc)?)?;
    }
    compose_many(alloc, &deltas)
}

fn inverted(alloc: Global, start: &Delta, delta: &Delta) -> Result<Delta, Refusal> {
    let document = Document::from_delta(alloc, start)?;
    invert(alloc, delta, &document)
}

// what the plain program of a call comes to
fn expected(alloc: Global, call: &str, first: &Delta, second: &Delta) -> Result<Steps, Refusal> {
    let first = counted(alloc, first)?;
    let second = counted(alloc, second)?;
    match call {
        "apply" => plain::applied(alloc, &first, &second),
        "compose" => plain::composed(alloc, &first, &second),
        "many" => {
            let both = plain::composed(alloc, &first, &second)?;
            plain::composed(alloc, &both, &first)
        }
        "transform" => plain::transformed(alloc, &first, &second, false),
        "transform first" | "moved" => plain::transformed(alloc, &first, &second, true),
        "invert" => plain::inverted(alloc, &second, &first),
        _ => Err(Refusal::BadMessage),
    }
}

// each place from 0 to a few past the last unit that the delta speaks of
fn places(alloc: Global, numbers: &mut Numbers) -> Result<bool, Refusal> {
    let delta = numbers.delta(alloc)?;
    let steps = counted(alloc, &delta)?;
    for index in 0..delta.base_len().min(24) + 4 {
        for priority in [true, false] {
            if transform_position(&delta, index, priority)
                != plain::place(&steps, index, priority)
            {
                return Ok(false);
            }
        }
    }
    Ok(true)
}
