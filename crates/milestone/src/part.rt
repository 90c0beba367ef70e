//! Half of a job's deltas, and the one delta for it.
ghost use Rattle.std.specs.Prelude.{◌≡◌, ◌+◌, ◌≤◌, IfOk, IfErr};
ghost use Rattle.delta.specs.Operation.{base_of, out_of};
ghost use Rattle.compose.specs.Many.{lengths_of};
ghost use Rattle.milestone.specs.Halves.{IsPart, ComposesPart, first_half, second_half};

use crate::job::{Job, copies};
use compose::{compose, compose_many};
use delta::Delta;
use std::alloc::{AllocError, Global};
use std::marker::Model;

/// So many deltas at most are composed one by one.
const FEW: usize = 8;

/// Some of a job's deltas, one after another, seen as these. Its type keeps that there are units on which they stand in turn, each
/// accepted by what those before it make of them, and that their base lengths and output lengths sum to at most 2^48.
#[derive(Drop)]
pub struct Part {
    deltas: Vec<Delta>,
}

impl Model for Part {
    ghost use Rattle.std.specs.Prelude.{List};
    ghost use Rattle.std.specs.Coded.{coded_list};
    ghost use Rattle.delta.specs.Operation.{Operation, operation_code};
    ghost use Rattle.milestone.specs.Halves as spec;

    ghost Value = { List (List Operation) };

    ghost coded = { coded_list (coded_list operation_code) };

    ghost view = { λ p. p.deltas.items };

    ghost invariant = { λ p. spec.IsPart p.deltas.items };
}

impl Part {
    /// Its deltas, in turn.
    pub fn deltas(&self) -> &[Delta]
        ensures deltas { result.now ≡ self.now }
        ensures part { IsPart self.now }
    {
        self.deltas.as_slice()
    }
}

/// A part and the one delta for it. Its value in contracts is the part, since the delta follows from it.
#[derive(Drop)]
pub struct PartDone {
    part: Part,
    one: Delta,
}

impl Model for PartDone {
    ghost use Rattle.std.specs.Prelude.{List};
    ghost use Rattle.std.specs.Coded.{coded_list};
    ghost use Rattle.delta.specs.Operation.{Operation, operation_code};
    ghost use Rattle.milestone.specs.Halves as spec;

    ghost Value = { List (List Operation) };

    ghost coded = { coded_list (coded_list operation_code) };

    ghost view = { λ d. d.part };

    ghost invariant = { λ d. spec.ComposesPart d.one d.part };
}

impl PartDone {
    /// The deltas of the part that was done.
    pub fn deltas(&self) -> &[Delta]
        ensures { result.now ≡ self.now }
    {
        self.part.deltas()
    }

    /// The one delta for them.
    pub fn one(&self) -> &Delta
        ensures { ComposesPart result.now self.now }
    {
        &self.one
    }
}

/// A part that wasn't done, unchanged: memory ran out.
#[derive(Drop)]
pub struct PartError {
    pub part: Part,
}

impl Job {
    /// The first half of its deltas, and the rest: of an odd number the second has one more. They share the deltas of the job, and need
    /// nothing of it, so that each can be composed in a thread of its own. Refused as out of memory alone.
    #[tactic(auto, using(crate::proofs::InTurn::first_part, crate::proofs::InTurn::second_part))]
    pub fn halves(&self, alloc: Global) -> Result<(Part, Part), AllocError>
        ensures first { IfOk result (λ parts. parts.0 ≡ first_half self.now.deltas) }
        ensures second { IfOk result (λ parts. parts.1 ≡ second_half self.now.deltas) }
    {
        let deltas = self.deltas();
        let (one, other) = deltas.split_at(deltas.len() / 2);
        Ok((part_of(alloc, one)?, part_of(alloc, other)?))
    }
}

/// Composes a part into one delta. Refused as out of memory alone, and then the part comes back.
pub fn compose_part(alloc: Global, part: Part) -> Result<PartDone, PartError>
    ensures done { IfOk result (λ done. done ≡ part) }
    ensures back { IfErr result (λ back. back.part ≡ part) }
{
    match one_for(alloc, part.deltas()) {
        Ok(one) => Ok(PartDone { part, one }),
        Err(_) => Err(PartError { part }),
    }
}

// A part of copies of these deltas. Refused as out of memory alone.
fn part_of(alloc: Global, deltas: &[Delta]) -> Result<Part, AllocError>
    requires { IsPart deltas.now }
    ensures part { IfOk result (λ part. part ≡ deltas.now) }
{
    Ok(Part {
        deltas: copies(alloc, deltas)?,
    })
}

/// The one delta for deltas that stand in turn on some units. Where they are many each half is composed by itself, and then the two, so that
/// the operations that are there are walked again for each halving alone, and not for each delta. Refused as out of memory alone.
pub(crate) fn one_for(alloc: Global, deltas: &[Delta]) -> Result<Delta, AllocError>
    requires { IsPart deltas.now }
    ensures composes { IfOk result (λ one. ComposesPart one deltas.now) }
    ensures lengths { IfOk result (λ one. base_of one + out_of one ≤ lengths_of deltas.now) }
{
    if deltas.len() <= FEW {
        return one_for_few(alloc, deltas);
    }
    let (begin, end) = deltas.split_at(deltas.len() / 2);
    let first = one_for(alloc, begin)?;
    let second = one_for(alloc, end)?;
    match compose(alloc, &first, &second) {
        Ok(one) => Ok(one),
        Err(refusal) => Err(refusal.as_alloc_error()),
    }
}

// The same, one by one from the left.
fn one_for_few(alloc: Global, deltas: &[Delta]) -> Result<Delta, AllocError>
    requires { IsPart deltas.now }
    ensures composes { IfOk result (λ one. ComposesPart one deltas.now) }
    ensures lengths { IfOk result (λ one. base_of one + out_of one ≤ lengths_of deltas.now) }
{
    match compose_many(alloc, deltas) {
        Ok(one) => Ok(one),
        Err(refusal) => Err(refusal.as_alloc_error()),
    }
}
