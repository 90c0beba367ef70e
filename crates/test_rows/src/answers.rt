//! What a row comes to.
ghost use Rattle.std.specs.Prelude.{◌≡◌, ◌++◌, codes, decimal, IfOk};
ghost use Rattle.std.specs.String.{string_bytes};
ghost use Rattle.optext.specs.Answer.{IsAnswer};
ghost use Rattle.test_rows.specs.Words.{delta_in};

use crate::cases::cases;
use algebra::{Task, write_delta};
use compose::compose_many;
use delta::{Delta, MAX_LEN};
use document::Document;
use optext::{member_count, read_json, read_ops};
use refusal::Refusal;
use std::alloc::{AllocError, Global};
use utf16::{len16, split_at16};
use xform::{move_past, transform_position};

/// The line that is printed for a row, whose words are set apart by tabs, or the refusal.
pub fn answer(alloc: Global, row: &str) -> Result<String, Refusal> {
    let words: Vec<&str> = row.split('\t').collect(alloc)?;
    answer_words(alloc, words.as_slice())
}

fn answer_words(alloc: Global, words: &[&str]) -> Result<String, Refusal> {
    match words {
        ["compose", first, second] => Task::Compose { first, second }.answer(alloc),
        ["transform", first, second] => transform(alloc, first, second, false),
        ["transform", first, second, "first"] => transform(alloc, first, second, true),
        ["moved", ops, others] => moved(alloc, ops, others),
        ["invert", delta, base] => Task::Invert { delta, base }.answer(alloc),
        ["apply", document, delta] => Task::Apply { document, delta }.answer(alloc),
        ["many", deltas @ ..] => many(alloc, deltas),
        ["normal", ops] => normal(alloc, ops),
        ["same", ops, others] => same(alloc, ops, others),
        ["lengths", ops] => lengths(alloc, ops),
        ["position", ops, index] => position(alloc, ops, index, false),
        ["position", ops, index, "first"] => position(alloc, ops, index, true),
        ["document", ops] => document(alloc, ops),
        ["weighs", ops, others] => weighs(alloc, ops, others),
        ["length", text] => length(alloc, text),
        ["split", text, index] => split(alloc, text, index),
        ["members", text] => members(alloc, text),
        ["cases", call, seed, count] => cases(alloc, call, seed, count),
        _ => no_row(alloc),
    }
}

/// What is printed for a line that is no row.
pub fn no_row(alloc: Global) -> Result<String, Refusal> {
    Ok(String::from_str(alloc, "no row")?)
}

fn transform(alloc: Global, first: &str, second: &str, priority: bool) -> Result<String, Refusal> {
    let task = Task::Transform {
        first,
        second,
        priority,
    };
    task.answer(alloc)
}

fn moved(alloc: Global, ops: &str, others: &str) -> Result<String, Refusal> {
    let first = read(alloc, ops)?;
    let second = read(alloc, others)?;
    Ok(write_delta(alloc, &move_past(alloc, &first, second)?)?)
}

// the delta that an array of operations describes
fn read(alloc: Global, ops: &str) -> Result<Delta, Refusal>
    ensures { IsAnswer (delta_in ops.now) result }
{
    let value = read_json(alloc, ops.as_bytes())?;
    match value.as_array() {
        Some(operations) => read_ops(alloc, operations.as_slice()),
        None => Err(Refusal::BadMessage),
    }
}

fn normal(alloc: Global, ops: &str) -> Result<String, Refusal> {
    Ok(write_delta(alloc, &read(alloc, ops)?)?)
}

fn many(alloc: Global, words: &[&str]) -> Result<String, Refusal> {
    let mut deltas = Vec::new(alloc);
    for ops in words {
        deltas.push(read(alloc, ops)?)?;
    }
    Ok(write_delta(alloc, &compose_many(alloc, &deltas)?)?)
}

fn same(alloc: Global, ops: &str, others: &str) -> Result<String, Refusal> {
    let same = read(alloc, ops)? == read(alloc, others)?;
    Ok(format!(in alloc; "{same}")?)
}

fn lengths(alloc: Global, ops: &str) -> Result<String, Refusal> {
    let delta = read(alloc, ops)?;
    Ok(both(alloc, delta.base_len(), delta.out_len())?)
}

fn document(alloc: Global, ops: &str) -> Result<String, Refusal> {
    let document = Document::from_delta(alloc, &read(alloc, ops)?)?;
    Ok(both(alloc, document.len16(), document.weight())?)
}

fn weighs(alloc: Global, ops: &str, others: &str) -> Result<String, Refusal> {
    let document = Document::from_delta(alloc, &read(alloc, ops)?)?;
    let delta = read(alloc, others)?;
    let told = document.weigh(&delta)?;
    Ok(both(alloc, told, document.after(alloc, &delta)?.weight())?)
}

// two numbers, set apart by a blank
fn both(alloc: Global, first: u64, second: u64) -> Result<String, AllocError>
    ensures text { IfOk result (λ text. string_bytes text ≡ decimal first ++ (codes " " ++ decimal second)) }
{
    Ok(format!(in alloc; "{first} {second}")?)
}

fn position(alloc: Global, ops: &str, index: &str, priority: bool) -> Result<String, Refusal> {
    let delta = read(alloc, ops)?;
    match index.parse::<u64>() {
        Ok(index) if index <= MAX_LEN => {
            let place = transform_position(&delta, index, priority);
            Ok(format!(in alloc; "{place}")?)
        }
        _ => no_row(alloc),
    }
}

fn length(alloc: Global, text: &str) -> Result<String, Refusal> {
    Ok(format!(in alloc; "{}", len16(text))?)
}

fn split(alloc: Global, text: &str, index: &str) -> Result<String, Refusal> {
    let Ok(at) = index.parse::<u64>() else {
        return no_row(alloc);
    };
    match split_at16(text, at) {
        Ok((front, back)) => Ok(format!(in alloc; "{front}\t{back}")?),
        Err(cut) => Ok(format!(in alloc; "{cut:?}")?),
    }
}

fn members(alloc: Global, text: &str) -> Result<String, Refusal> {
    let value = read_json(alloc, text.as_bytes())?;
    Ok(format!(in alloc; "{}", member_count(&value))?)
}
