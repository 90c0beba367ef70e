//! Deltas and documents as JSON, on a page: each operation is spelled as it is held, and nothing of it is copied. Nothing here takes
//! memory.
ghost use Rattle.std.specs.Prelude.{◌≡◌, ◌++◌, codes, decimal};
ghost use Rattle.delta.specs.Gaps.{End};
ghost use Rattle.delta.specs.Normal.{nf};
ghost use Rattle.delta.specs.Operation.{Operation, delete};
ghost use Rattle.json.specs.Print.{quoted, token_text};
ghost use Rattle.json.specs.Token as token;
ghost use Rattle.optext.specs.Printed.{printed, printed_operation, printed_scalar, printed_change, printed_entries, printed_embed, printed_insert, printed_retain};
ghost use Rattle.serde_json.specs.Data.{array, object, string, number};
ghost use Rattle.serde_json.specs.Find.{of_integer};
ghost use Rattle.serde_json.specs.Written.{comma_if, compact_text, number_text};
ghost use Rattle.utf16.specs.Units.{units_of, utf8_of};
ghost use Rattle.session.specs.Page.{Spells};
ghost use Rattle.session.specs.Reply.{printed_delta, printed_deltas};
ghost use Rattle.session.specs.steps.Printing.{InsertsRun, opening};

use crate::output::Output;
use crate::page::Page;
use crate::quoting::push_quoted;
use attributes::{Attrs, Change, Key, Value, ValueRef};
use delta::{Delta, Op, OpRef};
use document::{Document, Piece, SharedRun};
use itoa::Buffer;
use utf16::laws::text_of_units;

/// Puts deltas, as the array of their arrays.
pub fn push_deltas<O: Output>(page: &mut Page, out: &mut O, deltas: &[Delta])
    ensures { Spells O.contents O.has_failed out.old page.old out.new page.new
        (compact_text (array (printed_deltas deltas.now))) }
{
    page.push_str(out, "[");
    let mut later = false;
    let mut rest = deltas;
    while let Some((delta, others)) = rest.split_first() {
        if page.has_failed() {
            return;
        }
        push_comma(page, out, later);
        push_delta(page, out, delta);
        later = true;
        rest = others;
    }
    page.push_str(out, "]");
}

/// Puts a delta, as the array of its operations.
pub fn push_delta<O: Output>(page: &mut Page, out: &mut O, delta: &Delta)
    ensures { Spells O.contents O.has_failed out.old page.old out.new page.new
        (compact_text (printed_delta delta.now)) }
{
    push_ops(page, out, delta.ops());
}

fn push_ops<O: Output>(page: &mut Page, out: &mut O, ops: &[Op])
    ensures { Spells O.contents O.has_failed out.old page.old out.new page.new
        (compact_text (array (printed ops.now))) }
{
    page.push_str(out, "[");
    let mut later = false;
    let mut rest = ops;
    while let Some((op, others)) = rest.split_first() {
        push_comma(page, out, later);
        push_op(page, out, op);
        later = true;
        rest = others;
    }
    page.push_str(out, "]");
}

// Puts an operation.
fn push_op<O: Output>(page: &mut Page, out: &mut O, op: &Op)
    ensures { Spells O.contents O.has_failed out.old page.old out.new page.new
        (compact_text (printed_operation op.now)) }
{
    match op.get() {
        OpRef::Text(text, attrs) => push_text(page, out, text, attrs),
        OpRef::Embed(name, value, attrs) => push_embed(page, out, name, value, attrs),
        OpRef::Retain(len, change) => push_retain(page, out, len, change),
        OpRef::Delete(len) => push_delete(page, out, len),
    }
}

// Puts the operation that inserts a text.
fn push_text<O: Output>(page: &mut Page, out: &mut O, text: &str, attrs: &Attrs)
    ensures { Spells O.contents O.has_failed out.old page.old out.new page.new
        (compact_text (printed_insert attrs.now (string (utf8_of (units_of text.now))))) }
{
    text_of_units();
    push_opening(page, out, attrs);
    page.push_str(out, "\"insert\":");
    push_quoted(page, out, text);
    page.push_str(out, "}");
}

// Puts the operation that inserts an embed.
fn push_embed<O: Output>(page: &mut Page, out: &mut O, name: &Key, value: &Value, attrs: &Attrs)
    ensures { Spells O.contents O.has_failed out.old page.old out.new page.new
        (compact_text (printed_insert attrs.now (printed_embed name.now value.now))) }
{
    push_opening(page, out, attrs);
    page.push_str(out, "\"insert\":{");
    push_quoted(page, out, name.as_str());
    page.push_str(out, ":");
    push_value(page, out, value);
    page.push_str(out, "}}");
}

// Puts the operation that retains so many code units.
fn push_retain<O: Output>(page: &mut Page, out: &mut O, len: u64, change: &Change)
    ensures { Spells O.contents O.has_failed out.old page.old out.new page.new
        (compact_text (printed_retain change.now len)) }
{
    push_opening_of_change(page, out, change);
    page.push_str(out, "\"retain\":");
    push_number(page, out, len);
    page.push_str(out, "}");
}

// Puts the operation that deletes so many code units.
fn push_delete<O: Output>(page: &mut Page, out: &mut O, len: u64)
    ensures { Spells O.contents O.has_failed out.old page.old out.new page.new
        (compact_text (printed_operation (delete len))) }
{
    page.push_str(out, "{\"delete\":");
    push_number(page, out, len);
    page.push_str(out, "}");
}

// Begins an operation, with its attributes where it has any.
fn push_opening<O: Output>(page: &mut Page, out: &mut O, attrs: &Attrs)
    ensures { Spells O.contents O.has_failed out.old page.old out.new page.new
        (opening (printed_entries printed_scalar attrs.now.entries)) }
{
    let entries = attrs.entries();
    if entries.is_empty() {
        page.push_str(out, "{");
        return;
    }
    page.push_str(out, "{\"attributes\":");
    push_attributes(page, out, entries);
    page.push_str(out, ",");
}

fn push_opening_of_change<O: Output>(page: &mut Page, out: &mut O, change: &Change)
    ensures { Spells O.contents O.has_failed out.old page.old out.new page.new
        (opening (printed_entries printed_change change.now.entries)) }
{
    let entries = change.entries();
    if entries.is_empty() {
        page.push_str(out, "{");
        return;
    }
    page.push_str(out, "{\"attributes\":");
    push_changes(page, out, entries);
    page.push_str(out, ",");
}

// Puts names with their values.
fn push_attributes<O: Output>(page: &mut Page, out: &mut O, entries: &[(Key, Value)])
    ensures { Spells O.contents O.has_failed out.old page.old out.new page.new
        (compact_text (object (printed_entries printed_scalar entries.now))) }
{
    page.push_str(out, "{");
    let mut later = false;
    let mut rest = entries;
    while let Some((entry, others)) = rest.split_first() {
        push_name(page, out, later, &entry.0);
        push_value(page, out, &entry.1);
        later = true;
        rest = others;
    }
    page.push_str(out, "}");
}

// Puts names with what a change makes of them.
fn push_changes<O: Output>(page: &mut Page, out: &mut O, entries: &[(Key, Option<Value>)])
    ensures { Spells O.contents O.has_failed out.old page.old out.new page.new
        (compact_text (object (printed_entries printed_change entries.now))) }
{
    page.push_str(out, "{");
    let mut later = false;
    let mut rest = entries;
    while let Some((entry, others)) = rest.split_first() {
        push_name(page, out, later, &entry.0);
        push_change(page, out, &entry.1);
        later = true;
        rest = others;
    }
    page.push_str(out, "}");
}

// Puts a member's name and its colon, behind a comma where another member stands before it.
fn push_name<O: Output>(page: &mut Page, out: &mut O, later: bool, name: &Key)
    ensures { Spells O.contents O.has_failed out.old page.old out.new page.new
        (comma_if later ++ (quoted name.now ++ codes ":")) }
{
    push_comma(page, out, later);
    push_quoted(page, out, name.as_str());
    page.push_str(out, ":");
}

fn push_comma<O: Output>(page: &mut Page, out: &mut O, later: bool)
    ensures { Spells O.contents O.has_failed out.old page.old out.new page.new (comma_if later) }
{
    if !later {
        return;
    }
    page.push_str(out, ",");
}

fn push_value<O: Output>(page: &mut Page, out: &mut O, value: &Value)
    ensures { Spells O.contents O.has_failed out.old page.old out.new page.new
        (compact_text (printed_scalar value.now)) }
{
    match value.get() {
        ValueRef::Text(text) => push_quoted(page, out, text),
        ValueRef::Whole(number) => push_whole(page, out, number),
        ValueRef::Flag(flag) => page.push_str(out, word_of(flag)),
    }
}

fn push_change<O: Output>(page: &mut Page, out: &mut O, value: &Option<Value>)
    ensures { Spells O.contents O.has_failed out.old page.old out.new page.new
        (compact_text (printed_change value.now)) }
{
    match value {
        Some(value) => push_value(page, out, value),
        None => page.push_str(out, "null"),
    }
}

fn word_of(flag: bool) -> &'static str
    ensures { result.now ≡ token_text (token.boolean flag) }
{
    if flag { "true" } else { "false" }
}

/// Puts a number in decimal.
pub fn push_number<O: Output>(page: &mut Page, out: &mut O, number: u64)
    ensures { Spells O.contents O.has_failed out.old page.old out.new page.new (decimal number) }
{
    let mut digits = Buffer::new();
    page.push_str(out, digits.format(number));
}

fn push_whole<O: Output>(page: &mut Page, out: &mut O, number: i64)
    ensures { Spells O.contents O.has_failed out.old page.old out.new page.new
        (number_text (of_integer number)) }
{
    let mut digits = Buffer::new();
    page.push_str(out, digits.format(number));
}

/// Puts the operations that make a document of the empty one, as their array.
pub fn push_document<O: Output>(page: &mut Page, out: &mut O, document: &Document)
    ensures { Spells O.contents O.has_failed out.old page.old out.new page.new
        (compact_text (printed_delta (nf (End document.now)))) }
{
    page.push_str(out, "[");
    let mut later = false;
    let mut rest = document.chunks();
    while let Some((chunk, others)) = rest.split_first() {
        if page.has_failed() {
            return;
        }
        let mut runs = chunk.runs();
        while let Some((run, behind)) = runs.split_first() {
            push_comma(page, out, later);
            push_run(page, out, run);
            later = true;
            runs = behind;
        }
        rest = others;
    }
    page.push_str(out, "]");
}

// Puts the operation that inserts a run.
fn push_run<O: Output>(page: &mut Page, out: &mut O, run: &SharedRun)
    ensures { (op : Operation) × InsertsRun run.now op
        × Spells O.contents O.has_failed out.old page.old out.new page.new (compact_text (printed_operation op)) }
{
    match run.piece() {
        Piece::Text(text, _, attrs) => push_text(page, out, text, attrs),
        Piece::Embed(name, value, attrs) => push_embed(page, out, name, value, attrs),
    }
}
