//! Lines that are due, spelled when they are written.
ghost use Rattle.std.specs.Prelude.{◌≡◌, ◌+◌, ◌<◌, ◌^◌, length, IfOk};
ghost use Rattle.session.specs.News.{lines_of};
ghost use Rattle.session.specs.Page.{Spells};
ghost use Rattle.session.specs.Reply as spec;
ghost use Rattle.session.specs.steps.DueText.{due_text};

use crate::output::Output;
use crate::page::Page;
use crate::printing::{push_delta, push_deltas, push_document, push_number};
use crate::quoting::push_quoted;
use delta::Delta;
use document::Document;
use revision::Name;
use std::alloc::{AllocError, Global};
use std::marker::Model;

/// Lines that are due. What they print of a document is held together with the state that it was read of, not copied, so it stays
/// while they are written, whatever happens to the document.
#[derive(Drop)]
pub enum Due {
    /// A line that is spelled already.
    Line(String),
    /// The reply to since for a document of this name: these deltas; the last one made this revision.
    Since(Name, Vec<Delta>, u64),
    /// The reply to fetch for a document of this name: what stood in it at this revision.
    Fetched(Name, Document, u64),
    /// News of a document.
    News(Changes),
}

/// The deltas that were taken of a document of this name after a revision; the last makes a revision below 2^53.
#[derive(Drop)]
pub struct Changes {
    name: Name,
    last: u64,
    deltas: Vec<Delta>,
}

impl Model for Changes {
    ghost use Rattle.std.specs.Prelude.{◌+◌, ◌<◌, ◌^◌, length};
    ghost use Rattle.session.specs.steps.Changes as spec;

    ghost Value = { spec.Changes };

    ghost view = { λ c. record { name = c.name; last = c.last; deltas = c.deltas.items } };

    ghost invariant = { λ c. c.last + length c.deltas.items < 2 ^ 53 };
}

impl Changes {
    /// The changes after a revision.
    pub fn new(name: Name, last: u64, deltas: Vec<Delta>) -> Changes
        requires { last + length deltas.items < 2 ^ 53 }
        ensures { result ≡ record { name = name; last = last; deltas = deltas.items } }
    {
        Changes { name, last, deltas }
    }

    // Puts a line for each.
    fn print<O: Output>(&self, page: &mut Page, out: &mut O)
        ensures { Spells O.contents O.has_failed out.old page.old out.new page.new
            (lines_of self.now.name self.now.last self.now.deltas) }
    {
        print_news(page, out, &self.name, self.last, self.deltas.as_slice());
    }
}

impl Due {
    /// Spells the lines. It takes no memory.
    pub fn print<O: Output>(&self, page: &mut Page, out: &mut O)
        ensures { Spells O.contents O.has_failed out.old page.old out.new page.new (due_text self.now) }
    {
        match self {
            Due::Line(text) => page.push_str(out, text.as_str()),
            Due::Since(name, deltas, rev) => print_since(page, out, name, deltas.as_slice(), *rev),
            Due::Fetched(name, document, rev) => print_fetched(page, out, name, document, *rev),
            Due::News(changes) => changes.print(page, out),
        }
    }
}

/// Copies of deltas, which share their operations with these where those are shared.
pub fn copies_of(alloc: Global, deltas: &[Delta]) -> Result<Vec<Delta>, AllocError>
    ensures { IfOk result (λ copies. copies.items ≡ deltas.now) }
{
    let mut copies = Vec::with_capacity(alloc, deltas.len())?;
    for delta in deltas {
        let Ok(copy) = delta.copy(alloc) else {
            return Err(AllocError);
        };
        copies.push(copy)?;
    }
    Ok(copies)
}

fn print_since<O: Output>(page: &mut Page, out: &mut O, name: &Name, deltas: &[Delta], rev: u64)
    ensures { Spells O.contents O.has_failed out.old page.old out.new page.new
        (spec.line_of (spec.since_reply name.now deltas.now rev)) }
{
    page.push_str(out, "{\"deltas\":");
    push_deltas(page, out, deltas);
    page.push_str(out, ",\"doc\":");
    push_quoted(page, out, name.as_str());
    page.push_str(out, ",\"ok\":\"since\",\"rev\":");
    push_number(page, out, rev);
    page.push_str(out, "}\n");
}

fn print_fetched<O: Output>(
    page: &mut Page,
    out: &mut O,
    name: &Name,
    document: &Document,
    rev: u64,
)
    ensures { Spells O.contents O.has_failed out.old page.old out.new page.new
        (spec.line_of (spec.document_reply name.now document.now rev)) }
{
    page.push_str(out, "{\"doc\":");
    push_quoted(page, out, name.as_str());
    page.push_str(out, ",\"ok\":\"doc\",\"ops\":");
    push_document(page, out, document);
    page.push_str(out, ",\"rev\":");
    push_number(page, out, rev);
    page.push_str(out, "}\n");
}

// Puts a line for each delta; the first delta made the revision after this one.
fn print_news<O: Output>(page: &mut Page, out: &mut O, name: &Name, last: u64, deltas: &[Delta])
    requires { last + length deltas.now < 2 ^ 53 }
    ensures { Spells O.contents O.has_failed out.old page.old out.new page.new
        (lines_of name.now last deltas.now) }
{
    let mut revision = last;
    let mut rest = deltas;
    while let Some((delta, others)) = rest.split_first() {
        if page.has_failed() {
            return;
        }
        revision += 1;
        print_change(page, out, name, revision, delta);
        rest = others;
    }
}

fn print_change<O: Output>(page: &mut Page, out: &mut O, name: &Name, revision: u64, delta: &Delta)
    ensures { Spells O.contents O.has_failed out.old page.old out.new page.new
        (spec.news_line name.now revision delta.now) }
{
    page.push_str(out, "{\"doc\":");
    push_quoted(page, out, name.as_str());
    page.push_str(out, ",\"news\":");
    push_number(page, out, revision);
    page.push_str(out, ",\"ops\":");
    push_delta(page, out, delta);
    page.push_str(out, "}\n");
}
