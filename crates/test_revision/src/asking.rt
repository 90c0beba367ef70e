//! States, what is asked of them in order, and what they hold then.
use crate::steps::{Step, delta_of};
use document::Document;
use refusal::Refusal;
use revision::{Command, DocState, Limits, Name, Plan, Reply, State, Taken};
use std::process::Abort;

/// What is asked for.
#[derive(Clone, Copy)]
pub enum What {
    /// The creation of a document.
    Create(&'static [Step]),
    /// An edit that was made on a revision.
    Edit(u64, &'static [Step]),
    /// An undo.
    Undo,
    /// A deletion.
    Delete,
}

/// The reply to a command.
#[derive(Clone, Copy)]
pub enum Answer {
    /// It made this revision now.
    Now(u64),
    /// It made this revision before.
    Again(u64),
    /// It is refused.
    Not(Refusal),
}

/// A source, a document, the source's number, what it asks for, and the reply.
pub type Row = (&'static str, &'static str, u64, What, Answer);

fn reply_of(answer: Answer) -> Result<Reply, Refusal> {
    match answer {
        Answer::Now(rev) => Ok(Reply::Taken { rev }),
        Answer::Again(rev) => Ok(Reply::Again { rev }),
        Answer::Not(refusal) => Err(refusal),
    }
}

/// An empty state of at most two documents with four sources each, which holds two revisions below the newest one. Each
/// document may weigh so much, and each entry be so wide.
pub fn empty(rt: &impl AllocGlobal, weight: u32, width: u32) -> State {
    State::new(rt.alloc(), Limits::new(2, 4, weight, width, 2))
}

/// The empty state of a store whose slots and cells have 256 bytes.
pub fn small(rt: &impl AllocGlobal) -> State {
    empty(rt, 128, 237)
}

/// An empty state whose documents may each weigh 20,000, and which holds 16 revisions below the newest one, or two.
pub fn roomy(rt: &impl AllocGlobal, is_long: bool) -> State {
    let keep = if is_long { 16 } else { 2 };
    State::new(rt.alloc(), Limits::new(2, 4, 20_000, 237, keep))
}

/// The name of a document.
pub fn doc(rt: &(impl Abort + AllocGlobal), name: &str) -> Name {
    Name::doc(rt.alloc(), name).expect(rt, "a document")
}

/// The source's command to a document.
pub fn command(
    rt: &(impl Abort + AllocGlobal),
    source: &str,
    name: &str,
    number: u64,
    what: What,
) -> Result<Command, Refusal> {
    command_of(rt, doc(rt, name), source, number, what)
}

fn command_of(
    rt: &(impl Abort + AllocGlobal),
    name: Name,
    source: &str,
    number: u64,
    what: What,
) -> Result<Command, Refusal> {
    assert!(rt; 1 <= number && number < 1 << 53);
    let source = Name::source(rt.alloc(), source).expect(rt, "a source");
    match what {
        What::Create(steps) => Command::create(name, source, number, delta_of(rt, steps)),
        What::Edit(base, steps) => Command::edit(name, source, number, base, delta_of(rt, steps)),
        What::Undo => Ok(Command::undo(name, source, number)),
        What::Delete => Ok(Command::delete(name, source, number)),
    }
}

/// How a command by `a` is answered, which leaves the state as it is.
pub fn planned(
    rt: &(impl Abort + AllocGlobal),
    state: &State,
    name: &str,
    number: u64,
    what: What,
) -> Result<Plan, Refusal> {
    let command = command(rt, "a", name, number, what).expect(rt, "a command");
    state.plan(rt.alloc(), &command)
}

/// What is added where a command by `a` is taken.
pub fn taken(
    rt: &(impl Abort + AllocGlobal),
    state: &State,
    name: &str,
    number: u64,
    what: What,
) -> Taken {
    match planned(rt, state, name, number, what).expect(rt, "taken") {
        Plan::Taken(taken) => taken,
        Plan::Again { rev: _ } => rt.abort(),
    }
}

/// How wide the entry of a command to `d` by `a` is.
pub fn wide(
    rt: &(impl Abort + AllocGlobal),
    state: &State,
    number: u64,
    what: What,
    wanted: Result<u64, Refusal>,
) {
    assert_eq!(rt; width_of(planned(rt, state, "d", number, what)), wanted);
}

fn width_of(planned: Result<Plan, Refusal>) -> Result<u64, Refusal> {
    match planned {
        Ok(Plan::Taken(taken)) => Ok(taken.width()),
        Ok(Plan::Again { rev }) => Ok(rev),
        Err(refusal) => Err(refusal),
    }
}

/// A copy of a command is decided with this reply.
pub fn asked(rt: &(impl Abort + AllocGlobal), state: &mut State, row: &Row) {
    let (source, name, number, what, wanted) = row;
    let command = command(rt, source, name, *number, *what).expect(rt, "a command");
    let copy = command.copy(rt.alloc()).expect(rt, "memory");
    let reply = state.decide(rt.alloc(), &copy);
    assert_eq!(rt; reply, reply_of(*wanted), "{number} of {source} to {name}");
}

/// The state that commands in order make of one, where each is decided with its reply.
pub fn after(rt: &(impl Abort + AllocGlobal), state: State, rows: &[Row]) -> State {
    let mut state = state;
    are_asked(rt, &mut state, rows);
    state
}

// Commands in order are each decided with their replies.
fn are_asked(rt: &(impl Abort + AllocGlobal), state: &mut State, rows: &[Row]) {
    for row in rows {
        asked(rt, state, row);
    }
}

/// The document `d` is what these steps make at a revision.
pub fn made(rt: &(impl Abort + AllocGlobal), state: &State, revision: u64, steps: &[Step]) {
    let document = state.at(rt.alloc(), &doc(rt, "d"), revision);
    is_made(rt, &document.expect(rt, "held"), steps);
}

/// A document is what these steps make.
pub fn is_made(rt: &(impl Abort + AllocGlobal), document: &Document, steps: &[Step]) {
    let content = document.as_delta(rt.alloc()).expect(rt, "memory");
    assert!(rt; content == delta_of(rt, steps));
}

/// The first delta of `d` that was taken after a revision.
pub fn taken_as(rt: &(impl Abort + AllocGlobal), state: &State, revision: u64, steps: &[Step]) {
    let name = doc(rt, "d");
    let since = state.since(&name, revision).expect(rt, "held");
    assert!(rt; !since.is_empty() && since[0] == delta_of(rt, steps));
}

fn line_of(rt: &(impl Abort + AllocGlobal), record: &DocState) -> String {
    let name = record.name().as_str();
    let (revision, floor) = (record.revision(), record.floor());
    format!(in rt.alloc(); "{name} {revision} {floor}\n").expect(rt, "memory")
}

fn push_line(rt: &(impl Abort + AllocGlobal), lines: &mut String, line: &str) {
    lines.push_str(line).expect(rt, "memory");
}

/// The documents of a state, each by its name, its revision and its floor.
pub fn holds(rt: &(impl Abort + AllocGlobal), state: &State, wanted: &str) {
    let mut lines = String::new(rt.alloc());
    for record in state.documents() {
        push_line(rt, &mut lines, line_of(rt, record).as_str());
    }
    assert_eq!(rt; lines.as_str(), wanted);
}
