//! Drawn commands over two documents and three sources, which are answered as the plain program answers them.
use attributes::{Attrs, Change};
use delta::{Builder, Delta, Op, OpRef};
use document::Document;
use refusal::Refusal;
use revision::{Command, DocState, Name, Reply, State};
use std::process::Abort;
use test_plain_rule::{Action, Draws, Limits, Mark, REFUSALS, Rule};

/// What the plain program is held under, and the state too.
const LIMITS: Limits = Limits {
    docs: 2,
    sources: 3,
    weight: 900,
    width: 60,
    keep: 16,
};

fn op_of(rt: &(impl Abort + AllocGlobal), mark: Mark) -> Op {
    match mark {
        Mark::Insert(letter) => {
            let mut text = String::new(rt.alloc());
            assert!(rt; text.push(char::from(letter)).is_ok());
            Op::text(text, Attrs::new(rt.alloc()))
        }
        Mark::Keep => Op::retain(1, Change::new(rt.alloc())),
        Mark::Drop => Op::delete(1),
    }
}

fn push(rt: &impl Abort, builder: &mut Builder, op: Op) {
    assert!(rt; builder.push(op).is_ok());
}

fn delta_of(rt: &(impl Abort + AllocGlobal), marks: &[Mark]) -> Delta {
    let mut builder = Builder::new(rt.alloc());
    for mark in marks {
        push(rt, &mut builder, op_of(rt, *mark));
    }
    builder.finish()
}

// The same command, as a state takes it.
fn command_of(
    rt: &(impl Abort + AllocGlobal),
    command: &test_plain_rule::Command,
) -> Result<Command, Refusal> {
    let number = command.number;
    assert!(rt; 1 <= number && number < 1 << 53);
    let doc = Name::doc(rt.alloc(), command.doc).expect(rt, "a name");
    let source = Name::source(rt.alloc(), command.source).expect(rt, "a source");
    match command.action {
        Action::Create => Command::create(doc, source, number, delta_of(rt, &command.delta)),
        Action::Edit(base) => Command::edit(
            doc,
            source,
            number,
            base,
            delta_of(rt, &command.delta),
        ),
        Action::Undo => Ok(Command::undo(doc, source, number)),
        Action::Delete => Ok(Command::delete(doc, source, number)),
    }
}

// The same reply.
fn reply_of(reply: Result<test_plain_rule::Reply, Refusal>) -> Result<Reply, Refusal> {
    match reply {
        Ok(test_plain_rule::Reply::Taken(rev)) => Ok(Reply::Taken { rev }),
        Ok(test_plain_rule::Reply::Again(rev)) => Ok(Reply::Again { rev }),
        Err(refusal) => Err(refusal),
    }
}

// A document's text is these letters.
fn has_letters(rt: &(impl Abort + AllocGlobal), document: &Document, wanted: &[u8]) {
    let content = document.as_delta(rt.alloc()).expect(rt, "memory");
    let mut letters = Vec::new(rt.alloc());
    for op in content.ops() {
        push_letters(rt, &mut letters, op);
    }
    assert!(rt; letters.as_slice() == wanted);
}

fn push_letters(rt: &impl Abort, letters: &mut Vec<u8>, op: &Op) {
    if let OpRef::Text(text, _) = op.get() {
        assert!(rt; letters.extend_from_slice(text.as_bytes()).is_ok());
    }
}

// A revision of a document reads the same, or is refused alike.
fn is_read(rt: &(impl Abort + AllocGlobal), state: &State, rule: &Rule, doc: &str, revision: u64) {
    let name = Name::doc(rt.alloc(), doc).expect(rt, "a name");
    match rule.read(doc, revision) {
        Ok(letters) => is_held(rt, state, &name, revision, letters),
        Err(wanted) => {
            let found = refusal_at(rt, state, &name, revision);
            assert_eq!(rt; found, Some(wanted), "{doc} at {revision}");
        }
    }
}

fn is_held(
    rt: &(impl Abort + AllocGlobal),
    state: &State,
    name: &Name,
    revision: u64,
    letters: &[u8],
) {
    match state.at(rt.alloc(), name, revision) {
        Ok(document) => has_letters(rt, &document, letters),
        Err(refusal) => panic!(rt; "{refusal} at {revision}"),
    }
}

fn refusal_at(rt: &impl AllocGlobal, state: &State, name: &Name, revision: u64) -> Option<Refusal> {
    state.at(rt.alloc(), name, revision).err()
}

// A state has the documents of the plain program, with their revisions and floors.
fn has_documents(rt: &(impl Abort + AllocGlobal), state: &State, rule: &Rule) {
    assert_eq!(rt; state.documents().len(), rule.count());
    for (place, found) in state.documents().iter().enumerate() {
        is_document(rt, found, rule, rule.name(place));
    }
}

fn is_document(rt: &impl Abort, found: &DocState, rule: &Rule, name: &str) {
    assert_eq!(rt; found.name().as_str(), name);
    assert_eq!(rt;
        (found.revision(), found.floor()),
        (rule.revision(name), rule.floor(name))
    );
}

// The next drawn command is answered alike. What comes is its refusal, where it is refused.
fn is_answered(
    rt: &(impl Abort + AllocGlobal),
    draws: &mut Draws,
    state: &mut State,
    rule: &mut Rule,
) -> Option<Refusal> {
    let drawn = draws.command(rt.alloc(), rule).expect(rt, "memory");
    let command = command_of(rt, &drawn).expect(rt, "a command");
    let found = state.decide(rt.alloc(), &command);
    let wanted = reply_of(rule.decide(rt.alloc(), &drawn));
    let (number, source, doc) = (drawn.number, drawn.source, drawn.doc);
    assert_eq!(rt; found, wanted, "{number} of {source} to {doc}");
    has_documents(rt, state, rule);
    let newest = rule.revision(doc);
    is_read(rt, state, rule, doc, newest);
    let back = draws.below(20);
    is_read(rt, state, rule, doc, newest.saturating_sub(back));
    wanted.err()
}

#[test]
fn drawn_commands_are_answered_as_the_plain_rule_says(rt: HostRuntime) {
    let mut draws = Draws::new(47);
    let limits = revision::Limits::new(2, 3, 900, 60, 16);
    let mut state = State::new(rt.alloc(), limits);
    let mut rule = Rule::new(rt.alloc(), LIMITS);
    let mut seen = Vec::new(rt.alloc());
    for _ in 0..500 {
        if let Some(refusal) = is_answered(&rt, &mut draws, &mut state, &mut rule) {
            assert!(&rt; seen.push(refusal).is_ok());
        }
    }
    for refusal in &REFUSALS {
        assert!(&rt; seen.contains(refusal), "{refusal}");
    }
}
