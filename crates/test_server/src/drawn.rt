//! Drawn commands over two documents and three sources: a store that was just opened answers each as the plain program does.
use crate::runs::{Ended, call_plainly};
use refusal::Refusal;
use std::alloc::{AllocError, Global};
use std::fs::File;
use std::net::{Net, TcpListener, TcpStream};
use std::rt::Files;
use std::sync::Wait;
use std::thread::Threads;
use std::time::Clock;
use test_plain_rule::{Action, Command, Draws, Limits, Mark, REFUSALS, Reply, Rule};

/// A slot of 256 bytes takes entries of 237, and a cell of 1,028 a weight of 900.
const LIMITS: Limits = Limits {
    docs: 2,
    sources: 3,
    weight: 900,
    width: 237,
    keep: 16,
};

/// How many commands are drawn.
const COUNT: u32 = 500;

// A delta as a message has it, unit by unit.
fn operations(alloc: Global, delta: &[Mark]) -> Result<String, AllocError> {
    let mut text = String::new(alloc);
    for mark in delta {
        let operation = match *mark {
            Mark::Insert(b'x') => r#"{"insert":"x"},"#,
            Mark::Insert(_) => r#"{"insert":"y"},"#,
            Mark::Keep => r#"{"retain":1},"#,
            Mark::Drop => r#"{"delete":1},"#,
        };
        text.push_str(operation)?;
    }
    drop(text.pop());
    Ok(text)
}

// A command as a line.
fn line_of(alloc: Global, command: &Command) -> Result<String, AllocError> {
    let (doc, n) = (command.doc, command.number);
    let ops = operations(alloc, &command.delta)?;
    match command.action {
        Action::Create => {
            format!(in alloc; "{{\"do\":\"create\",\"doc\":\"{doc}\",\"n\":{n},\"ops\":[{ops}]}}\n")
        }
        Action::Edit(base) => {
            format!(in alloc;
                "{{\"base\":{base},\"do\":\"edit\",\"doc\":\"{doc}\",\"n\":{n},\"ops\":[{ops}]}}\n"
            )
        }
        Action::Undo => format!(in alloc; "{{\"do\":\"undo\",\"doc\":\"{doc}\",\"n\":{n}}}\n"),
        Action::Delete => format!(in alloc; "{{\"do\":\"delete\",\"doc\":\"{doc}\",\"n\":{n}}}\n"),
    }
}

fn refused(alloc: Global, refusal: Refusal) -> Result<String, AllocError> {
    let (number, name) = (refusal.number(), refusal.name());
    format!(in alloc; "{{\"code\":{number},\"error\":\"{name}\"}}\n")
}

// The plain program's reply as a line.
fn reply_of(
    alloc: Global,
    command: &Command,
    reply: Result<Reply, Refusal>,
) -> Result<String, AllocError> {
    let (word, rev) = match reply {
        Ok(Reply::Taken(rev)) => ("taken", rev),
        Ok(Reply::Again(rev)) => ("again", rev),
        Err(refusal) => return refused(alloc, refusal),
    };
    let (doc, n) = (command.doc, command.number);
    format!(in alloc; "{{\"doc\":\"{doc}\",\"n\":{n},\"ok\":\"{word}\",\"rev\":{rev}}}\n")
}

// Letters as the operations of a document.
fn content_of(alloc: Global, letters: &[u8]) -> Result<String, AllocError> {
    let mut text = String::new(alloc);
    if letters.is_empty() {
        return Ok(text);
    }
    text.push_str(r#"{"insert":""#)?;
    for letter in letters {
        text.push(char::from(*letter))?;
    }
    text.push_str(r#""}"#)?;
    Ok(text)
}

// What a fetch of a document at a revision is replied.
fn fetched(alloc: Global, rule: &Rule, doc: &str, rev: u64) -> Result<String, AllocError> {
    match rule.read(doc, rev) {
        Ok(letters) => {
            let content = content_of(alloc, letters)?;
            format!(in alloc;
                "{{\"doc\":\"{doc}\",\"ok\":\"doc\",\"ops\":[{content}],\"rev\":{rev}}}\n"
            )
        }
        Err(refusal) => refused(alloc, refusal),
    }
}

// A store, how far its milestones lie apart, and what was found to be wrong.
#[derive(Drop)]
struct Told<'a> {
    path: &'a str,
    every: &'a str,
    wrong: String,
}

impl Told<'_> {
    // A run of the source over these lines is to end well, with these replies.
    fn serve<
        R: Files<File = File>
            + AllocGlobal
            + Net<Listener = TcpListener, Stream = TcpStream>
            + Threads
            + Wait
            + Clock
            + Sync,
    >(&mut self, rt: &R, source: &str, lines: &str, replies: &str) -> Result<(), AllocError> {
        let input = format!(in rt.alloc();
            "{{\"do\":\"hello\",\"source\":\"{source}\"}}\n{lines}"
        )?;
        let words = ["richd", "serve", self.path, "--every", self.every];
        let ended = call_plainly(rt, &words, input.as_str())?;
        let output = ended.output.as_str().strip_prefix("{\"ok\":\"hello\"}\n");
        self.compare(lines, output, replies)?;
        self.ends_well(&ended)
    }

    // A run is to end with status 0 and without errors.
    fn ends_well(&mut self, ended: &Ended) -> Result<(), AllocError> {
        if ended.status == 0 && ended.errors.is_empty() {
            return Ok(());
        }
        writeln!(self.wrong, "{}status {}", ended.errors, ended.status)
    }

    // This is to come of the lines.
    fn compare(
        &mut self,
        lines: &str,
        found: Option<&str>,
        wanted: &str,
    ) -> Result<(), AllocError> {
        if found == Some(wanted) {
            return Ok(());
        }
        let found = found.unwrap_or("nothing\n");
        write!(self.wrong, "{lines}wanted: {wanted}found: {found}")
    }

    // Serves the next drawn command in a run of its own, with a fetch after it, and both get the replies of the plain program. What comes is
    // the command's refusal, where it is refused.
    fn answer<
        R: Files<File = File>
            + AllocGlobal
            + Net<Listener = TcpListener, Stream = TcpStream>
            + Threads
            + Wait
            + Clock
            + Sync,
    >(&mut self, rt: &R, draws: &mut Draws, rule: &mut Rule) -> Result<Option<Refusal>, Refusal> {
        let command = draws.command(rt.alloc(), rule)?;
        let reply = rule.decide(rt.alloc(), &command);
        let below = draws.below(20);
        let rev = rule.revision(command.doc).saturating_sub(below);
        let lines = both_lines(rt.alloc(), &command, rev)?;
        let replies = both_replies(rt.alloc(), &command, reply, rule, rev)?;
        self.serve(rt, command.source, lines.as_str(), replies.as_str())?;
        Ok(reply.err())
    }

    // What the store prints.
    fn dump<
        R: Files<File = File>
            + AllocGlobal
            + Net<Listener = TcpListener, Stream = TcpStream>
            + Threads
            + Wait
            + Clock
            + Sync,
    >(&mut self, rt: &R) -> Result<String, AllocError> {
        let words = ["richd", "dump", self.path];
        let ended = call_plainly(rt, &words, "")?;
        self.ends_well(&ended)?;
        let Ended {
            status: _,
            output,
            errors: _,
        } = ended;
        Ok(output)
    }

    // The store prints all documents of the plain program.
    fn is_printed<
        R: Files<File = File>
            + AllocGlobal
            + Net<Listener = TcpListener, Stream = TcpStream>
            + Threads
            + Wait
            + Clock
            + Sync,
    >(&mut self, rt: &R, rule: &Rule) -> Result<(), AllocError> {
        let found = self.dump(rt)?;
        let wanted = all_shown(rt.alloc(), rule)?;
        self.compare("the documents\n", Some(found.as_str()), wanted.as_str())
    }

    // Takes over the floors that the store prints, since milestones may have raised some: all else is the plain program's.
    fn floors_rise<
        R: Files<File = File>
            + AllocGlobal
            + Net<Listener = TcpListener, Stream = TcpStream>
            + Threads
            + Wait
            + Clock
            + Sync,
    >(&mut self, rt: &R, rule: &mut Rule) -> Result<(), AllocError> {
        let dumped = self.dump(rt)?;
        for (place, line) in dumped.as_str().lines().enumerate() {
            if !rises(rule, place, line) {
                writeln!(self.wrong, "no floor is raised by {line}")?;
            }
        }
        self.is_printed(rt, rule)
    }
}

// A command, and a fetch of its document.
fn both_lines(alloc: Global, command: &Command, rev: u64) -> Result<String, AllocError> {
    let doc = command.doc;
    let line = line_of(alloc, command)?;
    format!(in alloc; "{line}{{\"do\":\"fetch\",\"doc\":\"{doc}\",\"rev\":{rev}}}\n")
}

fn both_replies(
    alloc: Global,
    command: &Command,
    reply: Result<Reply, Refusal>,
    rule: &Rule,
    rev: u64,
) -> Result<String, AllocError> {
    let mut replies = reply_of(alloc, command, reply)?;
    let found = fetched(alloc, rule, command.doc, rev)?;
    replies.push_str(found.as_str())?;
    Ok(replies)
}

// What a store prints of a document of the plain program, with this floor.
fn shown(alloc: Global, rule: &Rule, doc: &str, floor: u64) -> Result<String, AllocError> {
    let rev = rule.revision(doc);
    match rule.read(doc, rev) {
        Ok(letters) => {
            let content = content_of(alloc, letters)?;
            format!(in alloc; "{doc} {rev} {floor} {{\"ops\":[{content}]}}\n")
        }
        Err(_) => format!(in alloc; "{doc} {rev} {floor} deleted\n"),
    }
}

fn all_shown(alloc: Global, rule: &Rule) -> Result<String, AllocError> {
    let mut dump = String::new(alloc);
    for place in 0..rule.count() {
        let name = rule.name(place);
        let line = shown(alloc, rule, name, rule.floor(name))?;
        dump.push_str(line.as_str())?;
    }
    Ok(dump)
}

// The number that stands third in a line.
fn floor_in(line: &str) -> Option<u64> {
    line.split(' ').nth(2)?.parse().ok()
}

// Whether the plain program takes over the floor of a document's line.
fn rises(rule: &mut Rule, place: usize, line: &str) -> bool {
    let name = rule.name(place);
    match floor_in(line) {
        Some(floor) => rule.raise(name, floor).is_ok(),
        None => false,
    }
}

// The refusals that no command met.
fn push_unmet(wrong: &mut String, seen: &[Refusal]) -> Result<(), AllocError> {
    for refusal in &REFUSALS {
        if !seen.contains(refusal) {
            writeln!(wrong, "never refused by {}", refusal.name())?;
        }
    }
    Ok(())
}

/// What is wrong where the journal has room for all, so that there are no milestones: the store opens with the floors that it had.
pub fn fresh<
    R: Files<File = File>
        + AllocGlobal
        + Net<Listener = TcpListener, Stream = TcpStream>
        + Threads
        + Wait
        + Clock
        + Sync,
>(rt: &R, path: &str) -> Result<String, Refusal> {
    let mut told = Told {
        path,
        every: "65536",
        wrong: String::new(rt.alloc()),
    };
    let mut draws = Draws::new(47);
    let mut rule = Rule::new(rt.alloc(), LIMITS);
    let mut seen = Vec::new(rt.alloc());
    for _ in 0..COUNT {
        if let Some(refusal) = told.answer(rt, &mut draws, &mut rule)? {
            seen.push(refusal)?;
        }
    }
    push_unmet(&mut told.wrong, &seen)?;
    told.is_printed(rt, &rule)?;
    Ok(told.wrong)
}

/// What is wrong where milestones lie three revisions apart: the store opens with the floors of the newer ones.
pub fn behind_milestones<
    R: Files<File = File>
        + AllocGlobal
        + Net<Listener = TcpListener, Stream = TcpStream>
        + Threads
        + Wait
        + Clock
        + Sync,
>(rt: &R, path: &str) -> Result<String, Refusal> {
    let mut told = Told {
        path,
        every: "3",
        wrong: String::new(rt.alloc()),
    };
    let mut draws = Draws::new(11);
    let mut rule = Rule::new(rt.alloc(), LIMITS);
    for _ in 0..COUNT {
        told.floors_rise(rt, &mut rule)?;
        let _ = told.answer(rt, &mut draws, &mut rule)?;
    }
    told.floors_rise(rt, &mut rule)?;
    Ok(told.wrong)
}
