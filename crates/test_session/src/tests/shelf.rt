ghost use Rattle.std.specs.Prelude.{◌≤◌};

use super::{Conversation, is_replied, said};
use std::process::Abort;

const BEGINNING: [&str; 2] = [
    r#"{"do":"hello","source":"ann"}"#,
    r#"{"do":"create","doc":"d","n":1,"ops":[{"insert":"a"}]}"#,
];

/// Command n puts a letter in front of revision n - 1.
fn edit(rt: &(impl Abort + AllocGlobal), talk: &mut Conversation, n: u32, size: usize)
    requires first { 1 ≤ n }
    requires size { 1 ≤ size }
{
    let base = n - 1;
    let line = format!(in rt.alloc();
        "{{\"base\":{base},\"do\":\"edit\",\"doc\":\"d\",\"n\":{n},\"ops\":[{{\"insert\":\"a\"}}]}}"
    );
    drop(said(rt, talk, line.expect(rt, "memory").as_str(), size));
}

/// A revision of the document has these letters.
fn has_letters(
    rt: &(impl Abort + AllocGlobal),
    talk: &mut Conversation,
    rev: u32,
    letters: &str,
    size: usize,
)
    requires { 1 ≤ size }
{
    let line = format!(in rt.alloc(); "{{\"do\":\"fetch\",\"doc\":\"d\",\"rev\":{rev}}}");
    let reply = format!(in rt.alloc();
        "{{\"doc\":\"d\",\"ok\":\"doc\",\"ops\":[{{\"insert\":\"{letters}\"}}],\"rev\":{rev}}}"
    );
    is_replied(
        rt,
        talk,
        line.expect(rt, "memory").as_str(),
        reply.expect(rt, "memory").as_str(),
        size,
    );
}

/// A document at revision 66; each of its revisions has as many letters. Lines are said in pieces of so many bytes.
fn edited(rt: &(impl Abort + AllocGlobal), size: usize) -> Conversation
    requires { 1 ≤ size }
{
    let mut talk = Conversation::new(rt, 100);
    for line in BEGINNING {
        drop(said(rt, &mut talk, line, size));
    }
    for n in 2..67 {
        edit(rt, &mut talk, n, size);
    }
    talk
}

// Each revision is the same once others were read. Lines are said in pieces of so many bytes.
fn revisions_are_shown(rt: &(impl Abort + AllocGlobal), size: usize)
    requires { 1 ≤ size }
{
    let mut talk = edited(rt, size);
    let mut letters = String::new(rt.alloc());
    for rev in 1..66 {
        letters.push('a').expect(rt, "memory");
        has_letters(rt, &mut talk, rev, letters.as_str(), size);
    }
    for _ in 0..2 {
        has_letters(rt, &mut talk, 1, "a", size);
    }
}

#[test]
fn after_65_older_revisions_the_first_is_the_same(rt: HostRuntime) {
    revisions_are_shown(&rt, 65_536);
    revisions_are_shown(&rt, 1);
}
