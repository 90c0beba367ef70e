ghost use Rattle.std.specs.Prelude.{◌≤◌};

use super::{Conversation, is_replied};
use std::process::Abort;

/// A line, and its reply.
type Said = (&'static str, &'static str);

const READS: [Said; 18] = [
    ("", r#"{"code":1,"error":"BadLine"}"#),
    (
        r#"{"do":"fetch","doc":"d"}"#,
        r#"{"code":5,"error":"NoHello"}"#,
    ),
    (r#"{"do":"hello","source":"ann"}"#, r#"{"ok":"hello"}"#),
    (
        r#"{"do":"create","doc":"d","n":1,"ops":[{"insert":"Hi"}]}"#,
        r#"{"doc":"d","n":1,"ok":"taken","rev":1}"#,
    ),
    (
        r#"{"base":1,"do":"edit","doc":"d","n":2,"ops":[{"retain":2},{"insert":"!","attributes":{"bold":true}}]}"#,
        r#"{"doc":"d","n":2,"ok":"taken","rev":2}"#,
    ),
    (
        r#"{"do":"fetch","doc":"d"}"#,
        r#"{"doc":"d","ok":"doc","ops":[{"insert":"Hi"},{"attributes":{"bold":true},"insert":"!"}],"rev":2}"#,
    ),
    (
        r#"{"do":"fetch","doc":"d","rev":1}"#,
        r#"{"doc":"d","ok":"doc","ops":[{"insert":"Hi"}],"rev":1}"#,
    ),
    (
        r#"{"do":"fetch","doc":"d","rev":3}"#,
        r#"{"code":12,"error":"Future"}"#,
    ),
    (
        r#"{"do":"fetch","doc":"e","rev":3}"#,
        r#"{"code":6,"error":"NoDocument"}"#,
    ),
    (
        r#"{"do":"fetch","doc":"d/","rev":3}"#,
        r#"{"code":8,"error":"BadName"}"#,
    ),
    (
        r#"{"do":"fetch","doc":"d","rev":-1}"#,
        r#"{"code":2,"error":"BadMessage"}"#,
    ),
    (
        r#"{"do":"since","doc":"d","rev":1}"#,
        r#"{"deltas":[[{"retain":2},{"attributes":{"bold":true},"insert":"!"}]],"doc":"d","ok":"since","rev":2}"#,
    ),
    (
        r#"{"do":"since","doc":"d","rev":2}"#,
        r#"{"deltas":[],"doc":"d","ok":"since","rev":2}"#,
    ),
    (
        r#"{"base":2,"do":"edit","doc":"d","n":3,"ops":[{"retain":4294967296}]}"#,
        r#"{"code":3,"error":"BadOps"}"#,
    ),
    (
        r#"{"base":2,"do":"edit","doc":"d","n":3,"ops":[{"retain":4294967295}]}"#,
        r#"{"doc":"d","n":3,"ok":"taken","rev":3}"#,
    ),
    (
        r#"{"do":"undo","doc":"d","n":4}"#,
        r#"{"doc":"d","n":4,"ok":"taken","rev":4}"#,
    ),
    (
        r#"{"do":"fetch","doc":"d","rev":0}"#,
        r#"{"code":13,"error":"TooOld"}"#,
    ),
    (
        r#"{"do":"undo","doc":"d","n":4}"#,
        r#"{"doc":"d","n":4,"ok":"again","rev":4}"#,
    ),
];

/// What was read of a document before its deletion isn't shown again, and the revisions continue.
const DELETED: [Said; 15] = [
    (r#"{"do":"hello","source":"ann"}"#, r#"{"ok":"hello"}"#),
    (
        r#"{"do":"delete","doc":"d","n":1}"#,
        r#"{"code":6,"error":"NoDocument"}"#,
    ),
    (
        r#"{"do":"create","doc":"d","n":1,"ops":[{"insert":"Hi"}]}"#,
        r#"{"doc":"d","n":1,"ok":"taken","rev":1}"#,
    ),
    (
        r#"{"base":1,"do":"edit","doc":"d","n":2,"ops":[{"insert":"O"}]}"#,
        r#"{"doc":"d","n":2,"ok":"taken","rev":2}"#,
    ),
    (
        r#"{"do":"fetch","doc":"d","rev":1}"#,
        r#"{"doc":"d","ok":"doc","ops":[{"insert":"Hi"}],"rev":1}"#,
    ),
    (
        r#"{"do":"delete","doc":"d","n":3}"#,
        r#"{"doc":"d","n":3,"ok":"taken","rev":3}"#,
    ),
    (
        r#"{"do":"delete","doc":"d","n":3}"#,
        r#"{"doc":"d","n":3,"ok":"again","rev":3}"#,
    ),
    (
        r#"{"do":"fetch","doc":"d","rev":1}"#,
        r#"{"code":40,"error":"Deleted"}"#,
    ),
    (
        r#"{"do":"since","doc":"d","rev":9}"#,
        r#"{"code":40,"error":"Deleted"}"#,
    ),
    (
        r#"{"base":9,"do":"edit","doc":"d","n":4,"ops":[]}"#,
        r#"{"code":40,"error":"Deleted"}"#,
    ),
    (
        r#"{"do":"create","doc":"d","n":4,"ops":[{"insert":"n"}]}"#,
        r#"{"doc":"d","n":4,"ok":"taken","rev":4}"#,
    ),
    (
        r#"{"do":"fetch","doc":"d","rev":1}"#,
        r#"{"code":13,"error":"TooOld"}"#,
    ),
    (
        r#"{"do":"since","doc":"d","rev":3}"#,
        r#"{"code":13,"error":"TooOld"}"#,
    ),
    (
        r#"{"do":"fetch","doc":"d"}"#,
        r#"{"doc":"d","ok":"doc","ops":[{"insert":"n"}],"rev":4}"#,
    ),
    (
        r#"{"base":4,"do":"delete","doc":"d","n":5}"#,
        r#"{"code":2,"error":"BadMessage"}"#,
    ),
];

// The rows, over a state that keeps two revisions.
fn are_told(rt: &(impl Abort + AllocGlobal), rows: &[Said], size: usize)
    requires { 1 ≤ size }
{
    let mut talk = Conversation::new(rt, 2);
    for (line, reply) in rows {
        is_replied(rt, &mut talk, line, reply, size);
    }
}

#[test]
fn what_is_asked_of_a_document_is_told(rt: HostRuntime) {
    are_told(&rt, &READS, 65_536);
    are_told(&rt, &READS, 1);
}

#[test]
fn nothing_from_before_a_deletion_is_told(rt: HostRuntime) {
    are_told(&rt, &DELETED, 65_536);
    are_told(&rt, &DELETED, 1);
}
