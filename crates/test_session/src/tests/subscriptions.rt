ghost use Rattle.std.specs.Prelude.{◌≤◌};

use super::{Conversation, said};
use session::Stream;
use std::process::Abort;

/// What is done to a session.
#[derive(Clone, Copy)]
enum Step {
    /// A line is fed.
    Say(&'static str),
    /// The news are asked for.
    News,
}

/// A step, and the lines that are written upon it.
type Row = (Step, &'static [&'static str]);

const BEGINNING: [Row; 3] = [
    (
        Step::Say(r#"{"do":"hello","source":"ann"}"#),
        &[r#"{"ok":"hello"}"#],
    ),
    (
        Step::Say(r#"{"do":"create","doc":"d","n":1,"ops":[{"insert":"Hi"}]}"#),
        &[r#"{"doc":"d","n":1,"ok":"taken","rev":1}"#],
    ),
    (
        Step::Say(
            r#"{"base":1,"do":"edit","doc":"d","n":2,"ops":[{"retain":2},{"insert":"!","attributes":{"bold":true}}]}"#,
        ),
        &[r#"{"doc":"d","n":2,"ok":"taken","rev":2}"#],
    ),
];

const SECOND: &str =
    r#"{"doc":"d","news":2,"ops":[{"retain":2},{"attributes":{"bold":true},"insert":"!"}]}"#;

/// Each revision is told once, in order, and what comes later is told later.
const FOLLOWED: [Row; 6] = [
    (
        Step::Say(r#"{"do":"subscribe","doc":"d","rev":0}"#),
        &[r#"{"doc":"d","ok":"subscribed","rev":0}"#],
    ),
    (
        Step::News,
        &[r#"{"doc":"d","news":1,"ops":[{"insert":"Hi"}]}"#, SECOND],
    ),
    (Step::News, &[]),
    (
        Step::Say(r#"{"base":2,"do":"edit","doc":"d","n":3,"ops":[{"insert":"O"}]}"#),
        &[r#"{"doc":"d","n":3,"ok":"taken","rev":3}"#],
    ),
    (
        Step::News,
        &[r#"{"doc":"d","news":3,"ops":[{"insert":"O"}]}"#],
    ),
    (Step::News, &[]),
];

/// The next revision isn't held any longer: the subscription ends.
const ENDED: [Row; 6] = [
    (
        Step::Say(r#"{"do":"subscribe","doc":"d","rev":1}"#),
        &[r#"{"doc":"d","ok":"subscribed","rev":1}"#],
    ),
    (
        Step::Say(r#"{"base":2,"do":"edit","doc":"d","n":3,"ops":[{"insert":"O"}]}"#),
        &[r#"{"doc":"d","n":3,"ok":"taken","rev":3}"#],
    ),
    (
        Step::Say(r#"{"base":3,"do":"edit","doc":"d","n":4,"ops":[{"insert":"h"}]}"#),
        &[r#"{"doc":"d","n":4,"ok":"taken","rev":4}"#],
    ),
    (Step::News, &[r#"{"doc":"d","ended":13}"#]),
    (
        Step::Say(r#"{"base":4,"do":"edit","doc":"d","n":5,"ops":[{"insert":"?"}]}"#),
        &[r#"{"doc":"d","n":5,"ok":"taken","rev":5}"#],
    ),
    (Step::News, &[]),
];

/// A name has none of the characters that need an escape, and each reply has it as it is.
const NAMED: [Row; 11] = [
    (
        Step::Say(
            r#"{"do":"create","doc":"ABCDEFGHIJKLMNOPQRSTUVWXYZabcdefghijklmnopqrstuvwxyz0123456789._","n":1,"ops":[{"insert":"z"}]}"#,
        ),
        &[
            r#"{"doc":"ABCDEFGHIJKLMNOPQRSTUVWXYZabcdefghijklmnopqrstuvwxyz0123456789._","n":1,"ok":"taken","rev":1}"#,
        ],
    ),
    (
        Step::Say(
            r#"{"do":"create","doc":"ABCDEFGHIJKLMNOPQRSTUVWXYZabcdefghijklmnopqrstuvwxyz0123456789._","n":1,"ops":[{"insert":"z"}]}"#,
        ),
        &[
            r#"{"doc":"ABCDEFGHIJKLMNOPQRSTUVWXYZabcdefghijklmnopqrstuvwxyz0123456789._","n":1,"ok":"again","rev":1}"#,
        ],
    ),
    (
        Step::Say(r#"{"do":"create","doc":"-","n":1,"ops":[{"insert":"z"}]}"#),
        &[r#"{"doc":"-","n":1,"ok":"taken","rev":1}"#],
    ),
    (
        Step::Say(
            r#"{"do":"subscribe","doc":"ABCDEFGHIJKLMNOPQRSTUVWXYZabcdefghijklmnopqrstuvwxyz0123456789._","rev":0}"#,
        ),
        &[
            r#"{"doc":"ABCDEFGHIJKLMNOPQRSTUVWXYZabcdefghijklmnopqrstuvwxyz0123456789._","ok":"subscribed","rev":0}"#,
        ],
    ),
    (
        Step::News,
        &[
            r#"{"doc":"ABCDEFGHIJKLMNOPQRSTUVWXYZabcdefghijklmnopqrstuvwxyz0123456789._","news":1,"ops":[{"insert":"z"}]}"#,
        ],
    ),
    (
        Step::Say(
            r#"{"do":"delete","doc":"ABCDEFGHIJKLMNOPQRSTUVWXYZabcdefghijklmnopqrstuvwxyz0123456789._","n":2}"#,
        ),
        &[
            r#"{"doc":"ABCDEFGHIJKLMNOPQRSTUVWXYZabcdefghijklmnopqrstuvwxyz0123456789._","n":2,"ok":"taken","rev":2}"#,
        ],
    ),
    (
        Step::News,
        &[
            r#"{"doc":"ABCDEFGHIJKLMNOPQRSTUVWXYZabcdefghijklmnopqrstuvwxyz0123456789._","ended":13}"#,
        ],
    ),
    (
        Step::Say(
            r#"{"do":"unsubscribe","doc":"ABCDEFGHIJKLMNOPQRSTUVWXYZabcdefghijklmnopqrstuvwxyz0123456789._"}"#,
        ),
        &[
            r#"{"doc":"ABCDEFGHIJKLMNOPQRSTUVWXYZabcdefghijklmnopqrstuvwxyz0123456789._","ok":"unsubscribed"}"#,
        ],
    ),
    (
        Step::Say(r#"{"do":"create","doc":"a\"b","n":1,"ops":[{"insert":"z"}]}"#),
        &[r#"{"code":8,"error":"BadName"}"#],
    ),
    (
        Step::Say(r#"{"do":"create","doc":"a\\b","n":1,"ops":[{"insert":"z"}]}"#),
        &[r#"{"code":8,"error":"BadName"}"#],
    ),
    (
        Step::Say(r#"{"do":"create","doc":"\u001f","n":1,"ops":[{"insert":"z"}]}"#),
        &[r#"{"code":8,"error":"BadName"}"#],
    ),
];

/// A deletion ends a subscription, whether it is the next revision or a later one, and one that follows the document created again begins
/// there.
const DELETED: [Row; 14] = [
    (
        Step::Say(r#"{"do":"subscribe","doc":"d","rev":2}"#),
        &[r#"{"doc":"d","ok":"subscribed","rev":2}"#],
    ),
    (
        Step::Say(r#"{"do":"delete","doc":"d","n":3}"#),
        &[r#"{"doc":"d","n":3,"ok":"taken","rev":3}"#],
    ),
    (Step::News, &[r#"{"doc":"d","ended":13}"#]),
    (
        Step::Say(r#"{"do":"subscribe","doc":"d","rev":3}"#),
        &[r#"{"code":40,"error":"Deleted"}"#],
    ),
    (
        Step::Say(r#"{"do":"create","doc":"d","n":4,"ops":[{"insert":"n"}]}"#),
        &[r#"{"doc":"d","n":4,"ok":"taken","rev":4}"#],
    ),
    (Step::News, &[]),
    (
        Step::Say(r#"{"do":"subscribe","doc":"d","rev":3}"#),
        &[r#"{"code":13,"error":"TooOld"}"#],
    ),
    (
        Step::Say(r#"{"do":"subscribe","doc":"d","rev":4}"#),
        &[r#"{"doc":"d","ok":"subscribed","rev":4}"#],
    ),
    (
        Step::Say(r#"{"base":4,"do":"edit","doc":"d","n":5,"ops":[{"insert":"O"}]}"#),
        &[r#"{"doc":"d","n":5,"ok":"taken","rev":5}"#],
    ),
    (
        Step::Say(r#"{"do":"delete","doc":"d","n":6}"#),
        &[r#"{"doc":"d","n":6,"ok":"taken","rev":6}"#],
    ),
    (
        Step::Say(r#"{"do":"create","doc":"d","n":7,"ops":[]}"#),
        &[r#"{"doc":"d","n":7,"ok":"taken","rev":7}"#],
    ),
    (Step::News, &[r#"{"doc":"d","ended":13}"#]),
    (
        Step::Say(r#"{"do":"unsubscribe","doc":"d"}"#),
        &[r#"{"doc":"d","ok":"unsubscribed"}"#],
    ),
    (Step::News, &[]),
];

/// Names in ascending order, a new subscription in place of the old one, none after it was taken back, and the refusals.
const SEVERAL: [Row; 12] = [
    (
        Step::Say(r#"{"do":"create","doc":"c","n":1,"ops":[{"insert":"z"}]}"#),
        &[r#"{"doc":"c","n":1,"ok":"taken","rev":1}"#],
    ),
    (
        Step::Say(r#"{"do":"subscribe","doc":"d","rev":0}"#),
        &[r#"{"doc":"d","ok":"subscribed","rev":0}"#],
    ),
    (
        Step::Say(r#"{"do":"subscribe","doc":"c","rev":0}"#),
        &[r#"{"doc":"c","ok":"subscribed","rev":0}"#],
    ),
    (
        Step::Say(r#"{"do":"subscribe","doc":"d","rev":1}"#),
        &[r#"{"doc":"d","ok":"subscribed","rev":1}"#],
    ),
    (
        Step::News,
        &[r#"{"doc":"c","news":1,"ops":[{"insert":"z"}]}"#, SECOND],
    ),
    (
        Step::Say(r#"{"do":"unsubscribe","doc":"c"}"#),
        &[r#"{"doc":"c","ok":"unsubscribed"}"#],
    ),
    (
        Step::Say(r#"{"do":"unsubscribe","doc":"e"}"#),
        &[r#"{"doc":"e","ok":"unsubscribed"}"#],
    ),
    (
        Step::Say(r#"{"base":1,"do":"edit","doc":"c","n":2,"ops":[{"insert":"y"}]}"#),
        &[r#"{"doc":"c","n":2,"ok":"taken","rev":2}"#],
    ),
    (Step::News, &[]),
    (
        Step::Say(r#"{"do":"subscribe","doc":"e","rev":0}"#),
        &[r#"{"code":6,"error":"NoDocument"}"#],
    ),
    (
        Step::Say(r#"{"do":"subscribe","doc":"d","rev":3}"#),
        &[r#"{"code":12,"error":"Future"}"#],
    ),
    (
        Step::Say(r#"{"do":"subscribe","doc":"d"}"#),
        &[r#"{"code":2,"error":"BadMessage"}"#],
    ),
];

/// What is written where the news are asked for. There is ample memory, so they are told.
fn news(rt: &(impl Abort + AllocGlobal), talk: &mut Conversation) -> String {
    let mut out = Stream::new(Vec::new(rt.alloc()));
    let told = talk.on_news(rt.alloc(), &mut out);
    assert!(rt; told.expect(rt, "no write fails"));
    String::from_utf8(out.into_writer()).expect(rt, "a text")
}

/// Lines, each with its end.
fn joined(rt: &(impl Abort + AllocGlobal), lines: &[&str]) -> String {
    let mut text = String::new(rt.alloc());
    for line in lines {
        text.push_str(line).expect(rt, "memory");
        text.push('\n').expect(rt, "memory");
    }
    text
}

fn is_row(rt: &(impl Abort + AllocGlobal), talk: &mut Conversation, row: &Row, size: usize)
    requires { 1 ≤ size }
{
    let (step, lines) = row;
    let text = match step {
        Step::Say(line) => said(rt, talk, line, size),
        Step::News => news(rt, talk),
    };
    assert_eq!(rt; text.as_str(), joined(rt, lines).as_str());
}

/// The rows, after the beginning, over a state that keeps two revisions.
fn are_followed(rt: &(impl Abort + AllocGlobal), rows: &[Row], size: usize)
    requires { 1 ≤ size }
{
    let mut talk = Conversation::new(rt, 2);
    for row in &BEGINNING {
        is_row(rt, &mut talk, row, size);
    }
    for row in rows {
        is_row(rt, &mut talk, row, size);
    }
}

#[test]
fn each_revision_is_told_once(rt: HostRuntime) {
    are_followed(&rt, &FOLLOWED, 65_536);
    are_followed(&rt, &FOLLOWED, 1);
}

#[test]
fn what_is_not_held_ends_a_subscription(rt: HostRuntime) {
    are_followed(&rt, &ENDED, 65_536);
    are_followed(&rt, &ENDED, 1);
}

#[test]
fn a_deletion_ends_a_subscription(rt: HostRuntime) {
    are_followed(&rt, &DELETED, 65_536);
    are_followed(&rt, &DELETED, 1);
}

#[test]
fn several_documents_are_followed(rt: HostRuntime) {
    are_followed(&rt, &SEVERAL, 65_536);
    are_followed(&rt, &SEVERAL, 1);
}

#[test]
fn a_name_is_replied_as_it_is(rt: HostRuntime) {
    are_followed(&rt, &NAMED, 65_536);
    are_followed(&rt, &NAMED, 1);
}
