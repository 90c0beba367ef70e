//! The forms that RFC 8259 gives an edit's line: whatever a session reads it by, each is answered as docs/PROTOCOL.md says.
ghost use Rattle.std.specs.Prelude.{◌≤◌};

use super::{Conversation, is_replied};

/// A line, and its reply.
type Said = (&'static str, &'static str);

const BAD_LINE: &str = r#"{"code":1,"error":"BadLine"}"#;

const BAD_MESSAGE: &str = r#"{"code":2,"error":"BadMessage"}"#;

const BAD_OPERATIONS: &str = r#"{"code":3,"error":"BadOps"}"#;

const BAD_NAME: &str = r#"{"code":8,"error":"BadName"}"#;

const BEGINNING: [Said; 2] = [
    (r#"{"do":"hello","source":"ann"}"#, r#"{"ok":"hello"}"#),
    (
        r#"{"do":"create","doc":"d","n":1,"ops":[{"insert":"Hi"}]}"#,
        r#"{"doc":"d","n":1,"ok":"taken","rev":1}"#,
    ),
];

const TAKEN: [Said; 13] = [
    // Blanks between tokens, and members in another order.
    (
        " { \"ops\" : [ { \"retain\" : 2 } ,\t{ \"insert\" : \"!\" } ] , \"base\":1 ,\"n\": 2,\"doc\" :\"d\" , \"do\":\"edit\" } \r",
        r#"{"doc":"d","n":2,"ok":"taken","rev":2}"#,
    ),
    // Escapes in texts, and a surrogate pair.
    (
        r#"{"do":"edit","doc":"\u0064","n":3,"base":2,"ops":[{"insert":"\u0041\/\"\ud83d\ude00"}]}"#,
        r#"{"doc":"d","n":3,"ok":"taken","rev":3}"#,
    ),
    // Escapes in names.
    (
        r#"{"\u0064o":"ed\u0069t","doc":"d","n":4,"base":3,"ops":[{"ret\u0061in":1}]}"#,
        r#"{"doc":"d","n":4,"ok":"taken","rev":4}"#,
    ),
    // A name twice: the last counts.
    (
        r#"{"do":"edit","doc":"d","n":9,"base":4,"n":5,"ops":[{"delete":1,"delete":2}]}"#,
        r#"{"doc":"d","n":5,"ok":"taken","rev":5}"#,
    ),
    // No operation.
    (
        r#"{"do":"edit","doc":"d","n":6,"base":5,"ops":[]}"#,
        r#"{"doc":"d","n":6,"ok":"taken","rev":6}"#,
    ),
    // Values of attributes, where one is there twice, and null on a retain.
    (
        r#"{"do":"edit","doc":"d","n":7,"base":6,"ops":[{"insert":"x","attributes":{"z":"t","c":-5,"b":7,"f":false,"b":8}},{"retain":1,"attributes":{"gone":null,"bold":true,"size":12}}]}"#,
        r#"{"doc":"d","n":7,"ok":"taken","rev":7}"#,
    ),
    // Attributes before what they are of.
    (
        r#"{"do":"edit","doc":"d","n":8,"base":7,"ops":[{"attributes":{"i":1},"insert":"y"},{"attributes":{"i":2},"retain":1}]}"#,
        r#"{"doc":"d","n":8,"ok":"taken","rev":8}"#,
    ),
    // No attributes, and an embed.
    (
        r#"{"do":"edit","doc":"d","n":9,"base":8,"ops":[{"insert":"a","attributes":{}},{"insert":{"image":"a.png"}},{"retain":0,"attributes":{}}]}"#,
        r#"{"doc":"d","n":9,"ok":"taken","rev":9}"#,
    ),
    // The greatest length of an operation doesn't fit the document.
    (
        r#"{"do":"edit","doc":"d","n":10,"base":9,"ops":[{"delete":4294967295}]}"#,
        r#"{"code":14,"error":"PastEnd"}"#,
    ),
    // The greatest base is no revision yet.
    (
        r#"{"do":"edit","doc":"d","n":10,"base":9007199254740991,"ops":[]}"#,
        r#"{"code":12,"error":"Future"}"#,
    ),
    // The greatest number is not the next.
    (
        r#"{"do":"edit","doc":"d","n":9007199254740991,"base":9,"ops":[]}"#,
        r#"{"code":9,"error":"Gap"}"#,
    ),
    // The number and the base are not one another.
    (
        r#"{"do":"edit","doc":"d","n":9,"base":8,"ops":[]}"#,
        r#"{"doc":"d","n":9,"ok":"again","rev":9}"#,
    ),
    (
        r#"{"do":"fetch","doc":"d"}"#,
        r#"{"doc":"d","ok":"doc","ops":[{"insert":"a"},{"insert":{"image":"a.png"}},{"attributes":{"i":1},"insert":"y"},{"attributes":{"b":8,"c":-5,"f":false,"i":2,"z":"t"},"insert":"x"},{"attributes":{"bold":true,"size":12},"insert":"\""},{"insert":"😀Hi!"}],"rev":9}"#,
    ),
];

const REFUSED: [Said; 34] = [
    // A surrogate alone.
    (
        r#"{"do":"edit","doc":"d","n":10,"base":9,"ops":[{"insert":"\ud83d"}]}"#,
        BAD_LINE,
    ),
    // No number of RFC 8259, and one beyond a float.
    (
        r#"{"do":"edit","doc":"d","n":010,"base":9,"ops":[]}"#,
        BAD_LINE,
    ),
    (
        r#"{"do":"edit","doc":"d","n":+1,"base":9,"ops":[]}"#,
        BAD_LINE,
    ),
    (
        r#"{"do":"edit","doc":"d","n":1.,"base":9,"ops":[]}"#,
        BAD_LINE,
    ),
    (
        r#"{"do":"edit","doc":"d","n":1e400,"base":9,"ops":[]}"#,
        BAD_LINE,
    ),
    // Punctuation.
    (
        r#"{"do":"edit","doc":"d","n":10,"base":9,"ops":[{"insert":"a"},]}"#,
        BAD_LINE,
    ),
    (
        r#"{"do":"edit","doc":"d","n":10,"base":9,"ops":[{"insert":"a"} {"insert":"b"}]}"#,
        BAD_LINE,
    ),
    (
        r#"{"do":"edit","doc":"d","n":10,"base":9,"ops":[{"insert" "a"}]}"#,
        BAD_LINE,
    ),
    (
        r#"{"do":"edit","doc":"d","n":10,"base":9,"ops":[]},"#,
        BAD_LINE,
    ),
    (
        r#"{"do":"edit","doc":"d","n":10,"base":9,"ops":[]} {}"#,
        BAD_LINE,
    ),
    (
        r#"{"do":"edit","doc":"d","n":10,"base":9,"ops":[]"#,
        BAD_LINE,
    ),
    (
        r#"{"do":"edit","doc":"d","n":10,"base":9,"ops":[{"insert":"a}]}"#,
        BAD_LINE,
    ),
    // Whole numbers with a fraction or an exponent, below zero, and too great.
    (
        r#"{"do":"edit","doc":"d","n":10.0,"base":9,"ops":[]}"#,
        BAD_MESSAGE,
    ),
    (
        r#"{"do":"edit","doc":"d","n":10,"base":9e0,"ops":[]}"#,
        BAD_MESSAGE,
    ),
    (
        r#"{"do":"edit","doc":"d","n":10,"base":-0,"ops":[]}"#,
        BAD_MESSAGE,
    ),
    (
        r#"{"do":"edit","doc":"d","n":0,"base":9,"ops":[]}"#,
        BAD_MESSAGE,
    ),
    (
        r#"{"do":"edit","doc":"d","n":9007199254740992,"base":9,"ops":[]}"#,
        BAD_MESSAGE,
    ),
    (
        r#"{"do":"edit","doc":"d","n":10,"base":9007199254740992,"ops":[]}"#,
        BAD_MESSAGE,
    ),
    (
        r#"{"do":"edit","doc":"d","n":10,"base":18446744073709551616,"ops":[]}"#,
        BAD_MESSAGE,
    ),
    // Other members, and members of other kinds.
    (
        r#"{"do":"edit","doc":"d","n":10,"base":9,"ops":[],"more":1}"#,
        BAD_MESSAGE,
    ),
    (r#"{"do":"edit","doc":"d","n":10,"ops":[]}"#, BAD_MESSAGE),
    (
        r#"{"do":"edit","doc":"d","n":10,"base":9,"ops":{}}"#,
        BAD_MESSAGE,
    ),
    (
        r#"{"do":"Edit","doc":"d","n":10,"base":9,"ops":[]}"#,
        BAD_MESSAGE,
    ),
    (
        r#"{"do":"edit","doc":"d/","n":10,"base":9,"ops":[{"retain":-1}]}"#,
        BAD_NAME,
    ),
    // Operations.
    (
        r#"{"do":"edit","doc":"d","n":10,"base":9,"ops":[{"retain":1e0}]}"#,
        BAD_OPERATIONS,
    ),
    (
        r#"{"do":"edit","doc":"d","n":10,"base":9,"ops":[{"retain":1.0}]}"#,
        BAD_OPERATIONS,
    ),
    (
        r#"{"do":"edit","doc":"d","n":10,"base":9,"ops":[{"delete":-0}]}"#,
        BAD_OPERATIONS,
    ),
    (
        r#"{"do":"edit","doc":"d","n":10,"base":9,"ops":[{"delete":4294967296}]}"#,
        BAD_OPERATIONS,
    ),
    (
        r#"{"do":"edit","doc":"d","n":10,"base":9,"ops":[{"delete":1,"attributes":{}}]}"#,
        BAD_OPERATIONS,
    ),
    (
        r#"{"do":"edit","doc":"d","n":10,"base":9,"ops":[{"insert":"a","retain":1}]}"#,
        BAD_OPERATIONS,
    ),
    (
        r#"{"do":"edit","doc":"d","n":10,"base":9,"ops":[{}]}"#,
        BAD_OPERATIONS,
    ),
    (
        r#"{"do":"edit","doc":"d","n":10,"base":9,"ops":[{"insert":"a","attributes":{"b":null}}]}"#,
        BAD_OPERATIONS,
    ),
    (
        r#"{"do":"edit","doc":"d","n":10,"base":9,"ops":[{"insert":"a","attributes":{"":1}}]}"#,
        BAD_OPERATIONS,
    ),
    (
        r#"{"do":"edit","doc":"d","n":10,"base":9,"ops":[{"retain":1,"attributes":{"b":9007199254740992}}]}"#,
        BAD_OPERATIONS,
    ),
];

#[test]
fn each_form_of_an_edit_is_answered_as_before(rt: std::rt::HostRuntime) {
    let mut talk = Conversation::new(&rt, 16);
    for (line, reply) in BEGINNING {
        is_replied(&rt, &mut talk, line, reply, 7);
    }
    for (line, reply) in TAKEN {
        is_replied(&rt, &mut talk, line, reply, 7);
    }
    for (line, reply) in REFUSED {
        is_replied(&rt, &mut talk, line, reply, 7);
    }
}
