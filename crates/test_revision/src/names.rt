//! What a name is.
use refusal::Refusal;
use revision::Name;
use std::process::Abort;

/// Texts, and whether each is the name of a document, and of a source. The last ones stand beside the characters that names
/// may have.
const NAMES: [(&str, bool, bool); 18] = [
    ("", false, false),
    ("AZaz09._-", true, true),
    ("s23456789_123456789_123456789_12", true, true),
    ("s23456789_123456789_123456789_123", true, false),
    (
        "n23456789_123456789_123456789_123456789_123456789_123456789_1234",
        true,
        false,
    ),
    (
        "n23456789_123456789_123456789_123456789_123456789_123456789_12345",
        false,
        false,
    ),
    ("a b", false, false),
    ("\u{e9}", false, false),
    ("a\0", false, false),
    (",", false, false),
    ("/", false, false),
    (":", false, false),
    ("@", false, false),
    ("[", false, false),
    ("^", false, false),
    ("`", false, false),
    ("{", false, false),
    ("\u{7f}", false, false),
];

// a text that is no name is refused
fn answers(rt: &impl Abort, name: Result<Name, Refusal>, is_name: bool, text: &str) {
    let wanted = if is_name {
        None
    } else {
        Some(Refusal::BadName)
    };
    assert_eq!(rt; name.err(), wanted, "at {text}");
}

#[test]
fn what_a_name_is(rt: HostRuntime) {
    for (text, is_document, is_source) in &NAMES {
        answers(&rt, Name::doc(rt.alloc(), text), *is_document, text);
        answers(&rt, Name::source(rt.alloc(), text), *is_source, text);
    }
}
