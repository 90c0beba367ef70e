//! Replies that are longer than a page: their bytes, the length of each write, and outputs that fail at each of them.
ghost use Rattle.std.specs.Prelude.{◌≤◌};

use super::{Conversation, said};
use session::{PAGE, Stream};
use std::io::{self, ErrorKind, Write};
use std::process::Abort;

/// A writer that takes so many bytes and then fails. It notes how many bytes it was given at once at most.
#[derive(Drop)]
struct Measured {
    bytes: Vec<u8>,
    room: usize,
    longest: usize,
}

impl Measured {
    fn new(rt: &(impl Abort + AllocGlobal), room: usize) -> Stream<Measured> {
        Stream::new(Measured {
            bytes: Vec::new(rt.alloc()),
            room,
            longest: 0,
        })
    }
}

impl Write for Measured {
    fn write(&mut self, buf: &[u8]) -> io::Result<usize> {
        self.longest = self.longest.max(buf.len());
        if self.room == 0 {
            return Err(io::Error::from(ErrorKind::BrokenPipe));
        }
        let count = buf.len().min(self.room);
        self.bytes.extend_from_slice(&buf[..count])?;
        self.room -= count;
        Ok(count)
    }

    fn flush(&mut self) -> io::Result<()> {
        Ok(())
    }
}

/// So many letters.
fn letters(rt: &(impl Abort + AllocGlobal), count: usize) -> String {
    let mut text = String::new(rt.alloc());
    for _ in 0..count {
        text.push('x').expect(rt, "memory");
    }
    text
}

/// A session that has made a document of so many letters, and follows it from its beginning.
fn with_document(rt: &(impl Abort + AllocGlobal), text: &str) -> Conversation {
    let mut talk = Conversation::roomy(rt);
    let creation = format!(in rt.alloc();
        "{{\"do\":\"create\",\"doc\":\"d\",\"n\":1,\"ops\":[{{\"insert\":\"{text}\"}}]}}"
    ).expect(rt, "memory");
    drop(said(rt, &mut talk, r#"{"do":"hello","source":"ann"}"#, PAGE));
    assert_eq!(rt;
        said(rt, &mut talk, creation.as_str(), PAGE).as_str(),
        "{\"doc\":\"d\",\"n\":1,\"ok\":\"taken\",\"rev\":1}\n"
    );
    drop(said(
        rt,
        &mut talk,
        r#"{"do":"subscribe","doc":"d","rev":0}"#,
        PAGE,
    ));
    talk
}

/// What is asked for.
#[derive(Clone, Copy)]
enum Asked {
    Fetch,
    Since,
    News,
}

/// Asks, and gives whether no write failed.
fn ask(
    rt: &(impl Abort + AllocGlobal),
    talk: &mut Conversation,
    asked: Asked,
    out: &mut Stream<Measured>,
) -> bool {
    match asked {
        Asked::Fetch => talk
            .feed(rt.alloc(), b"{\"do\":\"fetch\",\"doc\":\"d\"}\n", out)
            .is_ok(),
        Asked::Since => talk
            .feed(
                rt.alloc(),
                b"{\"do\":\"since\",\"doc\":\"d\",\"rev\":0}\n",
                out,
            )
            .is_ok(),
        Asked::News => talk.on_news(rt.alloc(), out).is_ok(),
    }
}

/// What is written for a document of these letters.
fn wanted(rt: &(impl Abort + AllocGlobal), asked: Asked, text: &str) -> String {
    let line = match asked {
        Asked::Fetch => format!(in rt.alloc();
            "{{\"doc\":\"d\",\"ok\":\"doc\",\"ops\":[{{\"insert\":\"{text}\"}}],\"rev\":1}}\n"
        ),
        Asked::Since => format!(in rt.alloc();
            "{{\"deltas\":[[{{\"insert\":\"{text}\"}}]],\"doc\":\"d\",\"ok\":\"since\",\"rev\":1}}\n"
        ),
        Asked::News => format!(in rt.alloc();
            "{{\"doc\":\"d\",\"news\":1,\"ops\":[{{\"insert\":\"{text}\"}}]}}\n"
        ),
    };
    line.expect(rt, "memory")
}

/// So many letters that what is written has this length.
fn text_for(rt: &(impl Abort + AllocGlobal), asked: Asked, length: usize) -> String
    requires { 60 ≤ length }
{
    let others = match asked {
        Asked::Fetch => 53,
        Asked::Since => 60,
        Asked::News => 43,
    };
    letters(rt, length - others)
}

/// A reply of this length is written as it is due, and no write is longer than a page.
fn is_written(rt: &(impl Abort + AllocGlobal), asked: Asked, length: usize)
    requires { 60 ≤ length }
{
    let text = text_for(rt, asked, length);
    let wanted = wanted(rt, asked, text.as_str());
    assert_eq!(rt; wanted.len(), length);
    let mut talk = with_document(rt, text.as_str());
    let mut out = Measured::new(rt, usize::MAX);
    assert!(rt; ask(rt, &mut talk, asked, &mut out));
    let writer = out.into_writer();
    assert_eq!(rt; writer.bytes.as_slice(), wanted.as_bytes());
    assert!(rt; writer.longest <= PAGE);
}

/// Of a reply of two pages and a byte an output that takes so many bytes has these, and the session has ended.
fn is_cut(rt: &(impl Abort + AllocGlobal), asked: Asked, room: usize)
    requires { room ≤ 32768 }
{
    let text = text_for(rt, asked, 2 * PAGE + 1);
    let wanted = wanted(rt, asked, text.as_str());
    let mut talk = with_document(rt, text.as_str());
    let mut out = Measured::new(rt, room);
    assert!(rt; !ask(rt, &mut talk, asked, &mut out));
    assert!(rt; !ask(rt, &mut talk, asked, &mut out));
    assert!(rt; room <= wanted.len());
    assert_eq!(rt;
        out.into_writer().bytes.as_slice(),
        wanted.as_bytes().split_at(room).0
    );
}

/// Replies of one page less a byte, of one page, and of one page and a byte.
#[test]
fn documents_of_a_page(rt: HostRuntime) {
    for more in 0..3 {
        is_written(&rt, Asked::Fetch, PAGE - 1 + more);
    }
}

#[test]
fn deltas_of_a_page(rt: HostRuntime) {
    for more in 0..3 {
        is_written(&rt, Asked::Since, PAGE - 1 + more);
    }
}

#[test]
fn news_of_a_page(rt: HostRuntime) {
    for more in 0..3 {
        is_written(&rt, Asked::News, PAGE - 1 + more);
    }
}

/// Where a write fails at a page's end, a byte before it or a byte behind it.
#[test]
fn documents_to_outputs_that_fail(rt: HostRuntime) {
    for room in ROOMS {
        is_cut(&rt, Asked::Fetch, room);
    }
}

#[test]
fn deltas_to_outputs_that_fail(rt: HostRuntime) {
    for room in ROOMS {
        is_cut(&rt, Asked::Since, room);
    }
}

#[test]
fn news_to_outputs_that_fail(rt: HostRuntime) {
    for room in ROOMS {
        is_cut(&rt, Asked::News, room);
    }
}

/// How many bytes the outputs take.
const ROOMS: [usize; 6] = [0, PAGE - 1, PAGE, PAGE + 1, 2 * PAGE - 1, 2 * PAGE];

/// Texts with each escape that JSON has, in an insert, an attribute, a change and an embed, as they were sent.
#[test]
fn replies_with_escapes(rt: HostRuntime) {
    let rt = &rt;
    let mut talk = Conversation::roomy(rt);
    for (line, reply) in ESCAPED {
        assert_eq!(rt; said(rt, &mut talk, line, PAGE).as_str(), reply);
    }
}

const ESCAPED: [(&str, &str); 5] = [
    (r#"{"do":"hello","source":"ann"}"#, "{\"ok\":\"hello\"}\n"),
    (
        r#"{"do":"create","doc":"d","n":1,"ops":[{"insert":"\"\\\b\f\n\r\t\u0000\u001f\u007f é €","attributes":{"\n":"\"","b":-1,"c":true,"d":false,"e":9007199254740991}},{"insert":{"\u0001":"\\"}}]}"#,
        "{\"doc\":\"d\",\"n\":1,\"ok\":\"taken\",\"rev\":1}\n",
    ),
    (
        r#"{"base":1,"do":"edit","doc":"d","n":2,"ops":[{"retain":3,"attributes":{"\n":null,"b":"\t"}},{"delete":2}]}"#,
        "{\"doc\":\"d\",\"n\":2,\"ok\":\"taken\",\"rev\":2}\n",
    ),
    (
        r#"{"do":"since","doc":"d","rev":0}"#,
        concat!(
            r#"{"deltas":[[{"attributes":{"\n":"\"","b":-1,"c":true,"d":false,"e":9007199254740991},"#,
            r#""insert":"\"\\\b\f\n\r\t\u0000\u001f"#,
            "\u{7f} é €",
            r#""},{"insert":{"\u0001":"\\"}}],[{"attributes":{"\n":null,"b":"\t"},"retain":3},{"delete":2}]],"doc":"d","ok":"since","rev":2}"#,
            "\n"
        ),
    ),
    (
        r#"{"do":"fetch","doc":"d"}"#,
        concat!(
            r#"{"doc":"d","ok":"doc","ops":[{"attributes":{"b":"\t","c":true,"d":false,"e":9007199254740991},"insert":"\"\\\b"},"#,
            r#"{"attributes":{"\n":"\"","b":-1,"c":true,"d":false,"e":9007199254740991},"insert":"\r\t\u0000\u001f"#,
            "\u{7f} é €",
            r#""},{"insert":{"\u0001":"\\"}}],"rev":2}"#,
            "\n"
        ),
    ),
];
