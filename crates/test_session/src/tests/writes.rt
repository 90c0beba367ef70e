use super::Conversation;
use session::{Output, Stream};
use std::io::{self, ErrorKind, Write};

/// A writer that takes so many bytes, and then fails.
#[derive(Drop)]
struct Short {
    bytes: Vec<u8>,
    room: usize,
}

impl Write for Short {
    fn write(&mut self, buf: &[u8]) -> io::Result<usize> {
        if self.room == 0 {
            return Err(io::Error::from(ErrorKind::BrokenPipe));
        }
        let count = buf.len().min(self.room);
        self.bytes.extend_from_slice(&buf[..count])?;
        self.room -= count;
        Ok(count)
    }

    fn flush(&mut self) -> io::Result<()> {
        Ok(())
    }
}

const INPUT: &[u8] = b"{\"do\":\"hello\",\"source\":\"ann\"}\n{\"do\":\"fetch\",\"doc\":\"d\"}\n";

#[test]
fn a_failed_write_ends_the_session(rt: HostRuntime) {
    let alloc = rt.alloc();
    let mut talk = Conversation::new(&rt, 2);
    let mut out = Stream::new(Short {
        bytes: Vec::new(alloc),
        room: 20,
    });
    assert!(rt; talk.feed(alloc, INPUT, &mut out).is_err());
    assert_eq!(rt;
        out.into_writer().bytes.as_slice(),
        b"{\"ok\":\"hello\"}\n{\"cod".as_slice()
    );
    let mut other = Stream::new(Vec::new(alloc));
    assert!(rt; talk.feed(alloc, INPUT, &mut other).is_err());
    assert!(rt; talk.on_news(alloc, &mut other).is_err());
    assert!(rt; other.into_writer().is_empty());
}

/// A writer that holds back what it is given, and sends it on where it is flushed.
#[derive(Drop)]
struct Held {
    held: Vec<u8>,
    sent: Vec<u8>,
}

impl Write for Held {
    fn write(&mut self, buf: &[u8]) -> io::Result<usize> {
        self.held.extend_from_slice(buf)?;
        Ok(buf.len())
    }

    fn flush(&mut self) -> io::Result<()> {
        self.sent.extend_from_slice(self.held.as_slice())?;
        self.held.clear();
        Ok(())
    }
}

#[test]
fn a_flush_sends_on_what_was_written(rt: HostRuntime) {
    let alloc = rt.alloc();
    let mut talk = Conversation::new(&rt, 2);
    let mut out = Stream::new(Held {
        held: Vec::new(alloc),
        sent: Vec::new(alloc),
    });
    talk.feed(alloc, INPUT, &mut out)
        .expect(&rt, "no write fails");
    out.flush().expect(&rt, "no write fails");
    let writer = out.into_writer();
    assert!(rt; writer.held.is_empty());
    assert_eq!(rt;
        writer.sent.as_slice(),
        b"{\"ok\":\"hello\"}\n{\"code\":6,\"error\":\"NoDocument\"}\n".as_slice()
    );
}
