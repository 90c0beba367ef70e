use super::watched::Seen;
use super::{EVERY, formatted, opened};
use disk::{Disk, FaultDisk, FaultPlan, Left};
use recovery::Store;
use refusal::Refusal;
use server_threads::serve_streams;
use serving::{InputStream, ServingError};
use session::Stream;
use std::io::{self, ErrorKind, Read, Write};
use std::process::Abort;
use std::sync::Wait;
use std::thread::Threads;

const LINES: &str = "{\"do\":\"hello\",\"source\":\"ann\"}\n\
    {\"do\":\"subscribe\",\"doc\":\"d\",\"rev\":0}\n\
    {\"do\":\"create\",\"doc\":\"d\",\"n\":1,\"ops\":[{\"insert\":\"z\"}]}\n\
    {\"do\":\"subscribe\",\"doc\":\"d\",\"rev\":1}\n\
    {\"base\":1,\"do\":\"edit\",\"doc\":\"d\",\"n\":2,\"ops\":[{\"insert\":\"q\"}]}\n\
    {\"base\":1,\"do\":\"edit\",\"doc\":\"d\",\"n\":2,\"ops\":[{\"insert\":\"q\"}]}\n\
    {\"base\":9,\"do\":\"edit\",\"doc\":\"d\",\"n\":3,\"ops\":[{\"insert\":\"q\"}]}\n\
    {\"do\":\"fetch\",\"doc\":\"d\"}\n";

/// The news follow the line of the edit.
const REPLIES: &str = "{\"ok\":\"hello\"}\n\
    {\"code\":6,\"error\":\"NoDocument\"}\n\
    {\"doc\":\"d\",\"n\":1,\"ok\":\"taken\",\"rev\":1}\n\
    {\"doc\":\"d\",\"ok\":\"subscribed\",\"rev\":1}\n\
    {\"doc\":\"d\",\"n\":2,\"ok\":\"taken\",\"rev\":2}\n\
    {\"doc\":\"d\",\"news\":2,\"ops\":[{\"insert\":\"q\"}]}\n\
    {\"doc\":\"d\",\"n\":2,\"ok\":\"again\",\"rev\":2}\n\
    {\"code\":12,\"error\":\"Future\"}\n\
    {\"doc\":\"d\",\"ok\":\"doc\",\"ops\":[{\"insert\":\"qz\"}],\"rev\":2}\n";

const AFTERWARDS: &str = "{\"do\":\"hello\",\"source\":\"ann\"}\n\
    {\"base\":1,\"do\":\"edit\",\"doc\":\"d\",\"n\":2,\"ops\":[{\"insert\":\"q\"}]}\n\
    {\"do\":\"fetch\",\"doc\":\"d\"}\n";

const KEPT: &str = "{\"ok\":\"hello\"}\n\
    {\"doc\":\"d\",\"n\":2,\"ok\":\"again\",\"rev\":2}\n\
    {\"doc\":\"d\",\"ok\":\"doc\",\"ops\":[{\"insert\":\"qz\"}],\"rev\":2}\n";

/// What comes where the device fails at the edit: the creation was acknowledged before.
const FAILED: &str = "{\"ok\":\"hello\"}\n\
    {\"code\":6,\"error\":\"NoDocument\"}\n\
    {\"doc\":\"d\",\"n\":1,\"ok\":\"taken\",\"rev\":1}\n\
    {\"doc\":\"d\",\"ok\":\"subscribed\",\"rev\":1}\n\
    {\"code\":21,\"error\":\"StoreFailed\"}\n\
    {\"code\":21,\"error\":\"StoreFailed\"}\n\
    {\"code\":21,\"error\":\"StoreFailed\"}\n\
    {\"doc\":\"d\",\"ok\":\"doc\",\"ops\":[{\"insert\":\"z\"}],\"rev\":1}\n";

/// An output that fails.
#[derive(Drop)]
struct Broken;

impl Write for Broken {
    fn write(&mut self, _buf: &[u8]) -> io::Result<usize> {
        Err(io::Error::from(ErrorKind::BrokenPipe))
    }

    fn flush(&mut self) -> io::Result<()> {
        Ok(())
    }
}

/// An input: a signal cuts its first read short, the second one gives lines, and the third one fails.
#[derive(Drop)]
struct CutOff {
    reads: u8,
}

impl Read for CutOff {
    fn read(&mut self, buf: &mut [u8]) -> io::Result<usize> {
        self.reads = self.reads.saturating_add(1);
        match self.reads {
            1 => Err(io::Error::from(ErrorKind::Interrupted)),
            2 => {
                let mut lines = LINES.as_bytes();
                lines.read(buf)
            }
            _ => Err(io::Error::from(ErrorKind::BrokenPipe)),
        }
    }
}

/// Serves lines over a store, and gives the store back, with what ended it and what was written. The watch is told once of a store that
/// fails.
fn answered<R: Threads + Wait + Abort + AllocGlobal + Sync, D: Disk + Send + Drop>(
    rt: &R,
    store: Store<D>,
    lines: &str,
) -> (Store<D>, Result<(), ServingError>, String) {
    let input = InputStream::new(lines.as_bytes());
    let output = Stream::new(Vec::new(rt.alloc()));
    let seen = Seen::new();
    let streamed = serve_streams(rt, rt.alloc(), store, input, output, EVERY, &seen);
    assert_eq!(rt;
        seen.failures(),
        if streamed.served.is_err() { 1 } else { 0 }
    );
    assert!(rt; streamed.input.into_reader().is_empty());
    let written = String::from_utf8(streamed.output.into_writer()).expect(rt, "a text");
    (streamed.store, streamed.served, written)
}

#[test]
fn a_session_over_streams_is_answered_and_its_edits_are_kept(rt: HostRuntime) {
    let (store, served, written) = answered(&rt, opened(&rt, formatted(&rt)), LINES);
    assert!(&rt; served.is_ok());
    assert_eq!(&rt; written.as_str(), REPLIES);
    let (_store, served, written) = answered(&rt, opened(&rt, store.close()), AFTERWARDS);
    assert!(&rt; served.is_ok());
    assert_eq!(&rt; written.as_str(), KEPT);
}

// How many calls an opening makes, and after it the creation, which opens a slot.
fn calls_before_the_edit(rt: &(impl Abort + AllocGlobal)) -> u64 {
    let plan = FaultPlan::stop(u64::MAX, Left::Nothing);
    let closed = opened(rt, FaultDisk::new(formatted(rt), plan)).close();
    (closed.disk().calls().len() as u64).saturating_add(8)
}

#[test]
fn a_failing_device_is_told_and_what_was_acknowledged_is_kept(rt: HostRuntime) {
    let plan = FaultPlan::fail(calls_before_the_edit(&rt), Left::Nothing);
    let store = opened(&rt, FaultDisk::new(formatted(&rt), plan));
    let (store, served, written) = answered(&rt, store, LINES);
    assert!(&rt; matches!(served, Err(ServingError::Refused(Refusal::StoreFailed))));
    assert_eq!(&rt; written.as_str(), FAILED);
    let store = opened(&rt, store.close());
    assert_eq!(&rt; store.state().documents().len(), 1);
}

#[test]
fn an_output_that_fails_ends_the_session(rt: HostRuntime) {
    let streamed = serve_streams(
        &rt,
        rt.alloc(),
        opened(&rt, formatted(&rt)),
        InputStream::new(LINES.as_bytes()),
        Stream::new(Broken),
        EVERY,
        &Seen::new(),
    );
    assert!(&rt; matches!(streamed.served, Err(ServingError::Stream)));
}

#[test]
fn an_input_that_fails_ends_the_session_and_what_it_gave_is_answered(rt: HostRuntime) {
    let streamed = serve_streams(
        &rt,
        rt.alloc(),
        opened(&rt, formatted(&rt)),
        InputStream::new(CutOff { reads: 0 }),
        Stream::new(Vec::new(rt.alloc())),
        EVERY,
        &Seen::new(),
    );
    assert!(&rt; matches!(streamed.served, Err(ServingError::Stream)));
    let written = String::from_utf8(streamed.output.into_writer()).expect(&rt, "a text");
    assert_eq!(&rt; written.as_str(), REPLIES);
}
