use super::{EVERY, FETCH, formatted, greeted, is_told, line_from, opened, served};
use disk::{Disk, FaultDisk, FaultPlan, Left};
use refusal::Refusal;
use std::io::Write;
use std::net::{Net, SocketAddr, TcpStream};
use std::process::Abort;

const CREATE: &str = "{\"do\":\"create\",\"doc\":\"d\",\"n\":1,\"ops\":[{\"insert\":\"z\"}]}";

const CREATE_OTHER: &str = "{\"do\":\"create\",\"doc\":\"e\",\"n\":1,\"ops\":[]}";

const EDIT: &str =
    "{\"base\":1,\"do\":\"edit\",\"doc\":\"d\",\"n\":2,\"ops\":[{\"insert\":\"q\"}]}";

const EDIT_BY_OTHER: &str =
    "{\"base\":1,\"do\":\"edit\",\"doc\":\"d\",\"n\":1,\"ops\":[{\"insert\":\"q\"}]}";

const SHOWN: &str = "{\"doc\":\"d\",\"ok\":\"doc\",\"ops\":[{\"insert\":\"z\"}],\"rev\":1}";

const FAILED: &str = "{\"code\":21,\"error\":\"StoreFailed\"}";

const MISSING: &str = "{\"code\":6,\"error\":\"NoDocument\"}";

/// The first creation opens a slot and is appended, by so many calls of the device.
const CREATION: u64 = 8;

/// A batch has room for one creation of so many letters of two bytes, and not for two.
const LETTERS: usize = 1_300;

const TAKEN: &str = "{\"doc\":\"d\",\"n\":1,\"ok\":\"taken\",\"rev\":1}";

const SINCE: &str = "{\"do\":\"since\",\"doc\":\"d\",\"rev\":1}";

const NO_DELTAS: &str = "{\"deltas\":[],\"doc\":\"d\",\"ok\":\"since\",\"rev\":1}";

const FETCH_OTHER: &str = "{\"do\":\"fetch\",\"doc\":\"e\"}";

// The creation is on the disk when the device fails: then no command is taken, and the document is shown unchanged.
fn fail<R: Abort + AllocGlobal + Net<Stream = TcpStream>>(rt: &R, address: SocketAddr) {
    let ann = greeted(rt, address, "ann");
    let bob = greeted(rt, address, "bob");
    is_told(rt, &ann, CREATE, TAKEN);
    is_told(rt, &ann, EDIT, FAILED);
    is_told(rt, &bob, EDIT_BY_OTHER, FAILED);
    is_told(rt, &bob, CREATE_OTHER, FAILED);
    is_told(rt, &bob, FETCH, SHOWN);
}

// A new device that goes wrong.
fn faulty(rt: &(impl Abort + AllocGlobal), plan: FaultPlan) -> FaultDisk {
    FaultDisk::new(formatted(rt), plan)
}

// How many calls an opening makes.
fn calls_of_opening(rt: &(impl Abort + AllocGlobal)) -> u64 {
    let plan = FaultPlan::stop(u64::MAX, Left::Nothing);
    let closed = opened(rt, faulty(rt, plan)).close();
    closed.disk().calls().len() as u64
}

#[test]
fn a_failing_device_fails_each_command_and_readers_go_on(rt: HostRuntime) {
    let call = calls_of_opening(&rt).saturating_add(CREATION);
    let store = opened(&rt, faulty(&rt, FaultPlan::fail(call, Left::Nothing)));
    let (_store, ended) = served(&rt, store, EVERY, |address| fail(&rt, address));
    assert_eq!(&rt; ended, Err(Refusal::Fault));
}

// Two creations, as two lines that are sent in one write.
fn creations(rt: &(impl Abort + AllocGlobal)) -> String {
    let text = "é".repeat(rt.alloc(), LETTERS).expect(rt, "memory");
    let lines = format!(in rt.alloc();
        "{{\"do\":\"create\",\"doc\":\"d\",\"n\":1,\"ops\":[{{\"insert\":\"{text}\"}}]}}\n{{\"do\":\"create\",\"doc\":\"e\",\"n\":1,\"ops\":[{{\"insert\":\"{text}\"}}]}}\n"
    );
    lines.expect(rt, "memory")
}

// Of two commands sent ahead the first one's batch is settled when the second one's fails: it has its reply all the same.
fn fail_between<R: Abort + AllocGlobal + Net<Stream = TcpStream>>(rt: &R, address: SocketAddr) {
    let ann = greeted(rt, address, "ann");
    let mut output = &ann;
    output
        .write_all(creations(rt).as_str().as_bytes())
        .expect(rt, "a write");
    assert_eq!(rt; line_from(rt, &ann).as_str(), TAKEN);
    assert_eq!(rt; line_from(rt, &ann).as_str(), FAILED);
    is_told(rt, &ann, SINCE, NO_DELTAS);
    is_told(rt, &ann, FETCH_OTHER, MISSING);
}

// The second creation's first call fails.
#[test]
fn of_lines_sent_ahead_those_that_are_settled_are_acknowledged(rt: HostRuntime) {
    let call = calls_of_opening(&rt).saturating_add(CREATION);
    let store = opened(&rt, faulty(&rt, FaultPlan::fail(call, Left::Nothing)));
    let (_store, ended) = served(&rt, store, EVERY, |address| fail_between(&rt, address));
    assert_eq!(&rt; ended, Err(Refusal::Fault));
}
