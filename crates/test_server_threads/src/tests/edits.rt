use super::places::greeted_all;
use super::{EVERY, FETCH, formatted, greeted, is_told, line_from, opened, send, served};
use std::net::{Net, SocketAddr, TcpStream};
use std::process::Abort;

const CREATE: &str = "{\"do\":\"create\",\"doc\":\"d\",\"n\":1,\"ops\":[{\"insert\":\"z\"}]}";

const TAKEN_1: &str = "{\"doc\":\"d\",\"n\":1,\"ok\":\"taken\",\"rev\":1}";

const EDIT: &str =
    "{\"base\":1,\"do\":\"edit\",\"doc\":\"d\",\"n\":1,\"ops\":[{\"insert\":\"q\"}]}";

const TAKEN_2: &str = "{\"doc\":\"d\",\"n\":1,\"ok\":\"taken\",\"rev\":2}";

const AGAIN_2: &str = "{\"doc\":\"d\",\"n\":1,\"ok\":\"again\",\"rev\":2}";

const SHOWN_2: &str = "{\"doc\":\"d\",\"ok\":\"doc\",\"ops\":[{\"insert\":\"qz\"}],\"rev\":2}";

const SUBSCRIBE: &str = "{\"do\":\"subscribe\",\"doc\":\"d\",\"rev\":1}";

const SUBSCRIBED: &str = "{\"doc\":\"d\",\"ok\":\"subscribed\",\"rev\":1}";

const UNSUBSCRIBE: &str = "{\"do\":\"unsubscribe\",\"doc\":\"d\"}";

const UNSUBSCRIBED: &str = "{\"doc\":\"d\",\"ok\":\"unsubscribed\"}";

/// How many sources write the document that one follows, and how many edits each of them makes.
const WRITERS: u32 = 60;

const EACH: u64 = 5;

fn share<R: Abort + AllocGlobal + Net<Stream = TcpStream>>(rt: &R, address: SocketAddr) {
    let ann = greeted(rt, address, "ann");
    let bob = greeted(rt, address, "bob");
    is_told(rt, &ann, CREATE, TAKEN_1);
    is_told(rt, &bob, EDIT, TAKEN_2);
    is_told(rt, &ann, FETCH, SHOWN_2);
    is_told(rt, &bob, FETCH, SHOWN_2);
}

#[test]
fn two_sessions_fetch_each_others_edits(rt: HostRuntime) {
    let store = opened(&rt, formatted(&rt));
    let (store, ended) = served(&rt, store, EVERY, |address| share(&rt, address));
    assert_eq!(&rt; ended, Ok(()));
    assert_eq!(&rt; store.state().documents().len(), 1);
}

// The second connection is closed before the third one is made.
fn send_again<R: Abort + AllocGlobal + Net<Stream = TcpStream>>(rt: &R, address: SocketAddr) {
    let ann = greeted(rt, address, "ann");
    is_told(rt, &ann, CREATE, TAKEN_1);
    let bob = greeted(rt, address, "bob");
    is_told(rt, &bob, EDIT, TAKEN_2);
    drop(bob);
    let bob = greeted(rt, address, "bob");
    is_told(rt, &bob, EDIT, AGAIN_2);
}

#[test]
fn a_command_sent_again_on_a_new_connection_is_answered_again(rt: HostRuntime) {
    let store = opened(&rt, formatted(&rt));
    let (_store, ended) = served(&rt, store, EVERY, |address| send_again(&rt, address));
    assert_eq!(&rt; ended, Ok(()));
}

// An edit of the first revision, with a number, is taken as the revision of this number.
fn is_taken(rt: &(impl Abort + AllocGlobal), stream: &TcpStream, number: u64) {
    let edit = format!(in rt.alloc();
        "{{\"base\":1,\"do\":\"edit\",\"doc\":\"d\",\"n\":{number},\"ops\":[{{\"insert\":\"q\"}}]}}"
    );
    let taken = format!(in rt.alloc();
        "{{\"doc\":\"d\",\"n\":{number},\"ok\":\"taken\",\"rev\":{number}}}"
    );
    is_told(
        rt,
        stream,
        edit.expect(rt, "memory").as_str(),
        taken.expect(rt, "memory").as_str(),
    );
}

// The next line that comes tells this revision.
fn is_seen(rt: &(impl Abort + AllocGlobal), stream: &TcpStream, revision: u64) {
    let news = line_from(rt, stream);
    let wanted = format!(in rt.alloc(); "{{\"doc\":\"d\",\"news\":{revision},\"ops\":");
    let wanted = wanted.expect(rt, "memory");
    assert!(rt; news.as_str().starts_with(wanted.as_str()), "{news}");
}

fn follow<R: Abort + AllocGlobal + Net<Stream = TcpStream>>(rt: &R, address: SocketAddr) {
    let ann = greeted(rt, address, "ann");
    is_told(rt, &ann, CREATE, TAKEN_1);
    let bob = greeted(rt, address, "bob");
    is_told(rt, &bob, SUBSCRIBE, SUBSCRIBED);
    for number in 2..40 {
        is_taken(rt, &ann, number);
    }
    for revision in 2..40 {
        is_seen(rt, &bob, revision);
    }
}

#[test]
fn a_subscriber_sees_every_revision_once_in_order(rt: HostRuntime) {
    let store = opened(&rt, formatted(&rt));
    let (_store, ended) = served(&rt, store, EVERY, |address| follow(&rt, address));
    assert_eq!(&rt; ended, Ok(()));
}

// Each writer sends its edit of this number before any reads a reply, and each edit is taken.
fn all_edit(rt: &(impl Abort + AllocGlobal), writers: &[TcpStream], number: u64) {
    let edit = format!(in rt.alloc();
        "{{\"base\":1,\"do\":\"edit\",\"doc\":\"d\",\"n\":{number},\"ops\":[{{\"insert\":\"q\"}}]}}"
    ).expect(rt, "memory");
    let taken = format!(in rt.alloc();
        "{{\"doc\":\"d\",\"n\":{number},\"ok\":\"taken\",\"rev\":"
    ).expect(rt, "memory");
    for writer in writers {
        send(rt, writer, edit.as_str());
    }
    for writer in writers {
        let reply = line_from(rt, writer);
        assert!(rt; reply.as_str().starts_with(taken.as_str()), "{reply}");
    }
}

// 300 edits of 60 writers make the revisions from 2 on, and after the last one no line comes but a reply.
fn follow_all<R: Abort + AllocGlobal + Net<Stream = TcpStream>>(rt: &R, address: SocketAddr) {
    let ann = greeted(rt, address, "ann");
    is_told(rt, &ann, CREATE, TAKEN_1);
    let bob = greeted(rt, address, "bob");
    is_told(rt, &bob, SUBSCRIBE, SUBSCRIBED);
    let writers = greeted_all(rt, address, WRITERS);
    for number in 1..=EACH {
        all_edit(rt, writers.as_slice(), number);
    }
    for revision in 2..302 {
        is_seen(rt, &bob, revision);
    }
    is_told(rt, &bob, UNSUBSCRIBE, UNSUBSCRIBED);
}

#[test]
fn a_subscriber_sees_what_sixty_write_once_in_order(rt: HostRuntime) {
    let store = opened(&rt, formatted(&rt));
    let (_store, ended) = served(&rt, store, EVERY, |address| follow_all(&rt, address));
    assert_eq!(&rt; ended, Ok(()));
}
