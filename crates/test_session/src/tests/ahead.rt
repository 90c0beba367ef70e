use refusal::Refusal;
use revision::{Command, Limits, State};
use session::{Desk, Reply, Sent, Session, Shelf, StateDesk, Stream};
use std::alloc::Global;

/// A desk of a state that counts how it is asked: the commands that are asked alone, the calls that ask several, and how many commands
/// these ask. A call that asks none isn't counted.
#[derive(Drop)]
struct CountingDesk {
    desk: StateDesk,
    alone: usize,
    calls: usize,
    together: usize,
}

impl Desk for CountingDesk {
    // Nothing is promised of what passes.
    ghost does = { λ _ _ _. Unit {0} };

    ghost reached = { λ desk. desk.desk };

    fn ask(&mut self, alloc: Global, command: &Command) -> Result<Reply, Refusal> {
        self.alone = self.alone.saturating_add(1);
        self.desk.ask(alloc, command)
    }

    fn ask_all(&mut self, alloc: Global, sent: &mut Vec<Sent>) {
        if sent.is_empty() {
            return;
        }
        self.calls = self.calls.saturating_add(1);
        self.together = self.together.saturating_add(sent.len());
        self.desk.ask_all(alloc, sent);
    }

    fn view<R, F: Drop + FnOnce(&State) -> R>(&mut self, read: F) -> Result<R, Refusal> {
        self.desk.view(read)
    }
}

/// Three commands, a question, and one command more.
const INPUT: &str = concat!(
    "{\"do\":\"hello\",\"source\":\"ann\"}\n",
    "{\"do\":\"create\",\"doc\":\"d\",\"n\":1,\"ops\":[{\"insert\":\"a\"}]}\n",
    "{\"base\":1,\"do\":\"edit\",\"doc\":\"d\",\"n\":2,\"ops\":[{\"insert\":\"b\"}]}\n",
    "{\"do\":\"undo\",\"doc\":\"d\",\"n\":3}\n",
    "{\"do\":\"fetch\",\"doc\":\"d\"}\n",
    "{\"base\":3,\"do\":\"edit\",\"doc\":\"d\",\"n\":4,\"ops\":[{\"insert\":\"c\"}]}\n",
);

const OUTPUT: &str = concat!(
    "{\"ok\":\"hello\"}\n",
    "{\"doc\":\"d\",\"n\":1,\"ok\":\"taken\",\"rev\":1}\n",
    "{\"doc\":\"d\",\"n\":2,\"ok\":\"taken\",\"rev\":2}\n",
    "{\"doc\":\"d\",\"n\":3,\"ok\":\"taken\",\"rev\":3}\n",
    "{\"doc\":\"d\",\"ok\":\"doc\",\"ops\":[{\"insert\":\"a\"}],\"rev\":3}\n",
    "{\"doc\":\"d\",\"n\":4,\"ok\":\"taken\",\"rev\":4}\n",
);

#[test]
fn commands_that_follow_one_another_are_asked_together(rt: HostRuntime) {
    let alloc = rt.alloc();
    let limits = Limits::new(4, 4, 65536, 65536, 4);
    let mut desk = CountingDesk {
        desk: StateDesk::new(State::new(alloc, limits)),
        alone: 0,
        calls: 0,
        together: 0,
    };
    let mut session = Session::new(alloc).expect(&rt, "memory");
    let mut shelf = Shelf::new(alloc).expect(&rt, "memory");
    let mut out = Stream::new(Vec::new(alloc));
    session
        .feed(alloc, INPUT.as_bytes(), &mut out, &mut desk, &mut shelf)
        .expect(&rt, "no write fails");
    assert_eq!(rt; out.into_writer().as_slice(), OUTPUT.as_bytes());
    assert_eq!(rt; (desk.alone, desk.calls, desk.together), (0, 2, 4));
}
