//! What the program tells while it serves, and what ends that.
ghost use Rattle.std.specs.Prelude.{◌≡◌, Ok, OnOk};

use crate::ended::{LISTENING, ProgramEnd, cause_of, tell};
use crate::events::{OpenedStore, OperatorEvent, WrittenBatches, milliseconds, tell_event};
use crate::patient::EndingInput;
use disk::FileDisk;
use refusal::Refusal;
use server_threads::{Counters, Moment, Peers, Watch};
use std::io::{self, Write};
use std::net::SocketAddr;
use std::sync::{Mutex, Wait};
use std::time::Clock;
use words::Listening;

/// How long a batch has to take to be told of, in milliseconds.
const LONG: u64 = 1000;

/// How far two lines that tell of full places lie apart at least, in milliseconds.
const MINUTE: u64 = 60_000;

/// Tells on the standard streams what happens while a store is served to those who connect. Where that is asked for, the end of standard input
/// ends the serving.
#[derive(Drop)]
pub(crate) struct OperatorWatch<'a, R: Wait, I, O, E> {
    rt: &'a R,
    path: &'a str,
    bound: SocketAddr,
    how: Listening<'a>,
    opened: OpenedStore,
    counters: Counters,
    pace: Mutex<Pace>,
    streams: Mutex<OperatorStreams<'a, I, O, E>>,
}

// How batches are written.
#[derive(Drop)]
struct Pace {
    /// When the one began that is being written.
    began: Option<u64>,
    written: WrittenBatches,
}

// The streams, and what has happened.
#[derive(Drop)]
struct OperatorStreams<'a, I, O, E> {
    input: &'a mut I,
    output: &'a mut O,
    errors: &'a mut E,
    has_output_failed: bool,
    has_store_failed: bool,
    /// The input has ended, by which the end was asked for.
    is_asked: bool,
    listener: Option<io::Error>,
    /// The connections that were told of.
    peers: Peers,
    /// When full places may be told of again, and when the counters are.
    full_at: u64,
    stats_at: u64,
}

impl<'a, R: AllocGlobal + Clock + Wait, I: EndingInput, O: Write, E: Write> OperatorWatch<
    'a,
    R,
    I,
    O,
    E,
> {
    /// Of the store in this file, at this address.
    pub(crate) fn new(
        rt: &'a R,
        path: &'a str,
        bound: SocketAddr,
        how: Listening<'a>,
        opened: OpenedStore,
        input: &'a mut I,
        output: &'a mut O,
        errors: &'a mut E,
    ) -> OperatorWatch<'a, R, I, O, E> {
        OperatorWatch {
            rt,
            path,
            bound,
            how,
            opened,
            counters: Counters::new(),
            pace: Mutex::new(Pace::new()),
            streams: Mutex::new(OperatorStreams::new(input, output, errors)),
        }
    }

    /// How the program ends, which served so and was answered so: well only where that was, and the end was asked for. A store that failed was
    /// told of at that moment.
    pub(crate) fn ended<'w>(
        self,
        how: Listening<'w>,
        served: Result<(), Refusal>,
    ) -> Result<(), ProgramEnd<'w>>
        ensures { OnOk result (served ≡ Ok tt) }
    {
        let OperatorWatch {
            rt,
            path: _,
            bound: _,
            how: _,
            opened: _,
            counters: _,
            pace: _pace,
            streams,
        } = self;
        let streams = streams.into_inner();
        let ended = streams.ended(how, served);
        if how.log {
            tell_event(rt, &OperatorEvent::End(refusal_of(&ended)), streams.errors);
        }
        ended
    }

    // Where lines are asked for, tells this.
    fn log(&self, event: &OperatorEvent<'_>, errors: &mut E) {
        if self.how.log {
            tell_event(self.rt, event, errors);
        }
    }

    // Tells of the connections that were closed, and of what was counted, where it is time to.
    fn tell_of(&self, peers: Peers, streams: &mut OperatorStreams<'a, I, O, E>) {
        let now = self.now();
        if peers.slow > streams.peers.slow {
            let closed = peers.slow - streams.peers.slow;
            streams.peers.slow = peers.slow;
            self.log(&OperatorEvent::Slow(closed), &mut *streams.errors);
        }
        if peers.idle > streams.peers.idle {
            let closed = peers.idle - streams.peers.idle;
            streams.peers.idle = peers.idle;
            self.log(&OperatorEvent::Idle(closed), &mut *streams.errors);
        }
        if peers.turned_away > streams.peers.turned_away && now >= streams.full_at {
            let closed = peers.turned_away - streams.peers.turned_away;
            streams.peers.turned_away = peers.turned_away;
            streams.full_at = now.saturating_add(MINUTE);
            self.log(&OperatorEvent::Full(closed), &mut *streams.errors);
        }
        if self.how.stats > 0 && now >= streams.stats_at {
            streams.stats_at = self.after_stats(now);
            let written = self.pace.lock(self.rt).take();
            self.log(
                &OperatorEvent::Stats(peers, written, &self.counters),
                &mut *streams.errors,
            );
        }
    }

    // When the next line of counters is due.
    fn after_stats(&self, now: u64) -> u64 {
        now.saturating_add(u64::from(self.how.stats).saturating_mul(1000))
    }

    fn now(&self) -> u64 {
        milliseconds(self.rt.monotonic())
    }
}

impl Pace {
    fn new() -> Pace {
        Pace {
            began: None,
            written: WrittenBatches {
                batches: 0,
                longest: 0,
            },
        }
    }

    // A batch is about to be written. A call that is repeated for one batch tells nothing new.
    fn begin(&mut self, now: u64) {
        if self.began.is_none() {
            self.began = Some(now);
        }
    }

    // The batch is written. The answer is how many milliseconds that took.
    fn end(&mut self, now: u64) -> u64 {
        let took = match self.began.take() {
            Some(began) => now.saturating_sub(began),
            None => 0,
        };
        self.written.batches = self.written.batches.saturating_add(1);
        self.written.longest = self.written.longest.max(took);
        took
    }

    // What was written, from which on the longest time is taken anew.
    fn take(&mut self) -> WrittenBatches {
        let written = self.written;
        self.written.longest = 0;
        written
    }
}

// The refusal by which the program ends, where it ends by one.
fn refusal_of(ended: &Result<(), ProgramEnd<'_>>) -> Option<Refusal> {
    match ended {
        Ok(()) => None,
        Err(ended) => ended.refusal(),
    }
}

impl<'a, I: EndingInput, O, E> OperatorStreams<'a, I, O, E> {
    fn new(input: &'a mut I, output: &'a mut O, errors: &'a mut E) -> OperatorStreams<'a, I, O, E> {
        OperatorStreams {
            input,
            output,
            errors,
            has_output_failed: false,
            has_store_failed: false,
            is_asked: false,
            listener: None,
            peers: Peers {
                open: 0,
                turned_away: 0,
                slow: 0,
                idle: 0,
            },
            full_at: 0,
            stats_at: 0,
        }
    }

    // How the program ends, where serving was answered so.
    fn ended<'w>(
        &self,
        how: Listening<'w>,
        served: Result<(), Refusal>,
    ) -> Result<(), ProgramEnd<'w>>
        ensures { OnOk result (served ≡ Ok tt) }
    {
        if self.has_output_failed {
            return Err(ProgramEnd::Stream);
        }
        if self.has_store_failed && (how.exit_on_failure || self.is_asked) {
            return Err(ProgramEnd::Refused(Refusal::StoreFailed, None));
        }
        if let Err(refusal) = served {
            if !self.has_store_failed {
                return Err(ProgramEnd::Refused(refusal, None));
            }
        }
        match (self.listener, served) {
            (Some(reason), _) => Err(ProgramEnd::fault(LISTENING, how.address, reason)),
            (None, Ok(())) if self.is_asked => Ok(()),
            (None, _) => Err(ProgramEnd::Refused(Refusal::Fault, None)),
        }
    }

    // Looks whether the input has ended, and remembers that.
    fn look(&mut self) {
        if !self.is_asked {
            self.is_asked = self.input.has_ended();
        }
    }
}

impl<
    R: AllocGlobal + Clock + Wait + Sync,
    I: EndingInput + Send,
    O: Write + Send,
    E: Write + Send,
> Watch<FileDisk> for OperatorWatch<'_, R, I, O, E> {
    fn begun(&self, sessions: usize, seats: usize) -> bool {
        let mut streams = self.streams.lock(self.rt);
        if sessions < seats {
            let _ = writeln!(streams.errors, "richd: {sessions} of {seats} sessions");
            let _ = streams.errors.flush();
        }
        let bound = self.bound;
        let shown = writeln!(streams.output, "listening {bound}").is_ok()
            && streams.output.flush().is_ok();
        streams.has_output_failed = !shown;
        streams.stats_at = self.after_stats(self.now());
        self.log(
            &OperatorEvent::Start(self.opened, sessions),
            &mut *streams.errors,
        );
        shown
    }

    fn listener_failed(&self, reason: io::Error) {
        self.streams.lock(self.rt).listener = Some(reason);
    }

    fn store_failed(&self, why: Refusal, device: &FileDisk) {
        let mut streams = self.streams.lock(self.rt);
        streams.has_store_failed = true;
        let cause = cause_of(self.path, device, why);
        tell(why, cause, &mut *streams.errors);
        self.log(&OperatorEvent::Failed(why, cause), &mut *streams.errors);
    }

    fn goes_on(&self, peers: Peers) -> bool {
        let mut streams = self.streams.lock(self.rt);
        if self.how.log {
            self.tell_of(peers, &mut streams);
        }
        if self.how.until_closed {
            streams.look();
        }
        !streams.is_asked && !(self.how.exit_on_failure && streams.has_store_failed)
    }

    fn writes(&self, at: Moment) {
        if !self.how.log {
            return;
        }
        let now = self.now();
        match at {
            Moment::BeforeCommit => self.pace.lock(self.rt).begin(now),
            Moment::AfterCommit => {
                let took = self.pace.lock(self.rt).end(now);
                if took >= LONG {
                    let mut streams = self.streams.lock(self.rt);
                    self.log(&OperatorEvent::Waited(took), &mut *streams.errors);
                }
            }
        }
    }

    fn counters(&self) -> Option<&Counters> {
        if self.how.log && self.how.stats > 0 {
            Some(&self.counters)
        } else {
            None
        }
    }
}

/// Tells on standard error of a store that fails while it is served over standard input and output.
#[derive(Drop)]
pub(crate) struct Alone<'a, R: Wait, E> {
    rt: &'a R,
    path: &'a str,
    errors: Mutex<&'a mut E>,
}

impl<'a, R: Wait, E: Write> Alone<'a, R, E> {
    /// Of the store in this file.
    pub(crate) fn new(rt: &'a R, path: &'a str, errors: &'a mut E) -> Alone<'a, R, E> {
        Alone {
            rt,
            path,
            errors: Mutex::new(errors),
        }
    }
}

impl<R: Wait + Sync, E: Write + Send> Watch<FileDisk> for Alone<'_, R, E> {
    fn begun(&self, _sessions: usize, _seats: usize) -> bool {
        true
    }

    fn listener_failed(&self, _reason: io::Error) {}

    fn store_failed(&self, why: Refusal, device: &FileDisk) {
        let mut errors = self.errors.lock(self.rt);
        tell(why, cause_of(self.path, device, why), &mut **errors);
    }
}
