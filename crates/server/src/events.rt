//! The lines for an operator: when something happened, what, and names with their values.
use crate::ended::FileCause;
use disk::FileDisk;
use inspection::changes_in;
use recovery::{Shape, Store};
use refusal::Refusal;
use server_threads::{Counters, Peers};
use std::alloc::{AllocError, Global};
use std::fmt::{self, Display, Formatter};
use std::io::{self, Write};
use std::time::{Clock, Duration};
use words::VERSION;

/// The highest number of a refusal.
const LAST_REFUSAL: u8 = 40;

/// What a store held when it was opened, and how long that took.
#[derive(Clone, Copy)]
pub(crate) struct OpenedStore {
    shape: Shape,
    documents: u64,
    changes: u64,
    milliseconds: u64,
}

impl OpenedStore {
    /// Of this store, which was opened in so many milliseconds.
    pub(crate) fn of(store: &Store<FileDisk>, milliseconds: u64) -> OpenedStore {
        OpenedStore {
            shape: store.shape(),
            documents: store.state().documents().len() as u64,
            changes: changes_in(store.state()),
            milliseconds,
        }
    }
}

/// What is told of the batches that were written: how many, and of those since the last time the longest that one took, in milliseconds.
#[derive(Clone, Copy)]
pub(crate) struct WrittenBatches {
    pub(crate) batches: u64,
    pub(crate) longest: u64,
}

/// What happened while a store was served.
#[derive(Clone, Copy)]
pub(crate) enum OperatorEvent<'a> {
    /// So many sessions can be served.
    Start(OpenedStore, usize),
    /// All commands waited so many milliseconds for the writing of one batch.
    Waited(u64),
    /// The store has failed.
    Failed(Refusal, Option<FileCause<'a>>),
    /// So many connections were closed since no session was free.
    Full(u64),
    /// So many were closed since they took nothing of what was written to them.
    Slow(u64),
    /// So many were closed since they were idle.
    Idle(u64),
    /// What was counted since the start.
    Stats(Peers, WrittenBatches, &'a Counters),
    /// The program ends by this refusal, or since standard output failed, or since that was asked for.
    End(Option<Refusal>),
}

impl Display for OperatorEvent<'_> {
    fn fmt<W: fmt::Write>(&self, f: &mut Formatter<W>) -> fmt::Result {
        match self {
            OperatorEvent::Start(opened, sessions) => write_start(opened, *sessions, f),
            OperatorEvent::Waited(milliseconds) => write!(f, "waited milliseconds {milliseconds}"),
            OperatorEvent::Failed(refusal, None) => write!(
                f,
                "failed refusal {}",
                refusal.number()
            ),
            OperatorEvent::Failed(refusal, Some(cause)) => {
                write!(f, "failed refusal {} {cause}", refusal.number())
            }
            OperatorEvent::Full(closed) => write!(f, "full closed {closed}"),
            OperatorEvent::Slow(closed) => write!(f, "slow closed {closed}"),
            OperatorEvent::Idle(closed) => write!(f, "idle closed {closed}"),
            OperatorEvent::Stats(peers, written, counters) => {
                write_peers(peers, f)?;
                write_written(written, counters.taken(), f)?;
                write_answers(counters, f)
            }
            OperatorEvent::End(Some(refusal)) => write!(f, "end refusal {}", refusal.number()),
            OperatorEvent::End(None) => f.write_str("end"),
        }
    }
}

fn write_start<W: fmt::Write>(
    opened: &OpenedStore,
    sessions: usize,
    f: &mut Formatter<W>,
) -> fmt::Result {
    write_shape(&opened.shape, f)?;
    let OpenedStore {
        shape: _,
        documents,
        changes,
        milliseconds,
    } = opened;
    write!(
        f,
        " documents {documents} changes {changes} milliseconds {milliseconds} sessions {sessions}"
    )
}

fn write_shape<W: fmt::Write>(shape: &Shape, f: &mut Formatter<W>) -> fmt::Result {
    let Shape {
        slots,
        slot,
        docs,
        cell,
        sources,
        keep,
    } = shape;
    write!(
        f,
        "start version {VERSION} slots {slots} slot {slot} docs {docs}"
    )?;
    write!(f, " cell {cell} sources {sources} keep {keep}")
}

fn write_peers<W: fmt::Write>(peers: &Peers, f: &mut Formatter<W>) -> fmt::Result {
    let Peers {
        open,
        turned_away,
        slow,
        idle,
    } = peers;
    write!(
        f,
        "stats sessions {open} full {turned_away} slow {slow} idle {idle}"
    )
}

// The batches, and how many of the commands that were taken are in one, to a tenth.
fn write_written<W: fmt::Write>(
    written: &WrittenBatches,
    taken: u64,
    f: &mut Formatter<W>,
) -> fmt::Result {
    let WrittenBatches { batches, longest } = written;
    let tenths = taken.saturating_mul(10) / (*batches).max(1);
    let (whole, tenth) = (tenths / 10, tenths % 10);
    write!(
        f,
        " batches {batches} a_batch {whole}.{tenth} longest_milliseconds {longest}"
    )
}

// The commands that were answered as taken, or as taken before, and those that were refused, by the refusal's number.
fn write_answers<W: fmt::Write>(counters: &Counters, f: &mut Formatter<W>) -> fmt::Result {
    write!(f, " taken {} again {}", counters.taken(), counters.again())?;
    for number in 1..=LAST_REFUSAL {
        write_refused(number, counters.refused(number), f)?;
    }
    Ok(())
}

fn write_refused<W: fmt::Write>(number: u8, count: u64, f: &mut Formatter<W>) -> fmt::Result {
    if count == 0 {
        return Ok(());
    }
    write!(f, " refused_{number} {count}")
}

/// Writes a line for an event: the seconds since 1970, to a thousandth, and what happened. Where memory runs out, or the stream doesn't
/// take it, the line is dropped.
pub(crate) fn tell_event<R: AllocGlobal + Clock, E: Write>(
    rt: &R,
    event: &OperatorEvent<'_>,
    errors: &mut E,
) {
    let now = milliseconds(rt.since_1970());
    if let Ok(line) = line_of(rt.alloc(), now, event) {
        let _ = errors.write_all(line.as_bytes());
        let _ = errors.flush();
    }
}

fn line_of(alloc: Global, now: u64, event: &OperatorEvent<'_>) -> Result<String, AllocError> {
    let (seconds, thousandths) = (now / 1000, now % 1000);
    format!(in alloc; "{seconds}.{thousandths:03} {event}\n")
}

/// A time in milliseconds, 0 where the clock can't be read.
pub(crate) fn milliseconds(time: io::Result<Duration>) -> u64 {
    match time {
        Ok(time) => {
            let parts = u64::from(time.subsec_millis());
            time.as_secs().saturating_mul(1000).saturating_add(parts)
        }
        Err(_) => 0,
    }
}
