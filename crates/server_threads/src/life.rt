//! The life of a server: how it begins, and how it ends.
ghost use Rattle.std.proofs.Props.{props};
ghost use Rattle.std.specs.Prelude.{◌≡◌, ◌+◌, IfOk, IfSome, IfErr, OnOk, List};
ghost use Rattle.flusher.specs.Holding.{store_of};
ghost use Rattle.turns.specs.Counting.{IsAt, IsAllPublished};
ghost use Rattle.turns.specs.Writing.{told_count};
ghost use Rattle.hub_desk.specs.AtHub.{Desk};
ghost use Rattle.server_threads.specs.Held.{AreSeated, AreTallied, IsCounted, IsKept, IsNamed, IsNewServer, IsTallied};
ghost use Rattle.server_threads.specs.Served.{IsStarted};

use crate::beside::Both;
use crate::desks::{Closing, Desks, desks_at, seats_of};
use crate::watch::Watch;
use crate::writing::CommonParts;
use disk::Disk;
use flusher::{Flusher, StartError, start};
use hub::{Closer, Found, Hub, Seat, Tally, Writer};
use published::{Life, Opened, Ordered};
use recovery::Store;
use refusal::Refusal;
use std::alloc::Global;
use std::snapshot::Snapshot;
use std::sync::Wait;
use std::sync::ledger::Blank;

/// What names a life: its empty logs, and the blank ledger of its seats.
pub(crate) struct Named {
    pub(crate) opened: Opened,
    pub(crate) blank: Blank,
}

impl Named {
    /// The name of a life with so many seats to give. `None` where there is no room for its logs.
    pub(crate) fn new(count: u32) -> Option<Named>
        ensures { IfSome result (λ named. named.blank.parts ≡ count + 1) }
    {
        let opened = Opened::new()?;
        let blank = Blank::new(u64::from(count) + 1);
        Some(Named { opened, blank })
    }
}

/// What a server has beside its hub before it serves anybody: its store, the rights to write what the hub orders and to end it, and all seats
/// that there are to give, with their tally.
pub(crate) struct Server<D: Disk, L: Life> {
    pub(crate) held: Snapshot<Store<D>>,
    pub(crate) flusher: Flusher<D, L>,
    pub(crate) writer: Writer<L>,
    pub(crate) closer: Closer<L>,
    pub(crate) seats: Vec<Seat<L>>,
    pub(crate) tally: Tally<L>,
    ghost at: { IsAt writer flusher },
}

impl<D: Disk, L: Life> Server<D, L> {
    ghost use Rattle.std.specs.Prelude.{◌≡◌};

    /// The flusher, where nobody is served.
    pub(crate) fn into_flusher(self) -> Flusher<D, L>
        ensures { result ≡ self.flusher }
    {
        let Server {
            held: _,
            flusher,
            writer: _writer,
            closer: _closer,
            seats: _seats,
            tally: _tally,
        } = self;
        flusher
    }
}

/// The rights to a hub, by which it gives its board back.
#[derive(Drop)]
pub(crate) struct Rights<L: Life> {
    pub(crate) writer: Writer<L>,
    pub(crate) closer: Closer<L>,
}

/// Begins a server of so many seats over a store. Refused out of memory alone; the store is unchanged then.
#[tactic(auto, using(turns::proofs::CallerLemmas::at_begun))]
pub(crate) fn begin<L: Life, R: Wait, D: Disk + Drop>(
    rt: &R,
    alloc: Global,
    store: Store<D>,
    named: Named,
    count: u32,
) -> Result<(Hub<D, L>, Server<D, L>), Store<D>>
    requires named { IsNamed L.book L.name L.parts L.start named.opened named.blank.name named.blank.parts store }
    requires count { L.parts ≡ count + 1 }
    ensures ready { IfOk result (λ begun. IsNewServer L.parts begun.1.held.value begun.1.flusher begun.1.seats.items begun.1.tally) }
    ensures store { IfOk result (λ begun. store_of begun.1.flusher ≡ store) }
    ensures refused { IfErr result (λ back. back ≡ store) }
{
    let Named { opened, blank } = named;
    let held = Snapshot::of(&store);
    let (flusher, board) = match start::<D, L>(alloc, store, opened, blank, count) {
        Ok(started) => started,
        Err(StartError { store, refusal: _ }) => return Err(store),
    };
    let mut board = board;
    let tally = board.tally();
    let seats = match seats_of(alloc, &mut board, count) {
        Ok(seats) => seats,
        Err(_) => return Err(flusher.end(rt)),
    };
    let (hub, writer, closer) = Hub::new(board);
    let server = Server {
        held,
        flusher,
        writer,
        closer,
        seats,
        tally,
    };
    Ok((hub, server))
}

/// A server that sessions can be held at, but for its desks.
pub(crate) struct Ready<D: Disk, L: Life> {
    pub(crate) held: Snapshot<Store<D>>,
    pub(crate) flusher: Flusher<D, L>,
    pub(crate) writer: Writer<L>,
    ghost at: { IsAt writer flusher },
}

/// Makes a server's desks, and tallies the seats that have none. Refused where there is no memory, or no viewer at all; the flusher is unchanged
/// then.
pub(crate) fn make_ready<'a, L: Life, R: Wait, D: Disk + Drop, W: Watch<D>>(
    shared: &CommonParts<'a, D, L, R, W>,
    server: Server<D, L>,
) -> Result<(Ready<D, L>, Desks<'a, D, L, R>), Flusher<D, L>>
    requires ready { IsNewServer L.parts server.held.value server.flusher server.seats.items server.tally }
    ensures flusher { IfOk result (λ both. both.0.flusher ≡ server.flusher) }
    ensures held { IfOk result (λ both. both.0.held.value ≡ store_of both.0.flusher) }
    ensures started { IfOk result (λ both. IsStarted both.0.flusher) }
    ensures kept { IfOk result (λ both. IsKept L.start both.0.flusher) }
    ensures seated { IfOk result (λ both. AreSeated L.parts both.1.desks.items both.1.closing.tally) }
    ensures refused { IfErr result (λ back. back ≡ server.flusher) }
{
    let Server {
        held,
        flusher,
        writer,
        closer,
        seats,
        tally,
    } = server;
    let mut tally = tally;
    let counters = shared.watch.counters();
    let Ok(desks) = desks_at(
        shared.rt,
        shared.alloc,
        &flusher,
        shared.hub,
        counters,
        seats,
        &mut tally,
    ) else {
        return Err(flusher);
    };
    flusher.kept();
    let closing = Closing {
        closer,
        tally,
        told: flusher.told().copy(),
        ordered: flusher.ordered(),
    };
    let ready = Ready {
        held,
        flusher,
        writer,
    };
    let seated = Desks {
        hub: shared.hub,
        desks,
        closing,
    };
    Ok((ready, seated))
}

/// What is left where all sessions have ended: the flusher and how its writing ended, the rights to the hub, a token of the order, and the tally
/// of the seats. The writing ended well only where all of the order is published.
pub(crate) struct Ending<D: Disk, L: Life> {
    pub(crate) flusher: Flusher<D, L>,
    pub(crate) written: Result<(), Refusal>,
    pub(crate) rights: Rights<L>,
    pub(crate) ordered: Ordered<L>,
    pub(crate) tally: Tally<L>,
    ghost all: { OnOk written (IsAllPublished rights.writer flusher) } by { Prim.hlevel props },
}

/// What is left where the sessions' desks are tallied and the writing has ended, with what the sessions answered. Each desk was told of no more than
/// is committed, and one token of the order has what they found and what was written. It takes no memory.
pub(crate) fn ending_of<A, L: Life, R: Wait, D: Disk, W>(
    shared: &CommonParts<'_, D, L, R, W>,
    both: Both<A, Closing<D, L>, D, L>,
) -> (Ending<D, L>, A)
    ensures tallied { (desks : List Desk) → AreTallied desks both.left.1.told both.left.1.ordered both.left.1.tally.counted
        → IsTallied L.start desks both.flusher result.0.ordered (told_count result.0.flusher) result.0.tally.counted (store_of result.0.flusher) }
    ensures written { result.0.written ≡ both.written }
    ensures seats { result.0.tally ≡ both.left.1.tally }
    ensures answer { result.1 ≡ both.left.0 }
{
    let Both {
        flusher,
        written,
        writer,
        left,
    } = both;
    let (answer, closing) = left;
    let Closing {
        closer,
        tally,
        told,
        ordered: found,
    } = closing;
    let mut flusher = flusher;
    flusher.kept();
    flusher.lasts();
    flusher.few();
    let mut ordered = flusher.ordered();
    let found = Found::of(found);
    shared.hub.join(shared.rt, &found, &mut ordered);
    flusher.covers(&told);
    let past = Ending {
        flusher,
        written,
        rights: Rights { writer, closer },
        ordered,
        tally,
    };
    (past, answer)
}

/// Ends a server all of whose seats are tallied, and gives the store back. Where the writing ended well all of the order is published.
pub(crate) fn end<L: Life, R: Wait, D: Disk + Drop>(
    rt: &R,
    hub: Hub<D, L>,
    past: Ending<D, L>,
) -> Store<D>
    requires seats { past.tally.seats + 1 ≡ L.parts }
    ensures store { result ≡ store_of past.flusher }
    ensures counted { IsCounted L.start past.ordered (told_count past.flusher) past.tally.counted past.written }
{
    let Ending {
        flusher,
        written: _,
        rights,
        ordered,
        tally,
    } = past;
    let board = hub.into_board(rights.writer, rights.closer);
    let _ordered = board.end(tally, &ordered);
    flusher.end(rt)
}
