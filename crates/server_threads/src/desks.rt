//! Seats and desks: before sessions are held at them, and after.
ghost use Rattle.std.specs.Prelude.{◌≡◌, ◌≤◌, ◌+◌, [], All, length, sum_by, IfOk};
ghost use mathlib.Core.List.{IsPrefix};
ghost use Rattle.flusher.specs.Holding.{told_of};
ghost use Rattle.server_threads.specs.Answers.{first_desk};

use disk::Disk;
use flusher::Flusher;
use hub::{Board, Closer, Hub, Seat, Tally};
use hub_desk::{Counters, HubDesk};
use published::{Life, Ordered, Told};
use std::alloc::{AllocError, Global};
use std::sync::Wait;

/// All seats that a board has to give, which are so many.
pub(crate) fn seats_of<L: Life, D>(
    alloc: Global,
    board: &mut Board<D, L>,
    count: u32,
) -> Result<Vec<Seat<L>>, AllocError>
    requires left { board.old.left ≡ count }
    ensures new { IfOk result (λ seats. All (λ seat. seat ≡ 0) seats.items) }
    ensures all { IfOk result (λ seats. length seats.items ≡ count) }
    ensures board { board.new.progress ≡ board.old.progress }
{
    let mut seats = Vec::new(alloc);
    for i in 0..count {
        let Ok(seat) = board.seat() else {
            unreachable!()
        };
        seats.push(seat)?;
    }
    Ok(seats)
}

/// A desk for each seat for which there is a viewer, with these counters, and the others tallied. Refused where there is no memory, or no viewer at all.
pub(crate) fn desks_at<'a, L: Life, R: Wait, D: Disk + Drop>(
    rt: &'a R,
    alloc: Global,
    flusher: &Flusher<D, L>,
    hub: &'a Hub<D, L>,
    counters: Option<&'a Counters>,
    seats: Vec<Seat<L>>,
    tally: &mut Tally<L>,
) -> Result<Vec<HubDesk<'a, D, L, R>>, AllocError>
    requires told { told_of flusher.now ≡ [] }
    requires new { All (λ seat. seat ≡ 0) seats.items }
    ensures some { IfOk result (λ desks. 1 ≤ length desks.items) }
    ensures first { IfOk result (λ desks. All (λ desk. desk ≡ first_desk) desks.items) }
    ensures all { IfOk result (λ desks. length desks.items + tally.new.seats ≡ length seats.items + tally.old.seats) }
    ensures none { IfOk result (λ desks. tally.new.counted ≡ tally.old.counted) }
{
    let mut desks = Vec::new(alloc);
    for seat in seats {
        match flusher.viewer() {
            Some(viewer) => desks.push(HubDesk::new(rt, hub, seat, viewer, counters))?,
            None => tally.add(seat),
        }
    }
    if desks.is_empty() {
        return Err(AllocError);
    }
    Ok(desks)
}

/// Tallies the seats of desks that are used no longer: what each was told of is a prefix of what the one token has after it, and what it found of
/// what the other one has. It takes no memory.
fn tally_desks<L: Life, R: Wait, D>(
    desks: Vec<HubDesk<'_, D, L, R>>,
    tally: &mut Tally<L>,
    told: &mut Told<D, L>,
    ordered: &mut Ordered<L>,
)
    ensures seats { tally.new.seats ≡ tally.old.seats + length desks.entry.items }
    ensures counted { tally.new.counted ≡ tally.old.counted + sum_by (λ desk. desk.counted) desks.entry.items }
    ensures told { All (λ desk. IsPrefix desk.told told.new) desks.entry.items }
    ensures found { All (λ desk. IsPrefix desk.found ordered.new) desks.entry.items }
{
    for desk in desks {
        desk.join(ordered);
        let (seat, viewer) = desk.into_parts();
        told.learn(&viewer.told());
        tally.add(seat);
    }
}

/// The desks of a hub at which sessions can be held, and what closes it behind them.
#[derive(Drop)]
pub(crate) struct Desks<'a, D, L: Life, R> {
    pub(crate) hub: &'a Hub<D, L>,
    pub(crate) desks: Vec<HubDesk<'a, D, L, R>>,
    pub(crate) closing: Closing<D, L>,
}

/// What ends a hub: the right to, and the tally of the seats. Beside it a token of what is published and one of the order, in which desks that are
/// tallied have all that they were told of and found.
#[derive(Drop)]
pub(crate) struct Closing<D, L: Life> {
    pub(crate) closer: Closer<L>,
    pub(crate) tally: Tally<L>,
    pub(crate) told: Told<D, L>,
    pub(crate) ordered: Ordered<L>,
}

impl<D, L: Life> Closing<D, L> {
    ghost use Rattle.std.specs.Prelude.{◌≡◌, ◌+◌, length};
    ghost use Rattle.server_threads.specs.Held.{AreTallied};

    /// Tallies the seats of all desks that there are, and then ends the hub. It takes no memory.
    pub(crate) fn close<R: Wait>(
        &mut self,
        rt: &R,
        hub: &Hub<D, L>,
        desks: Vec<HubDesk<'_, D, L, R>>,
    )
        requires all { self.old.tally.seats + length desks.items + 1 ≡ L.parts }
        requires none { self.old.tally.counted ≡ 0 }
        ensures all { self.new.tally.seats + 1 ≡ L.parts }
        ensures tallied { AreTallied desks.entry.items self.new.told self.new.ordered self.new.tally.counted }
    {
        tally_desks(desks, &mut self.tally, &mut self.told, &mut self.ordered);
        hub.end(rt, &mut self.closer, &self.tally);
    }
}
