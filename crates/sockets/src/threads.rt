//! A thread for each desk.
ghost use Rattle.std.specs.Prelude.{vec_len};
ghost use Rattle.sockets.specs.Begun.{HasAttended, IsBegun, AreBegun};
ghost use Rattle.sockets.specs.Room.{HasRoom};

use crate::begun::BegunWork;
use crate::connection::serve_peer;
use crate::guests::{Guest, Guests};
use crate::hall::Hall;
use crate::lobby::Lobby;
use session::Desk;
use std::alloc::Global;
use std::snapshot::Snapshot;
use std::sync::Wait;
use std::sync::ledger::Ledger;
use std::thread::{Promise, Scope};

/// A desk, and those whom it has served.
#[derive(Drop)]
pub struct Attendant<K, G: Ledger> {
    pub desk: K,
    pub guests: Guests<G>,
}

/// Promises what comes of this desk in this hall.
#[derive(Drop)]
pub struct ServedBy<K>(Snapshot<K>, Snapshot<Hall>);

impl<K: Desk, G: Ledger> Promise<Attendant<K, G>> for ServedBy<K> {
    ghost use Rattle.sockets.specs.Begun.{HasAttended};

    ghost kept_by = { λ by attendant. HasAttended K.does by.1.value.ended.id by.0.value attendant };
}

/// Gives each desk a thread, in which it serves one connection after another until the hall ends.
pub fn begin_all<'s, E, G: Ledger + Send + Sync, K: Desk + Send + Drop + 's, R: Wait + Sync>(
    scope: &Scope<'s, E>,
    rt: &'s R,
    alloc: Global,
    hall: &'s Hall,
    lobby: &'s Lobby<G>,
    desks: Vec<K>,
    begun: Vec<BegunWork<Attendant<K, G>, ServedBy<K>>>,
) -> Vec<BegunWork<Attendant<K, G>, ServedBy<K>>>
    requires { HasRoom (vec_len desks) begun }
    ensures { AreBegun K.does hall.now.ended.id desks.items result.items }
{
    let mut begun = begun;
    for desk in desks {
        let place = begun.len();
        let Ok(()) = begun.push(begin(scope, rt, alloc, hall, lobby, place, desk)) else {
            unreachable!()
        };
    }
    begun
}

// Gives a desk a thread. Its place among the desks is its own.
fn begin<'s, E, G: Ledger + Send + Sync, K: Desk + Send + Drop + 's, R: Wait + Sync>(
    scope: &Scope<'s, E>,
    rt: &'s R,
    alloc: Global,
    hall: &'s Hall,
    lobby: &'s Lobby<G>,
    place: usize,
    desk: K,
) -> BegunWork<Attendant<K, G>, ServedBy<K>>
    ensures { IsBegun K.does hall.now.ended.id desk result }
{
    let promise = ServedBy(Snapshot::of(&desk), Snapshot::of(hall));
    match scope.spawn_with(
        promise,
        move || serve_desk(rt, alloc, hall, lobby, place, desk),
    ) {
        Ok(thread) => {
            lobby.free_one(rt);
            BegunWork::InThread(thread)
        }
        Err(refused) => {
            hall.turn_away(place);
            BegunWork::WithoutThread((refused.value)())
        }
    }
}

// Serves one connection after another until the hall ends, or nobody where the desk has no thread.
fn serve_desk<G: Ledger, K: Desk + Drop, R: Wait>(
    rt: &R,
    alloc: Global,
    hall: &Hall,
    lobby: &Lobby<G>,
    place: usize,
    desk: K,
) -> Attendant<K, G>
    ensures { HasAttended K.does hall.now.ended.id desk result }
{
    let mut desk = desk;
    let mut guests = lobby.nobody(rt);
    if !hall.has_thread(place) {
        return Attendant { desk, guests };
    }
    'peers: for _ in rt.forever() {
        let Some(Guest { peer, part }) = lobby.next(rt) else {
            return Attendant { desk, guests };
        };
        let (parting, visit) = serve_peer(rt, alloc, hall, &mut desk, peer);
        guests.add(visit, part);
        lobby.leave(rt, &parting);
    }
    unreachable!()
}
