//! Desks over a listener.
ghost use Rattle.std.specs.Prelude.{◌≡◌, ◌+◌, ◌≤◌, [], true, map, length, IfOk, IfErr, vec_len};
ghost use Rattle.sockets.specs.Attendance.{count_all, lists_of, turned_away_of, visits_of, IsAttended};
ghost use Rattle.sockets.specs.Host.{are_unasked};
ghost use Rattle.sockets.specs.Begun.{HaveAttended};
ghost use Rattle.sockets.specs.Door.{accounted_for, taken_in};
ghost use Rattle.sockets.specs.Hall.{IsGuestbookOf};
ghost use Rattle.sockets.specs.Room.{HasRoom};
ghost use Rattle.sockets.specs.Desks.{HaveServed, HaveServedInHall};
ghost use Rattle.sockets.specs.Socket.{came, HasFailedSince};

use crate::accepting::accept_all;
use crate::attendance::{Attendance, Attended};
use crate::begun::{BegunWork, end_all};
use crate::door::Door;
use crate::guests::Guests;
use crate::hall::{Guestbook, Hall};
use crate::lobby::Lobby;
use crate::raw::{Listen, Visits};
use crate::threads::{Attendant, ServedBy, begin_all};
use crate::watch::ListenerWatch;
use session::Desk;
use std::alloc::{AllocError, AllocFailed, Global};
use std::marker::Brand;
use std::sync::Wait;
use std::sync::ledger::{Blank, Ledger};
use std::thread::{self, Threads};
use std::time::Clock;

/// Serves those who connect until the listener can't work any more, and gives the desks back when each session has ended, with the visits of
/// each. Each desk has a thread of its own, which serves one connection after another by it; where none is free a connection is closed
/// without a byte. The watch is told how many desks got a thread before anybody is taken: where none did, nobody is. It is asked whether to
/// go on each time that the listener took a connection or failed: where it answers not, then or before, those who have come are closed. A
/// peer that says no `hello`, or sends no line and follows no document, for `idle` seconds, is closed; 0 lets each be. Out of memory it is
/// refused before that.
pub fn serve_desks<
    K: Desk + Send + Drop,
    R: Threads + Wait + Clock + Sync,
    N: Listen,
    W: ListenerWatch,
>(
    rt: &R,
    alloc: Global,
    desks: Vec<K>,
    listener: N,
    idle: u32,
    watch: &W,
) -> Result<Attended<K, N>, AllocFailed<(Vec<K>, N)>>
    // The desks come back in their order, each asked for what the conversations of its visits ask, one after another.
    ensures served { IfOk result (λ after. HaveServedInHall K.does desks.items (visits_of after.attendance) after.desks.items) }
    ensures attended { IfOk result (λ after. IsAttended (N.arrivals listener) (N.arrivals after.listener) after.attendance) }
    ensures refused { IfErr result (λ failed. failed.value ≡ (desks, listener)) }
{
    let blank = Blank::new(u64::MAX);
    serve_counted::<Brand, K, R, N, W>(rt, alloc, blank, desks, listener, idle, watch)
}

// Serves those who connect, each of whom has a part of this ledger.
fn serve_counted<
    G: Ledger + Send + Sync,
    K: Desk + Send + Drop,
    R: Threads + Wait + Clock + Sync,
    N: Listen,
    W: ListenerWatch,
>(
    rt: &R,
    alloc: Global,
    blank: Blank,
    desks: Vec<K>,
    listener: N,
    idle: u32,
    watch: &W,
) -> Result<Attended<K, N>, AllocFailed<(Vec<K>, N)>>
    requires name { blank.name ≡ G.name }
    requires parts { blank.parts ≡ G.parts }
    requires all { blank.parts ≡ 18446744073709551615 }
    ensures served { IfOk result (λ after. HaveServedInHall K.does desks.items (visits_of after.attendance) after.desks.items) }
    ensures attended { IfOk result (λ after. IsAttended (N.arrivals listener) (N.arrivals after.listener) after.attendance) }
    ensures refused { IfErr result (λ failed. failed.value ≡ (desks, listener)) }
{
    let (door, nobody) = Door::<G>::new(blank);
    match Room::new(alloc, desks.len(), idle, nobody) {
        Ok(room) => {
            let Room {
                hall,
                guestbook,
                lobby,
                begun,
                attendants,
                seats,
            } = room;
            let held = serve_in(
                rt, alloc, &hall, &guestbook, &lobby, door, desks, listener, begun, attendants,
                watch,
            );
            Ok(end(held, lobby, seats))
        }
        Err(AllocError) => Err(AllocFailed {
            value: (desks, listener),
        }),
    }
}

/// All the memory that serving takes beside that of its sessions.
struct Room<K: Desk + Drop, G: Ledger> {
    hall: Hall,
    guestbook: Guestbook<G>,
    lobby: Lobby<G>,
    begun: Vec<BegunWork<Attendant<K, G>, ServedBy<K>>>,
    attendants: Vec<Attendant<K, G>>,
    seats: Seats<K>,
}

/// Room for the desks and their visits, apart from each other.
#[derive(Drop)]
struct Seats<K> {
    desks: Vec<K>,
    visits: Vec<Visits>,
}

impl<K: Desk + Drop, G: Ledger> Room<K, G> {
    // Room for so many desks, whose peers may be idle for so many seconds.
    fn new(
        alloc: Global,
        desks: usize,
        idle: u32,
        nobody: Guests<G>,
    ) -> Result<Room<K, G>, AllocError>
        requires { nobody.visits.list ≡ [] }
        ensures of { IfOk result (λ room. IsGuestbookOf room.hall room.guestbook) }
        ensures room { IfOk result (λ room. HasRoom desks room.begun × HasRoom desks room.attendants) }
        ensures seats { IfOk result (λ room. HasRoom desks room.seats.desks × HasRoom desks room.seats.visits) }
    {
        let (hall, guestbook) = Hall::new(idle);
        Ok(Room {
            hall,
            guestbook,
            lobby: Lobby::new(alloc, desks, nobody)?,
            begun: Vec::with_capacity(alloc, desks)?,
            attendants: Vec::with_capacity(alloc, desks)?,
            seats: Seats {
                desks: Vec::with_capacity(alloc, desks)?,
                visits: Vec::with_capacity(alloc, desks)?,
            },
        })
    }
}

/// What is left when each session has ended: the desks with those whom they served, the listener, the count of those who came, and whether the
/// newest call of the listener failed.
#[derive(Drop)]
struct Leavings<K, N, G: Ledger> {
    attendants: Vec<Attendant<K, G>>,
    listener: N,
    door: Door<G>,
    has_failed: bool,
}

// A thread for each desk, and the loop that takes connections.
fn serve_in<
    G: Ledger + Send + Sync,
    K: Desk + Send + Drop,
    R: Threads + Wait + Clock + Sync,
    N: Listen,
    W: ListenerWatch,
>(
    rt: &R,
    alloc: Global,
    hall: &Hall,
    guestbook: &Guestbook<G>,
    lobby: &Lobby<G>,
    door: Door<G>,
    desks: Vec<K>,
    listener: N,
    begun: Vec<BegunWork<Attendant<K, G>, ServedBy<K>>>,
    attendants: Vec<Attendant<K, G>>,
    watch: &W,
) -> Leavings<K, N, G>
    requires room { HasRoom (vec_len desks) begun × HasRoom (vec_len desks) attendants }
    requires of { IsGuestbookOf hall.now guestbook.now }
    requires none { taken_in door ≡ 0 }
    ensures attended { HaveAttended K.does hall.now.ended.id desks.items result.attendants.items }
    ensures counted { came (N.arrivals result.listener) + taken_in door ≡ came (N.arrivals listener) + taken_in result.door }
    ensures accounted { accounted_for result.door ≡ accounted_for door }
    ensures failed { result.has_failed ≡ true → HasFailedSince (N.arrivals listener) (N.arrivals result.listener) }
{
    thread::scope(
        thread::scope_env(),
        rt,
        |scope| -> Leavings<K, N, G>
            requires room { HasRoom (vec_len desks) begun × HasRoom (vec_len desks) attendants }
            requires of { IsGuestbookOf hall.now guestbook.now }
            requires none { taken_in door ≡ 0 }
            ensures attended { HaveAttended K.does hall.entry.now.ended.id desks.items result.attendants.items }
            ensures counted { came (N.arrivals result.listener) + taken_in door ≡ came (N.arrivals listener) + taken_in result.door }
            ensures accounted { accounted_for result.door ≡ accounted_for door }
            ensures failed { result.has_failed ≡ true → HasFailedSince (N.arrivals listener) (N.arrivals result.listener) }
        {
            let mut listener = listener;
            let mut door = door;
            let begun = begin_all(scope, rt, alloc, hall, lobby, desks, begun);
            let has_failed = accept_all(rt, lobby, &mut door, &mut listener, watch);
            hall.end(rt, guestbook, &door);
            lobby.close(rt);
            Leavings {
                attendants: end_all(rt, begun, attendants),
                listener,
                door,
                has_failed,
            }
        },
    )
}

// Parts the desks from their visits, and counts these.
fn end<G: Ledger, K: Desk + Drop, N: Listen>(
    held: Leavings<K, N, G>,
    lobby: Lobby<G>,
    seats: Seats<K>,
) -> Attended<K, N>
    requires all { G.parts ≡ 18446744073709551615 }
    requires none { accounted_for held.door ≡ 0 }
    requires room { HasRoom (vec_len held.attendants) seats.desks × HasRoom (vec_len held.attendants) seats.visits }
    ensures desks { result.desks.items ≡ map (λ one. one.desk) held.attendants.items }
    ensures visits { visits_of result.attendance ≡ map (λ one. one.guests.visits.list) held.attendants.items }
    ensures listener { result.listener ≡ held.listener }
    ensures unasked { are_unasked (turned_away_of result.attendance) ≡ true }
    ensures all { result.attendance.is_complete ≡ true
        → (held.has_failed ≡ true) × (count_all (visits_of result.attendance) + length (turned_away_of result.attendance) ≡ taken_in held.door) }
{
    let Leavings {
        attendants,
        listener,
        door,
        has_failed,
    } = held;
    let mut door = door;
    let Seats { desks, visits } = part_all(&mut door, attendants, seats);
    let turned_away = door.account_for(lobby.into_away());
    let is_complete = door.is_whole() && has_failed;
    Attended {
        desks,
        listener,
        attendance: Attendance::new(visits, turned_away, is_complete),
    }
}

// Parts each desk from its visits, which are accounted for.
fn part_all<G: Ledger, K: Drop>(
    door: &mut Door<G>,
    attendants: Vec<Attendant<K, G>>,
    seats: Seats<K>,
) -> Seats<K>
    requires room { HasRoom (vec_len attendants) seats.desks × HasRoom (vec_len attendants) seats.visits }
    ensures desks { result.desks.items ≡ map (λ one. one.desk) attendants.items }
    ensures visits { lists_of result.visits.items ≡ map (λ one. one.guests.visits.list) attendants.items }
    ensures taken { taken_in door.new ≡ taken_in door.old }
    ensures accounted { accounted_for door.new ≡ accounted_for door.old + count_all (lists_of result.visits.items) }
{
    let mut seats = seats;
    for attendant in attendants {
        let Attendant { desk, guests } = attendant;
        let Ok(()) = seats.desks.push(desk) else {
            unreachable!()
        };
        let Ok(()) = seats.visits.push(door.account_for(guests)) else {
            unreachable!()
        };
    }
    seats
}
