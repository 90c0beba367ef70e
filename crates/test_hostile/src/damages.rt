//! A device with cells and two open slots that is damaged at random: by either pick it is refused or opened, and never written.
use crate::going_on::PICKS;
use crate::runs::{FIRST, NEVER, device_of, formatted, opened, run};
use crate::scripts::MILESTONES;
use crate::stops::device_after;
use disk::{Call, FaultPlan, Left};
use recovery::Pick;
use std::process::Abort;
use std::sync::Wait;

/// How many damages are drawn.
const DRAWN: u32 = 1_000;

/// Places at which much is read: the superblock, the cells of document 0, the slots and their records.
const PLACES: [usize; 12] = [0, 1, 9, 64, 69, 320, 325, 1_088, 1_097, 1_147, 1_344, 1_353];

/// The gates of both cells and of both slots.
const GATES: [usize; 4] = [64, 320, 1_088, 1_344];

/// Pseudo-random numbers: a linear congruential generator with Knuth's constants for 64 bits, whose highest bits are taken.
#[derive(Drop)]
struct Numbers {
    state: u64,
}

impl Numbers {
    // The next number, below a bound that isn't 0.
    fn below(&mut self, bound: usize) -> usize {
        self.state = self
            .state
            .wrapping_mul(6_364_136_223_846_793_005)
            .wrapping_add(1_442_695_040_888_963_407);
        (self.state >> 33) as usize % bound.max(1)
    }
}

// A device with milestones in both cells and both slots open: the script is stopped before its last two calls, which retire the first segment.
fn whole(rt: &(impl Wait + Abort + AllocGlobal)) -> Vec<u8> {
    let bytes = formatted(rt, 0xa5);
    let calls = device_after(rt, &MILESTONES, &bytes).disk().calls().len() as u64;
    let plan = FaultPlan::stop(calls.saturating_sub(2), Left::Nothing);
    let ended = run(
        rt,
        &MILESTONES,
        device_of(rt, &bytes, plan),
        Pick::Newer,
        FIRST,
    );
    let after = ended.disk.after_crash(rt.alloc()).expect(rt, "memory");
    for place in GATES {
        assert!(rt; after.bytes().get(place).copied() == Some(0xa5));
    }
    after.bytes().to_vec(rt.alloc()).expect(rt, "memory")
}

// Puts a byte at a place, where there is one.
fn put(bytes: &mut [u8], place: usize, byte: u8) {
    if let Some(there) = bytes.get_mut(place) {
        *there = byte;
    }
}

// Copies some of the bytes to another place.
fn move_some(bytes: &mut [u8], from: usize, to: usize, count: usize) {
    for offset in 0..count {
        if let Some(byte) = bytes.get(from.saturating_add(offset)).copied() {
            put(bytes, to.saturating_add(offset), byte);
        }
    }
}

// Changes a byte, moves some or cuts the end off.
fn damage(numbers: &mut Numbers, bytes: &mut Vec<u8>) {
    let chosen = PLACES[numbers.below(12) % 12].saturating_add(numbers.below(20));
    let any = numbers.below(bytes.len());
    match numbers.below(16) {
        0 => bytes.truncate(any),
        1..=4 => move_some(bytes, any, chosen, numbers.below(64)),
        5..=8 => put(bytes, any, numbers.below(256).to_le_bytes()[0]),
        9..=11 => put(bytes, chosen, 0xa5),
        _ => put(bytes, chosen, numbers.below(256).to_le_bytes()[0]),
    }
}

// What a device of these bytes is opened as by a pick. It stays as it is, and no call writes.
fn opened_as(rt: &(impl Abort + AllocGlobal), bytes: &[u8], pick: Pick) -> &'static str {
    let (disk, name) = match opened(rt, device_of(rt, bytes, NEVER), pick) {
        Ok(store) => (store.close(), "a state"),
        Err(fault) => (fault.disk, fault.refusal.name()),
    };
    for call in disk.disk().calls() {
        if matches!(call, Call::Write { .. }) {
            return "a write";
        }
    }
    if disk.disk().bytes() == bytes {
        name
    } else {
        "other bytes"
    }
}

#[test]
fn drawn_damages_are_refused_or_opened(rt: HostRuntime) {
    let whole = whole(&rt);
    let mut numbers = Numbers { state: 45 };
    let (mut states, mut damaged, mut closed) = (0_u32, 0_u32, 0_u32);
    for number in 0..DRAWN {
        let mut bytes = whole.to_vec(rt.alloc()).expect(&rt, "memory");
        for _ in 0..=numbers.below(3) {
            damage(&mut numbers, &mut bytes);
        }
        for pick in PICKS {
            match opened_as(&rt, &bytes, pick) {
                "a state" => states = states.saturating_add(1),
                "Damaged" => damaged = damaged.saturating_add(1),
                "NotFormatted" | "OldFormat" => closed = closed.saturating_add(1),
                other => panic!(&rt; "damage {number}, {pick:?}: {other}"),
            }
        }
    }
    assert!(rt;
        states > 100 && damaged > 100 && closed > 10,
        "{states} {damaged} {closed}"
    );
}
