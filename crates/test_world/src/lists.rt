//! All lists of five events of a small alphabet, from an empty store and from one whose first batch is written. The law holds after
//! each event. How many lists end with an acknowledgement, and with that of a retry, was counted by another program.
use std::alloc::{AllocError, Global};
use std::test::Fail;
use world::{Follower, Happening, Place, Waiting};

const LETTERS: u64 = 14;

// how many lists of five there are
const LISTS: u64 = 14 * 14 * 14 * 14 * 14;

const WRITTEN: [Happening; 3] = [
    Happening::Submit(1, Some(1)),
    Happening::Take(1),
    Happening::Device(true),
];

// The rule takes the source's next number, as the next revision.
fn taken_as(follower: &Follower, number: u64) -> Option<u64> {
    if follower.order().len() as u64 == number.saturating_sub(1) {
        Some(number)
    } else {
        None
    }
}

fn event(follower: &Follower, letter: u64) -> Happening {
    match letter {
        0 => Happening::Submit(1, taken_as(follower, 1)),
        1 => Happening::Submit(2, taken_as(follower, 2)),
        2 => Happening::Take(1),
        3 => Happening::Device(true),
        4 => Happening::Device(false),
        5 => Happening::Publish,
        6 => Happening::Settle,
        7 => Happening::Ack(0),
        8 => Happening::Ack(1),
        9 => Happening::Crash(0),
        10 => Happening::Crash(1),
        11 => Happening::Open(0, true),
        12 => Happening::Open(1, true),
        _ => Happening::Resend(1, taken_as(follower, 1)),
    }
}

// what this acknowledgement names is in what any crash leaves
fn stays(order: &[Place], ack: &Waiting, left: usize) -> bool {
    if ack.length > left as u64 || left > order.len() {
        return false;
    }
    let named = Place {
        number: ack.number,
        revision: ack.revision,
    };
    order[..left].contains(&named)
}

// each number has one place, and one revision: here both are the place's
fn is_once(order: &[Place]) -> bool {
    let mut next = 1;
    for place in order {
        if place.number != next || place.revision != next {
            return false;
        }
        next = next.wrapping_add(1);
    }
    true
}

// the three parts of the law
fn holds(follower: &Follower) -> bool {
    let (without, with_batch) = follower.left();
    let left = without.min(with_batch) as usize;
    for ack in follower.acks() {
        if !stays(follower.order(), ack, left) || ack.revision != ack.number {
            return false;
        }
    }
    is_once(follower.order())
}

fn any_again(acks: &[Waiting]) -> bool {
    for ack in acks {
        if ack.again {
            return true;
        }
    }
    false
}

// runs the list of this number after `beginning`; says whether the law held after each event
fn run(alloc: Global, beginning: &[Happening], list: u64) -> Result<(Follower, bool), AllocError> {
    let mut follower = Follower::new(alloc);
    for event in beginning {
        follower.step(*event)?;
    }
    let mut held = true;
    let mut rest = list;
    for _ in 0..5 {
        let next = event(&follower, rest % LETTERS);
        follower.step(next)?;
        held = held && holds(&follower);
        rest /= LETTERS;
    }
    Ok((follower, held))
}

// how many lists hold, end with an acknowledgement, and with that of a retry
fn count(alloc: Global, beginning: &[Happening]) -> Result<(u64, u64, u64), AllocError> {
    let mut counts: (u64, u64, u64) = (0, 0, 0);
    for list in 0..LISTS {
        let (follower, held) = run(alloc, beginning, list)?;
        counts.0 = counts.0.wrapping_add(u64::from(held));
        counts.1 = counts
            .1
            .wrapping_add(u64::from(!follower.acks().is_empty()));
        counts.2 = counts.2.wrapping_add(u64::from(any_again(follower.acks())));
    }
    Ok(counts)
}

#[test]
fn the_law_holds_from_an_empty_store(rt: HostRuntime) -> Result<(), Fail> {
    assert!(rt; count(rt.alloc(), &[])? == (537_824, 0, 0));
    Ok(())
}

#[test]
fn the_law_holds_after_a_batch_is_written(rt: HostRuntime) -> Result<(), Fail> {
    assert!(rt; count(rt.alloc(), &WRITTEN)? == (537_824, 2_016, 466));
    Ok(())
}
