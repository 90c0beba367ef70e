//! Who waits for what, and at which turn.
ghost use Rattle.std.specs.Prelude.{◌≡◌, ◌<◌, ◌≤◌, ◌+◌, ◌%◌, ℕ, true, false, replicate, min, max, set, nat_le, if◌then◌else◌};
ghost use Rattle.hub.specs.Waiting.{AreWoken, NobodyIsForgotten, WaitsRightly, WakesAll, nobody, and_for, rest_of, turned};

use crate::seat::PLACES;
use std::marker::Model;

/// How many turns there are, which batches have one after another.
pub(crate) const TURNS: usize = 8;

// How many commands those who wait at a place wait for, at least and at most: the greatest number and none where nobody does.
#[derive(Drop, Clone, Copy)]
pub(crate) struct Awaited {
    least: usize,
    most: usize,
}

impl Awaited {
    // nobody waits
    pub(crate) fn nobody() -> Awaited
        ensures { result ≡ nobody }
    {
        Awaited {
            least: usize::MAX,
            most: 0,
        }
    }

    // and somebody waits for so many
    pub(crate) fn and_for(self, length: usize) -> Awaited
        ensures { result ≡ and_for self length }
    {
        Awaited {
            least: self.least.min(length),
            most: self.most.max(length),
        }
    }

    // what isn't settled of it, once so many are
    fn rest(self, settled: usize) -> Awaited
        ensures { result ≡ rest_of settled self }
    {
        if self.most <= settled {
            Awaited::nobody()
        } else {
            Awaited {
                least: settled + 1,
                most: self.most,
            }
        }
    }
}

// Which turn batches have. A batch has the turn of the commands in it: those that were left have it still, and those that come behind the
// whole order the next one.
#[derive(Drop)]
pub(crate) struct Turns {
    next: usize,
    writing: usize,
    alone: bool,
}

impl Model for Turns {
    ghost use Rattle.std.specs.Prelude.{◌<◌};
    ghost use Rattle.hub.specs.Waiting as spec;

    ghost Value = { spec.Turns };

    ghost view = { λ t. record { next = t.next; writing = t.writing; alone = t.alone } };

    ghost invariant = { λ t. (t.next < 8) × (t.writing < 8) };
}

impl Turns {
    // nothing was taken off yet
    pub(crate) fn new() -> Turns
        ensures { result ≡ record { next = 0; writing = 0; alone = true } }
    {
        Turns {
            next: 0,
            writing: 0,
            alone: true,
        }
    }

    // the turn at which somebody waits for so many commands, where so many are taken off
    pub(crate) fn of(&self, length: usize, taken: usize) -> usize
        ensures rightly { (settled : ℕ) → WaitsRightly self.now settled taken result length }
        ensures range { result < 8 }
    {
        if length <= taken {
            self.writing
        } else {
            self.next
        }
    }

    // notes that a batch was taken off, while others are being written or not, and with commands left behind it or not
    pub(crate) fn take(&mut self, busy: bool, rest: bool)
        ensures { self.new ≡ turned self.old busy rest }
    {
        self.writing = self.next;
        self.alone = !busy;
        if !rest {
            self.next = (self.next + 1) % TURNS;
        }
    }

    // which turns are woken when a batch is settled: its own, and all of them where it isn't the only one that is being written
    pub(crate) fn woken(&self) -> [bool; 8]
        ensures { WakesAll self.now result }
    {
        let mut woken = [!self.alone; 8];
        woken[self.writing] = true;
        woken
    }
}

// The places that are told when a batch is settled, and the turns that are woken.
#[derive(Drop)]
pub(crate) struct Woken {
    pub(crate) places: [bool; 64],
    pub(crate) turns: [bool; 8],
}

// The places where the least that is awaited is settled. It notes what isn't settled of that.
pub(crate) fn covered(awaited: &mut [Awaited; 64], settled: usize) -> [bool; 64]
    ensures woken { AreWoken settled awaited.old awaited.new result }
    ensures nobody { NobodyIsForgotten settled awaited.old awaited.new result }
{
    let mut told = [false; 64];
    for i in 0..PLACES {
        if awaited[i].least <= settled {
            awaited[i] = awaited[i].rest(settled);
            told[i] = true;
        }
    }
    told
}
