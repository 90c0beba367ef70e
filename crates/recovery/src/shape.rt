//! The numbers that a store is made with, and where its parts lie on the device.
ghost use Rattle.std.specs.Prelude.{◌≡◌, ◌+◌, ◌*◌, ◌<◌, ◌^◌, true};
ghost use Rattle.recovery.specs.Shape.{is_between, is_in_range, layout_length};
ghost use Rattle.recovery.specs.Found.{limits_of, limits_in};

use milestone::Format;
use revision::Limits;

/// How large a store is: how many parts its device has and of what size, and how much it may hold.
#[derive(Clone, Copy, Debug, PartialEq, Eq)]
pub struct Shape {
    /// Slots of the ring, 2 to 1,024.
    pub slots: u32,
    /// Bytes of a slot, 256 to 16,777,216.
    pub slot: u32,
    /// Documents, 1 to 65,536.
    pub docs: u32,
    /// Bytes of a cell, 256 to 16,777,216. A document has two.
    pub cell: u32,
    /// Sources of a document, 1 to 4,096.
    pub sources: u32,
    /// Revisions below the newest one that are held, 1 to 65,536.
    pub keep: u32,
}

impl Shape {
    /// The shape of a store that is made without other wishes: 35,651,648 bytes.
    pub const DEFAULT: Shape = Shape {
        slots: 8,
        slot: 262_144,
        docs: 64,
        cell: 262_144,
        sources: 256,
        keep: 4_096,
    };

    /// Whether each number is in its range.
    pub fn is_in_range(&self) -> bool
        ensures { result ≡ is_in_range self.now }
    {
        is_between(2, 1_024, self.slots)
            && is_between(256, 16_777_216, self.slot)
            && is_between(1, 65_536, self.docs)
            && is_between(256, 16_777_216, self.cell)
            && is_between(1, 4_096, self.sources)
            && is_between(1, 65_536, self.keep)
    }

    /// How many bytes the layout has. A device may be longer.
    pub fn device_len(&self) -> u64
        requires { is_in_range self.now ≡ true }
        ensures len { result ≡ layout_length self.now }
        ensures bound { result < 2 ^ 44 }
    {
        64 + 2 * u64::from(self.docs) * u64::from(self.cell)
            + u64::from(self.slots) * u64::from(self.slot)
    }

    /// How much a store of this shape may hold: the weight of a document is 128 below a cell's bytes, the width of an
    /// entry 19 below a slot's.
    pub fn limits(&self) -> Limits
        requires { is_in_range self.now ≡ true }
        ensures { result ≡ limits_of self.now }
    {
        self.limits_in(Format::Two)
    }

    /// The same of a store whose device has this format: in the first one a further number of a source weighs nothing.
    pub fn limits_in(&self, format: Format) -> Limits
        requires { is_in_range self.now ≡ true }
        ensures { result ≡ limits_in format self.now }
    {
        let (docs, sources) = (self.docs, self.sources);
        let (weight, width) = (self.cell - 128, self.slot - 19);
        match format {
            Format::One => Limits::without_retries(docs, sources, weight, width, self.keep),
            Format::Two => Limits::new(docs, sources, weight, width, self.keep),
        }
    }
}

fn is_between(low: u32, high: u32, n: u32) -> bool
    ensures { result ≡ is_between low high n }
{
    low <= n && n <= high
}
