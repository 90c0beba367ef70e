//! Generated deltas.
ghost use Rattle.std.specs.Prelude.{◌<◌};

use attributes::{Attrs, Change, Key, Value};
use delta::{Builder, Delta, Op};
use refusal::Refusal;
use std::alloc::Global;

/// Of one code unit each, of two, and of both.
const TEXTS: [&str; 8] = ["a", "bcd", "é", "\n", "😀", "x😀y", "😀😁", "𝄞z"];

const NAMES: [&str; 3] = ["bold", "color", "link"];

/// Pseudo-random numbers: a linear congruential generator with Knuth's constants for 64 bits, where the upper bits are
/// taken.
#[derive(Drop)]
pub struct Numbers {
    pub state: u64,
}

impl Numbers {
    /// The next number, below a bound.
    pub fn below(&mut self, bound: u64) -> u64
        requires { 0 < bound }
        ensures { result < bound }
    {
        self.state = self
            .state
            .wrapping_mul(6_364_136_223_846_793_005)
            .wrapping_add(1_442_695_040_888_963_407);
        (self.state >> 33) % bound
    }

    fn value(&mut self, alloc: Global) -> Result<Value, Refusal> {
        match self.below(3) {
            0 => Ok(Value::flag(true)),
            1 => Value::whole(-7),
            _ => Ok(Value::text(alloc, "red")?),
        }
    }

    fn attrs(&mut self, alloc: Global) -> Result<Attrs, Refusal> {
        let mut attrs = Attrs::new(alloc);
        for name in &NAMES {
            if self.below(5) == 0 {
                attrs.set(Key::new(alloc, name)?, self.value(alloc)?)?;
            }
        }
        Ok(attrs)
    }

    fn change(&mut self, alloc: Global) -> Result<Change, Refusal> {
        let mut change = Change::new(alloc);
        for name in &NAMES {
            match self.below(8) {
                0 => change.set(Key::new(alloc, name)?, None)?,
                1 => change.set(Key::new(alloc, name)?, Some(self.value(alloc)?))?,
                _ => {}
            }
        }
        Ok(change)
    }

    fn insert(&mut self, alloc: Global) -> Result<Op, Refusal> {
        let attrs = self.attrs(alloc)?;
        if self.below(4) == 0 {
            return Op::embed(alloc, "image", self.value(alloc)?, attrs);
        }
        let text = TEXTS[self.below(8) as usize];
        Ok(Op::text(String::from_str(alloc, text)?, attrs))
    }

    fn op(&mut self, alloc: Global) -> Result<Op, Refusal> {
        match self.below(6) {
            0 | 1 => self.insert(alloc),
            2 => Ok(Op::delete(1 + self.below(4))),
            _ => Ok(Op::retain(1 + self.below(4), self.change(alloc)?)),
        }
    }

    /// A delta of one to six operations.
    pub fn delta(&mut self, alloc: Global) -> Result<Delta, Refusal> {
        let mut builder = Builder::new(alloc);
        for _ in 0..1 + self.below(6) {
            builder.push(self.op(alloc)?)?;
        }
        Ok(builder.finish())
    }

    /// A delta of two to nine insertions.
    pub fn document(&mut self, alloc: Global) -> Result<Delta, Refusal> {
        let mut builder = Builder::new(alloc);
        for _ in 0..2 + self.below(8) {
            builder.push(self.insert(alloc)?)?;
        }
        Ok(builder.finish())
    }
}
