//! Commands that are drawn.
use crate::letters::Mark;
use crate::rule::{Action, Command, Rule};
use refusal::Refusal;
use std::alloc::Global;

/// The documents and the sources, each as often as it is to be drawn.
const DOCS: [&str; 12] = ["d", "d", "d", "d", "d", "d", "d", "e", "e", "e", "e", "f"];

const SOURCES: [&str; 10] = ["a", "a", "a", "a", "b", "b", "b", "c", "c", "z"];

/// Pseudo-random numbers, by Knuth's linear congruential generator for 64 bits.
#[derive(Drop)]
pub struct Draws {
    state: u64,
}

impl Draws {
    /// The numbers that follow this one.
    pub fn new(seed: u64) -> Draws {
        Draws { state: seed }
    }

    /// The next number, below a bound.
    pub fn below(&mut self, bound: u64) -> u64 {
        self.state = self
            .state
            .wrapping_mul(6_364_136_223_846_793_005)
            .wrapping_add(1_442_695_040_888_963_407);
        (self.state >> 33) % bound.max(1)
    }

    fn pick(&mut self, names: &[&'static str]) -> &'static str {
        let place = self.below(names.len() as u64) as usize;
        names.get(place).copied().unwrap_or("d")
    }

    // So many marks of a kind more.
    fn push_run(&mut self, delta: &mut Vec<Mark>, count: u64) -> Result<(), Refusal> {
        let mark = match self.below(5) {
            0 => Mark::Drop,
            1 => Mark::Keep,
            2 | 3 => Mark::Insert(b'x'),
            _ => Mark::Insert(b'y'),
        };
        for _ in 0..count {
            delta.push(mark)?;
        }
        Ok(())
    }

    // A delta somewhere on a text of so many letters, of some runs, or of many marks that go one by one, which takes many bytes.
    fn delta(&mut self, alloc: Global, letters: u64) -> Result<Vec<Mark>, Refusal> {
        let mut delta = Vec::new(alloc);
        if self.below(8) == 0 {
            for _ in 0..self.below(letters.saturating_add(4)) / 2 {
                delta.push(Mark::Insert(b'y'))?;
                delta.push(Mark::Drop)?;
                delta.push(Mark::Keep)?;
            }
            return Ok(delta);
        }
        for _ in 0..self.below(letters.saturating_add(1)) {
            delta.push(Mark::Keep)?;
        }
        for _ in 0..self.below(3).saturating_add(1) {
            let count = self.below(6);
            self.push_run(&mut delta, count)?;
        }
        Ok(delta)
    }

    // What is asked for, mostly what is taken: of a document that is live an edit, of any other one its creation.
    fn action(&mut self, newest: u64, is_live: bool) -> Action {
        match self.below(24) {
            0 | 1 => Action::Delete,
            2 => Action::Create,
            3 | 4 => Action::Undo,
            5 => Action::Edit(newest.saturating_add(1)),
            6 => Action::Edit(newest.saturating_sub(self.below(24))),
            7 | 8 => Action::Edit(newest),
            _ if is_live => Action::Edit(newest.saturating_sub(self.below(4))),
            _ => Action::Create,
        }
    }

    // A source's number, mostly the next one.
    fn number(&mut self, last: u64) -> u64 {
        let number = match self.below(16) {
            0 => last,
            1 => last.saturating_add(2),
            2 => last.saturating_sub(self.below(24)),
            _ => last.saturating_add(1),
        };
        number.max(1)
    }

    /// The next command.
    pub fn command(&mut self, alloc: Global, rule: &Rule) -> Result<Command, Refusal> {
        let doc = self.pick(&DOCS);
        let source = self.pick(&SOURCES);
        let last = rule.last(doc, source);
        let number = self.number(last);
        let newest = rule.revision(doc);
        let letters = rule.read(doc, newest);
        let action = self.action(newest, letters.is_ok());
        let length = match (action, letters) {
            (Action::Edit(_), Ok(letters)) => letters.len() as u64,
            _ => 0,
        };
        let delta = self.delta(alloc, length)?;
        Ok(Command {
            doc,
            source,
            number,
            action,
            delta,
        })
    }
}
