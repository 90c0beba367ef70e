//! The documents whose jobs are looked at next.
ghost use Rattle.std.specs.Prelude.{◌≡◌, ◌⊎◌, ◌<◌, ◌++◌, ◌∷◌, [], length, Contains, MatchOption, IfOk, IfSome};
ghost use Rattle.turns.specs.Waiting.{StaysIn};

use std::alloc::{AllocError, Global};
use std::collections::VecDeque;
use std::marker::Model;

/// Numbers of documents, each once, in the order in which they came. There is room for each document that a store may have, so that adding
/// one takes no memory.
#[derive(Drop)]
pub(crate) struct Queue {
    numbers: VecDeque<u32>,
    is_in: Vec<bool>,
}

impl Model for Queue {
    ghost use Rattle.turns.specs.Waiting.{Waiting};

    ghost Value = { Waiting };

    ghost use Rattle.turns.specs.Queues.{waiting, IsQueue};

    ghost view = { waiting };

    ghost invariant = { IsQueue };
}

impl Queue {
    /// None, with room for the numbers below this one. Refused as out of memory alone.
    pub(crate) fn new(alloc: Global, docs: u32) -> Result<Queue, AllocError>
        ensures none { IfOk result (λ queue. queue.numbers ≡ []) }
        ensures room { IfOk result (λ queue. queue.room ≡ docs) }
    {
        let numbers = VecDeque::with_capacity(alloc, docs as usize)?;
        let mut is_in = Vec::with_capacity(alloc, docs as usize)?;
        for _ in 0..docs {
            is_in.push(false)?;
        }
        Ok(Queue { numbers, is_in })
    }

    /// How many there are.
    pub(crate) fn len(&self) -> usize
        ensures { result ≡ length self.now.numbers }
    {
        self.numbers.len()
    }

    /// Adds a document's number behind the others, unless it is there, or there is no room for such a number.
    pub(crate) fn add(&mut self, document: u32)
        ensures waits { document < self.old.room → Contains self.new.numbers document }
        ensures behind { (self.new.numbers ≡ self.old.numbers)
            ⊎ (self.new.numbers ≡ self.old.numbers ++ document ∷ []) }
        ensures room { self.new.room ≡ self.old.room }
        ensures stays { StaysIn self.old self.new }
    {
        let place = document as usize;
        if place < self.is_in.len() && !self.is_in[place] {
            self.numbers.push_back(document).unwrap();
            self.is_in[place] = true;
        }
    }

    /// Takes the number that came first.
    pub(crate) fn next(&mut self) -> Option<u32>
        ensures first { MatchOption result ((self.old.numbers ≡ []) × (self.new.numbers ≡ []))
            (λ document. self.old.numbers ≡ document ∷ self.new.numbers) }
        ensures within { IfSome result (λ document. document < self.old.room) }
        ensures room { self.new.room ≡ self.old.room }
    {
        let document = self.numbers.pop_front()?;
        let place = document as usize;
        if place < self.is_in.len() {
            self.is_in[place] = false;
        }
        Some(document)
    }
}
