//! Attributes that were met lately.
ghost use Rattle.std.specs.Prelude.{◌≡◌, IfOk, IfSome};

use crate::attrs::Attrs;
use std::alloc::{AllocError, Global};

/// So many are remembered.
const LATELY: usize = 64;

/// The last 64 attributes that were met, each once, so that equal ones stand in memory once.
#[derive(Drop)]
pub struct Known {
    lately: Vec<Attrs>,
    // where the next one goes once all places are taken
    next: usize,
}

impl Known {
    /// None. It takes no memory.
    pub fn new(alloc: Global) -> Self {
        Known {
            lately: Vec::new(alloc),
            next: 0,
        }
    }

    /// Equal attributes, which stand in memory where equal ones stood lately.
    pub fn share(&mut self, alloc: Global, attrs: Attrs) -> Result<Attrs, AllocError>
        ensures same { IfOk result (λ shared. shared ≡ attrs) }
    {
        if attrs.entries().is_empty() {
            return Ok(attrs);
        }
        if let Some(met) = self.find(&attrs) {
            return met.copy(alloc);
        }
        let copy = attrs.copy(alloc)?;
        self.note(copy)?;
        Ok(attrs)
    }

    // equal attributes that were met
    fn find(&self, attrs: &Attrs) -> Option<&Attrs>
        ensures { IfSome result (λ met. met.now ≡ attrs.now) }
    {
        for met in &self.lately {
            if *met == *attrs {
                return Some(met);
            }
        }
        None
    }

    // remembers attributes, in the place of the oldest once all places are taken
    fn note(&mut self, attrs: Attrs) -> Result<(), AllocError> {
        if self.lately.len() < LATELY {
            self.lately.push(attrs)?;
            return Ok(());
        }
        if self.next >= self.lately.len() {
            self.next = 0;
        }
        self.lately[self.next] = attrs;
        self.next += 1;
        Ok(())
    }
}
