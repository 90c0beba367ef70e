//! What the words of a command ask for, and its answer.
ghost use Rattle.std.specs.Prelude.{◌≡◌, ◌⊎◌, IfOk, IfErr};
ghost use Rattle.std.specs.String.{string_bytes};
ghost use Rattle.optext.specs.Answer.{IsAnswerOf};
ghost use Rattle.algebra.specs.Tasks.{ComesTo, PrintsOutcome, PrintsLine};

use crate::making::{applied, composed, inverted, transformed};
use crate::reading::read_both;
use crate::writing::write_delta;
use delta::Delta;
use refusal::Refusal;
use std::alloc::Global;

/// What the words of a command ask for. Each of them is a text `{"ops":[..]}`.
#[derive(Clone, Copy, Debug, PartialEq, Eq)]
pub enum Task<'a> {
    /// The delta with the effect of the first, and then the second.
    Compose {
        first: &'a str,
        second: &'a str,
    },
    /// The second delta as it is after the first. With priority the first goes first.
    Transform {
        first: &'a str,
        second: &'a str,
        priority: bool,
    },
    /// The delta that takes back another on the document that the base makes.
    Invert {
        delta: &'a str,
        base: &'a str,
    },
    /// The delta that makes the document after another.
    Apply {
        document: &'a str,
        delta: &'a str,
    },
}

impl<'a> Task<'a> {
    /// The text of what the command comes to, without a line end, or the refusal that it comes to; and NoMemory.
    pub fn answer(self, alloc: Global) -> Result<String, Refusal>
        ensures text { IfOk result (λ text. PrintsOutcome self.entry (string_bytes text)) }
        ensures refusal { IfErr result (λ refusal. ComesTo self.entry (Err refusal) ⊎ (refusal ≡ Refusal.NoMemory)) }
    {
        let made = self.made(alloc)?;
        let text = write_delta(alloc, &made)?;
        Ok(text)
    }

    /// The same text as a line, with its end.
    pub fn line(self, alloc: Global) -> Result<String, Refusal>
        ensures line { IfOk result (λ line. PrintsLine self.entry (string_bytes line)) }
        ensures refusal { IfErr result (λ refusal. ComesTo self.entry (Err refusal) ⊎ (refusal ≡ Refusal.NoMemory)) }
    {
        let mut line = self.answer(alloc)?;
        line.push('\n')?;
        Ok(line)
    }

    // what the command comes to
    fn made(self, alloc: Global) -> Result<Delta, Refusal>
        ensures { IsAnswerOf (ComesTo self.entry) result }
    {
        match self {
            Task::Compose { first, second } => {
                let deltas = read_both(alloc, first, second)?;
                composed(alloc, &deltas.0, &deltas.1)
            }
            Task::Transform {
                first,
                second,
                priority,
            } => {
                let deltas = read_both(alloc, first, second)?;
                transformed(alloc, &deltas.0, &deltas.1, priority)
            }
            Task::Invert { delta, base } => {
                let deltas = read_both(alloc, delta, base)?;
                inverted(alloc, &deltas.0, &deltas.1)
            }
            Task::Apply { document, delta } => {
                let deltas = read_both(alloc, document, delta)?;
                applied(alloc, &deltas.0, &deltas.1)
            }
        }
    }
}
