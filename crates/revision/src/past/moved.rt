//! Edits that are moved on before they are answered, so that the answer itself has less to do.
ghost use Rattle.std.specs.Prelude.{◌≡◌, ◌≤◌, length, take, IsTrue, IfOk, IfSome};
ghost use Rattle.revision.specs.Late.{late as late_edit, HasRoom};
ghost use Rattle.revision.specs.Moved.{moved_of, IsLateIn};

use super::copying::copies_of_deltas;
use super::late::{late, past_all};
use super::state::State;
use crate::rule::{Action, Command, is_same_delta};
use delta::Delta;
use refusal::Refusal;
use std::alloc::{AllocError, Global};
use std::marker::Model;

/// An edit with the deltas of the revisions after its base, as a state held them. It keeps these alive, and shares their operations.
#[derive(Drop)]
pub struct LateEdit {
    document: u32,
    base: u64,
    edit: Delta,
    since: Vec<Delta>,
}

impl Model for LateEdit {
    ghost use Rattle.revision.specs.Late.{HasRoom};
    ghost use Rattle.revision.specs.Moved as spec;

    ghost Value = { spec.LateEdit };

    ghost view = { λ l. record { document = l.document; base = l.base; edit = l.edit; since = l.since.items } };

    ghost invariant = { λ l. HasRoom l.edit l.since.items };
}

impl LateEdit {
    /// The edit past these deltas. It takes time linear in all of them where none lies apart from it. Refused as out of memory alone.
    pub fn moved(self, alloc: Global) -> Result<MovedEdit, AllocError>
        ensures moved { IfOk result (λ m. m ≡ moved_of self) }
    {
        let LateEdit {
            document,
            base,
            edit,
            since,
        } = self;
        let delta = late(alloc, &edit, &since)?;
        Ok(MovedEdit {
            document,
            base,
            count: since.len(),
            edit,
            delta,
        })
    }
}

/// An edit that is past the deltas of the first revisions after its base already.
#[derive(Drop)]
pub struct MovedEdit {
    document: u32,
    base: u64,
    count: usize,
    edit: Delta,
    delta: Delta,
}

impl Model for MovedEdit {
    ghost use Rattle.revision.specs.Moved as spec;

    ghost Value = { spec.MovedEdit };

    ghost view = { λ m. record { document = m.document; base = m.base; count = m.count; edit = m.edit; delta = m.delta } };
}

impl MovedEdit {
    /// Whether a command asks for an edit like this one, on the same base: it may be of another document.
    pub fn is_like(&self, command: &Command) -> bool {
        match command.action() {
            Action::Edit { base, delta } => {
                self.base == *base && is_same_delta(&self.edit, delta)
            }
            _ => false,
        }
    }

    // Whether it is this edit of the document of this number.
    pub(crate) fn is_of(&self, number: u32, base: u64, edit: &Delta) -> bool
        ensures document { IsTrue result → self.now.document ≡ number }
        ensures base { IsTrue result → self.now.base ≡ base }
        ensures edit { IsTrue result → self.now.edit ≡ edit.now }
    {
        self.document == number && self.base == base && is_same_delta(&self.edit, edit)
    }

    // The edit past all of these deltas; it is past the first `count` of them already.
    pub(crate) fn past(&self, alloc: Global, since: &[Delta]) -> Result<Delta, AllocError>
        requires room { HasRoom self.now.edit since.now }
        requires count { self.now.count ≤ length since.now }
        requires moved { self.now.delta ≡ late_edit self.now.edit (take self.now.count since.now) }
        ensures late { IfOk result (λ made. made ≡ late_edit self.now.edit since.now) }
    {
        past_all(alloc, self.delta.copy(alloc)?, &since[self.count..])
    }
}

impl State {
    /// The edit that a command asks for, with the deltas of the revisions after its base, `least` or more of these. None where
    /// they are fewer, the command asks for something else, its document isn't there or doesn't hold the base, or memory runs out.
    pub fn late_edit(&self, alloc: Global, command: &Command, least: usize) -> Option<LateEdit>
        ensures { IfSome result (λ l. IsLateIn self.now l) }
    {
        let Action::Edit { base, delta } = command.action() else {
            return None;
        };
        let Some((document, found)) = self.find(command.name()) else {
            return None;
        };
        if *base < found.floor() || found.revision() < *base {
            return None;
        }
        let since = found.since(*base);
        if since.len() < least {
            return None;
        }
        match late_by(alloc, document, *base, delta, since) {
            Ok(late) => Some(late),
            Err(_) => None,
        }
    }
}

// An edit with copies of deltas, past which there is room for it.
fn late_by(
    alloc: Global,
    document: u32,
    base: u64,
    edit: &Delta,
    since: &[Delta],
) -> Result<LateEdit, Refusal>
    requires { HasRoom edit.now since.now }
    ensures { IfOk result (λ l. l ≡ record { document = document; base = base; edit = edit.now; since = since.now }) }
{
    Ok(LateEdit {
        document,
        base,
        edit: edit.copy(alloc)?,
        since: copies_of_deltas(alloc, since)?,
    })
}
