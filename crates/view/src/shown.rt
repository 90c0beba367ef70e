//! What readers are shown, and how it grows.
ghost use Rattle.std.specs.Prelude.{◌≡◌};

use crossbeam_utils::rule::{Outcome, Protocol};
use document::Document;
use left_right::Absorb;
use published::{Life, PublishedPrefix};
use revision::{Batch, State, Taken};
use std::alloc::{AllocError, Global};
use std::marker::{Model, PhantomData};

/// A state, with the published batches that made it. Readers are shown one of two copies.
#[derive(Drop)]
pub struct Shown<L: Life> {
    pub(crate) alloc: Global,
    pub(crate) state: State,
    pub(crate) published: PublishedPrefix<L>,
}

impl<L: Life> Model for Shown<L> {
    ghost use Rattle.view.specs.Shown as spec;

    ghost Value = { spec.Seen };

    ghost view = { λ s. record { state = s.state; published = s.published } };

    ghost invariant = { λ s. spec.IsShown L.start (record { state = s.state; published = s.published }) };
}

/// A batch that is to be shown, with what was published before it and what is published with it. Beside its first commands stand the
/// documents that they leave.
#[derive(Drop)]
pub struct News<L: Life> {
    pub(crate) batch: Batch,
    pub(crate) made: Vec<Document>,
    pub(crate) before: PublishedPrefix<L>,
    pub(crate) published: PublishedPrefix<L>,
}

impl<L: Life> Model for News<L> {
    ghost use Rattle.view.specs.News as spec;

    ghost Value = { spec.News };

    ghost view = { λ n. record { batch = n.batch; published = n.published } };

    ghost invariant = { λ n. spec.GoesOn L.start n.batch n.made.items n.before n.published };
}

/// What the two copies have in common, and whether each batch continued the state. No value of it is made.
pub struct Basis {
    pub state: State,
    pub published: [[Taken; 0]; 0],
    pub grew: bool,
}

impl<L: Life> Absorb<News<L>> for Shown<L> {
    ghost use Rattle.view.specs.Shown.{basis_of, after};

    type State = Basis;

    ghost state = { basis_of };

    ghost applied = { after };

    /// Takes over the documents that stand beside the batch, and makes the others. It fails out of memory; and where this copy doesn't show
    /// what was published before the batch, which never happens, but no clause says so.
    fn absorb_first(&mut self, operation: &News<L>, _other: &Shown<L>) -> Result<(), AllocError> {
        if !self.published.is_same(&operation.before) {
            return Err(AllocError);
        }
        let absorbed = self.state.absorb_all(
            self.alloc,
            operation.batch.as_slice(),
            operation.made.as_slice(),
        );
        if absorbed.is_err() {
            return Err(AllocError);
        }
        self.published = operation.published.copy();
        Ok(())
    }
}

/// The rule of the view of a run: what is shown is what the published batches make of the start.
pub struct InLog<L> {
    of: PhantomData<L>,
}

impl<L: Life> Protocol<Shown<L>, ()> for InLog<L> {
    ghost use Rattle.view.specs.Shown.{IsShown};

    ghost holds = { λ x views. IsShown L.start x };

    ghost first = { tt };
}

/// What a step on the view tells: what is shown then is what the published batches make of the start.
pub struct Sees<L> {
    of: PhantomData<L>,
}

impl<L: Life> Outcome<Shown<L>, ()> for Sees<L> {
    ghost use Rattle.view.specs.Shown.{IsShown};

    ghost then = { λ v x y w. IsShown L.start y };
}
