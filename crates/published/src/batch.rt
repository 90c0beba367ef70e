//! The items of the logs.
use disk::Disk;
use ownlog::Shows;
use recovery::Receipt;
use revision::Taken;
use std::marker::{Model, PhantomData};

/// A published batch. No value of it is made.
#[derive(Drop)]
pub struct BatchItem {
    items: [Taken; 0],
}

impl Model for BatchItem {
    ghost use Rattle.std.specs.Prelude.{List};
    ghost use Rattle.revision.specs.Command.{Taken};

    ghost Value = { List Taken };

    ghost view = { λ b. b.items };
}

/// The moment at which the commit of a published batch had ended. No value of it is made.
#[derive(Drop)]
pub struct MomentItem {
    of: PhantomData<u8>,
}

impl Model for MomentItem {
    ghost use Rattle.recovery.specs.Moment as spec;

    ghost Value = { spec.Moment };

    ghost view = { λ m. spec.no_moment };
}

/// A receipt is seen as its batch,
pub struct OfReceipt;

impl<D> Shows<Receipt<D>, BatchItem> for OfReceipt {
    ghost item = { λ receipt. receipt.batch };
}

/// and as the moment at which its commit ended.
pub struct AtReceipt;

impl<D: Disk> Shows<Receipt<D>, MomentItem> for AtReceipt {
    ghost use Rattle.recovery.specs.Moment.{moment_of};

    ghost item = { λ receipt. moment_of ⟦<D as Disk>⟧ receipt.at };
}
