//! A batch that was written and isn't settled yet.
ghost use Rattle.std.specs.Prelude.{◌≡◌};
ghost use Rattle.hub.specs.Runs.{ComesNext};
ghost use Rattle.hub.specs.Moves.{IsSettledOn, IsSettledNext};

use hub::{Board, Hub, Settled, Writer};
use published::{Life, Told};
use recovery::Receipt;
use refusal::Refusal;
use std::marker::Model;
use std::sync::Wait;

/// A batch that was committed and published, and that the board has to settle next: the receipt of its commit, and the token that ends with
/// it. Only `Flusher::write` makes one. It isn't `Drop`: each one is settled at the hub, or a board of the same thread settles it or refuses
/// it.
pub struct Written<D, L: Life> {
    receipt: Receipt<D>,
    told: Told<D, L>,
}

impl<D, L: Life> Model for Written<D, L> {
    ghost use Rattle.std.specs.Prelude.{List};
    ghost use Rattle.revision.specs.Command.{Taken};
    ghost use Rattle.recovery.specs.Moment.{Receipt as Committed};

    ghost Value = { Committed D × List (List Taken) };

    ghost view = { λ w. (w.receipt, w.told) };
}

impl<D, L: Life> Written<D, L> {
    /// Settles it at the hub, where it comes next after what the writer has settled, and gives the receipt of its commit and the hub's token,
    /// by which the board has settled what was published up to this batch. It never fails.
    pub fn settle<R: Wait>(
        self,
        rt: &R,
        hub: &Hub<D, L>,
        writer: &mut Writer<L>,
    ) -> (Receipt<D>, Settled<D, L>)
        requires next { ComesNext writer.old self.0.batch self.1 }
        ensures receipt { result.0 ≡ self.0 }
        ensures settled { IsSettledNext writer.old self.0.batch self.1 result.1 writer.new }
    {
        let Written { receipt, told } = self;
        let settled = hub.settle(rt, writer, &receipt, told);
        (receipt, settled)
    }

    /// Settles it on a board of the same thread, as `Board::settle` does. Refused with `Stranger` alone, where it isn't what the board has to
    /// settle next; the board is unchanged then, and the batch, which is on the disk, stays unsettled. No program calls it: a server settles at
    /// its hub.
    pub fn settle_on(self, board: &mut Board<D, L>) -> Result<(), Refusal>
        ensures { IsSettledOn board.old self.0.batch self.1 result board.new }
    {
        let Written { receipt, told } = self;
        board.settle(&receipt, told)
    }
}

// What a publish gave, to be settled.
pub(crate) fn to_settle<D, L: Life>(
    published: Option<(Receipt<D>, Told<D, L>)>,
) -> Option<Written<D, L>>
    ensures { result ≡ published }
{
    match published {
        Some((receipt, told)) => Some(Written { receipt, told }),
        None => None,
    }
}
