//! The life of a server that a value belongs to.
use std::marker::Brand;
use std::sync::ledger::Ledger;

/// Names a run: the log of its order, the log of what it publishes and that of the moments of it, the ledgers of what is taken off its order,
/// of what is settled of it and of whether all of it is taken off for good, and the state that its store was opened with; and by `Ledger` its
/// seats. Whatever has to agree on these carries one type of this trait.
pub trait Life: Ledger {
    ghost use Rattle.published.specs.Books.{Books};
    ghost use Rattle.revision.specs.State.{State};

    ghost book: { Books };

    ghost start: { State };
}

/// Each call of a program picks its own.
impl Life for Brand {
    ghost use Rattle.std.specs.Prelude.{[]};

    ghost book = { record {
      logs = record {
        published = record { number = 0; log_name = 0; cells_name = 0 };
        ordered = record { number = 0; log_name = 0; cells_name = 0 };
        timed = record { number = 0; log_name = 0; cells_name = 0 };
      };
      takes = 0;
      settles = 0;
      ends = 0;
    } };

    ghost start = { record {
      limits = record { docs = 0; sources = 0; weight = 0; width = 0; keep = 0; retry = 0 };
      documents = [];
    } };
}
