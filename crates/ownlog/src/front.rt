//! Beginnings of a log that were seen.
ghost use Rattle.std.specs.Prelude.{◌≡◌, List};
ghost use mathlib.Core.List.{IsPrefix};

use crate::law::Law;
use crate::link::Link;
use logbook::Seen;
use std::marker::Model;

/// A beginning of a log that was seen. Contracts see it as the log's own name and the items. It takes no memory.
#[derive(Drop)]
pub struct Front<T> {
    pub(crate) seen: Seen<Link<T>, u64, Law>,
}

impl<T> Model for Front<T> {
    ghost use Rattle.ownlog.specs.Logs as spec;
    ghost use Rattle.ownlog.specs.Rules.{items_of};

    ghost Value = { spec.Log T };

    ghost view = { λ f. record { book = f.seen.book; items = items_of f.seen.log } };
}

impl<T> Front<T> {
    /// A copy. It takes no memory.
    pub fn copy(&self) -> Front<T>
        ensures { result ≡ self.now }
    {
        Front {
            seen: self.seen.again(),
        }
    }

    /// Both begin one list. It takes no memory.
    pub fn meets(&self, other: &Front<T>)
        requires { other.now.book ≡ self.now.book }
        ensures { (all : List T) × IsPrefix self.now.items all × IsPrefix other.now.items all }
    {
        let mut both = self.seen.again();
        both.learn(&other.seen);
    }
}
