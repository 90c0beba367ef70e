//! Which conversation a value is of.
ghost use Rattle.std.specs.Prelude.{ℕ};

use std::marker::Brand;

/// A conversation: its connection's number, and its hall.
pub trait Talk {
    /// How many connections had come before this one.
    ghost connection: { ℕ };

    /// The name of the hall's end.
    ghost hall: { ℕ };
}

impl Talk for Brand {
    ghost connection = { 0 };

    ghost hall = { 0 };
}
