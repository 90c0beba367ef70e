//! A source's window.
ghost use Rattle.std.specs.Prelude.{◌≡◌, ◌≤◌, ◌<◌, [], ◌∷◌, ◌++◌, length, nat_lt};
ghost use Rattle.revision.specs.Window.{longest, nothing_taken, taken_as, revision_in, last_revision};

use std::marker::Model;

/// How many numbers a window has at most.
pub const LONGEST: usize = 16;

/// What a source has in a document: the number of its last command that was taken, and the revisions that came of its last numbers,
/// that of the very last one at the end. It lies in itself, so that it is copied and shifted without memory.
#[derive(Drop)]
pub struct Window {
    number: u64,
    revisions: [u64; LONGEST],
    count: usize,
}

impl Model for Window {
    ghost use Rattle.revision.specs.Window as spec;

    ghost Value = { spec.Window };

    ghost coded = { spec.window_code };

    ghost use Rattle.std.specs.Prelude.{◌≤◌, take};

    ghost view = { λ w. record { number = w.number; revisions = take w.count w.revisions } };

    ghost invariant = { λ w. w.count ≤ spec.longest };
}

impl Window {
    /// The window of a source with nothing taken.
    pub fn new() -> Window
        ensures { result ≡ nothing_taken }
    {
        Window::begun(0)
    }

    /// That of a source with one number.
    pub fn of_one(number: u64, revision: u64) -> Window
        ensures { result ≡ record { number = number; revisions = revision ∷ [] } }
    {
        let mut window = Window::begun(number);
        window.add(revision);
        window
    }

    /// That of a source with this last number, before the revisions of its numbers are added.
    pub fn begun(number: u64) -> Window
        ensures { result ≡ record { number = number; revisions = [] } }
    {
        Window {
            number,
            revisions: [0; LONGEST],
            count: 0,
        }
    }

    /// Adds a revision behind those that it has, and leaves the last number.
    pub fn add(&mut self, revision: u64)
        requires { length self.old.revisions < longest }
        ensures { self.new ≡ record { number = self.old.number; revisions = self.old.revisions ++ revision ∷ [] } }
    {
        self.revisions[self.count] = revision;
        self.count += 1;
    }

    /// The last number, 0 where nothing was taken.
    pub fn number(&self) -> u64
        ensures { result ≡ self.now.number }
    {
        self.number
    }

    /// The revisions of its numbers, that of the last one at the end.
    pub fn revisions(&self) -> &[u64]
        ensures revisions { result.now ≡ self.now.revisions }
        ensures longest { length self.now.revisions ≤ longest }
    {
        &self.revisions[..self.count]
    }

    /// The revision that a number of the window made.
    pub fn revision_of(&self, number: u64) -> Option<u64>
        ensures { result ≡ revision_in number self.now }
    {
        if number > self.number {
            return None;
        }
        let back = self.number - number;
        let count = self.count as u64;
        if back >= count {
            return None;
        }
        self.revisions().get((count - 1 - back) as usize).copied()
    }

    /// The revision of the last number, 0 where nothing was taken.
    pub fn last_revision(&self) -> u64
        ensures { result ≡ last_revision self.now }
    {
        self.revision_of(self.number()).unwrap_or(0)
    }

    /// Takes a number as a revision. Where the window is as long as it may be, its lowest number goes. It takes no memory.
    pub(crate) fn take(&mut self, number: u64, revision: u64)
        ensures { self.new ≡ taken_as number revision self.old }
    {
        if self.count == LONGEST {
            self.revisions.copy_within(1.., 0);
            self.count -= 1;
        }
        self.add(revision);
        self.number = number;
    }

    /// An equal window. It takes no memory.
    pub fn copy(&self) -> Window
        ensures { result ≡ self.now }
    {
        Window {
            number: self.number,
            revisions: self.revisions,
            count: self.count,
        }
    }

    /// How many numbers it has, 16 at most.
    pub(crate) fn count(&self) -> usize
        ensures count { result ≡ length self.now.revisions }
        ensures longest { result ≤ longest }
    {
        self.count
    }

    /// Whether a number more makes it longer.
    pub(crate) fn is_short(&self) -> bool
        ensures short { result ≡ nat_lt (length self.now.revisions) longest }
        ensures fits { length self.now.revisions ≤ longest }
    {
        self.count < LONGEST
    }
}

impl PartialEq for Window {
    ghost use Rattle.std.specs.Cmp.{decided, partial_equiv_from_equiv};
    ghost use Rattle.revision.specs.Window.{same_window, same_window-Decides};

    ghost eq = { same_window };

    ghost laws = { partial_equiv_from_equiv (decided same_window same_window-Decides) };

    fn eq(&self, other: &Self) -> bool {
        self.number == other.number && self.revisions() == other.revisions()
    }
}
