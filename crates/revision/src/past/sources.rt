//! The sources of a document.
ghost use Rattle.std.specs.Prelude.{◌≡◌, ◌≤◌, ◌-◌, ◌^◌, ℕ, T, true, false, None, List, min, map, is_some, unwrap_or, slice_get, MatchResult, IfOk, OnOk, OnErr, OnSome, option_copied};
ghost use Rattle.std.specs.FinMap.Entries.{is_sorted};
ghost use Rattle.attributes.specs.Map.{by_bytes, empty, get, insert, remove};
ghost use Rattle.attributes.specs.Place.{IsHere, IsFree};
ghost use Rattle.revision.specs.Name.{is_source_name};
ghost use Rattle.revision.specs.Window.{nothing_taken};
ghost use Rattle.revision.specs.Sources.{are_named, count_of, cut, window_of, with_taken, with_entry};
ghost use Rattle.revision.specs.State.{weight_of_sources};
ghost use Rattle.revision.specs.steps.Weighing.{more_weight, Fits};
ghost use Rattle.revision.specs.steps.NameAt.{has_name};
ghost use lib.Dec.{T_prop};

use crate::rule::{Limits, Name, Window};
use std::alloc::{AllocError, Global};
use std::cmp::Ordering;
use std::marker::Model;

/// What a source has, where it is there, and the place at which it stands or would stand.
///
/// A place is only where the source is looked for first the next time, in these sources or in others that are much the same. Where
/// it is wrong the source is searched for, so nothing rests on it, and no clause speaks of it.
#[derive(Drop)]
pub(crate) struct Found {
    pub(crate) window: Option<Window>,
    pub(crate) place: usize,
}

/// The sources of a document with their windows, in the order of the bytes of their names, which have 1 to 32 characters. How many
/// numbers their windows have in all is kept, so that what they weigh is known without a walk.
#[derive(Drop)]
pub struct Sources {
    list: Vec<(Name, Window)>,
    // How many numbers the windows have in all. With 16 of each at most, it fits whatever the length of the list.
    numbers: u128,
    ghost ascending: { T (is_sorted by_bytes list.items) } by { T_prop _ },
}

impl Model for Sources {
    ghost use Rattle.revision.specs.Sources as spec;
    ghost use Rattle.revision.specs.Sources.{sources_code};
    ghost use Rattle.revision.specs.steps.Counting.{Keeps};

    ghost Value = { spec.Sources };

    ghost coded = { sources_code };

    ghost view = { λ s. record { entries = s.list.items; ascending = s.ascending } };

    ghost invariant = { λ s. Keeps s.numbers s.list.items };
}

impl Sources {
    /// No sources. Doesn't allocate.
    pub fn new(alloc: Global) -> Sources
        ensures { result ≡ empty }
    {
        Sources {
            list: Vec::new(alloc),
            numbers: 0,
        }
    }

    /// The sources in order.
    pub fn entries(&self) -> &[(Name, Window)]
        ensures entries { result.now ≡ self.now.entries }
        ensures named { are_named self.now.entries ≡ true }
    {
        self.list.as_slice()
    }

    /// What all sources keep, for the prover. It does nothing.
    pub fn facts(&self)
        ensures { are_named self.now.entries ≡ true }
    {
        let _ = &self.list;
    }

    /// How many there are.
    pub fn count(&self) -> usize
        ensures { result ≡ count_of self.now }
    {
        self.list.len()
    }

    // Where the name stands, or else where it would stand: it halves what is left until that is one place.
    fn place(&self, name: &str) -> Result<usize, usize>
        ensures { MatchResult result (IsHere name.now self.now.entries) (IsFree name.now self.now.entries) }
    {
        let mut low = 0;
        let mut high = self.list.len();
        while low < high {
            let middle = low + (high - low) / 2;
            match order(name, self.list[middle].0.as_str()) {
                Ordering::Less => high = middle,
                Ordering::Equal => return Ok(middle),
                Ordering::Greater => low = middle + 1,
            }
        }
        Err(low)
    }

    // Where the name stands, as `place` tells. One place is tried first, and where it stands there nothing is searched.
    fn place_near(&self, name: &str, place_hint: usize) -> Result<usize, usize>
        ensures { MatchResult result (IsHere name.now self.now.entries) (IsFree name.now self.now.entries) }
    {
        if self.stands_at(name, place_hint) {
            return Ok(place_hint);
        }
        self.place(name)
    }

    // Whether the name stands at this place.
    fn stands_at(&self, name: &str, place: usize) -> bool
        ensures { result ≡ has_name name.now (slice_get self.now.entries place) }
    {
        match self.list.get(place) {
            Some((other, _)) => name.as_bytes() == other.as_str().as_bytes(),
            None => false,
        }
    }

    /// A source's window, the empty one where it isn't there.
    pub fn window(&self, source: &Name) -> Window
        ensures { result ≡ window_of source.now self.now }
    {
        match self.place(source.as_str()) {
            Ok(i) => self.list[i].1.copy(),
            Err(_) => Window::new(),
        }
    }

    /// A source's window, where it is there.
    pub fn find(&self, source: &Name) -> Option<Window>
        ensures window { result ≡ get self.now source.now }
        ensures named { OnSome result (is_source_name source.now ≡ true) }
    {
        match self.place(source.as_str()) {
            Ok(i) => Some(self.list[i].1.copy()),
            Err(_) => None,
        }
    }

    /// A source's window, where it is there, with its place. One place is tried first.
    pub(crate) fn look_up(&self, source: &Name, place_hint: usize) -> Found
        ensures { result.window ≡ get self.now source.now }
    {
        match self.place_near(source.as_str(), place_hint) {
            Ok(place) => Found {
                window: Some(self.list[place].1.copy()),
                place,
            },
            Err(place) => Found {
                window: None,
                place,
            },
        }
    }

    /// A source's window where it stands, as `find` tells. One place is tried first.
    pub(crate) fn see_near(&self, source: &Name, place_hint: usize) -> Option<&Window>
        ensures window { option_copied result ≡ get self.now source.now }
        ensures named { OnSome result (is_source_name source.now ≡ true) }
    {
        match self.place_near(source.as_str(), place_hint) {
            Ok(i) => Some(&self.list[i].1),
            Err(_) => None,
        }
    }

    /// What they weigh; 2^64 - 1 where it is more.
    pub(crate) fn weight(&self, limits: Limits) -> u64
        ensures { result ≡ min (weight_of_sources limits self.now) (2 ^ 64 - 1) }
    {
        let each = u128::from(limits.retry());
        let weight = (64 - each) * self.list.len() as u128 + each * self.numbers;
        weight.min(u128::from(u64::MAX)) as u64
    }

    /// What they weigh once a command of this source was taken, which is looked for first at one place; 2^64 - 1 where it is more.
    pub(crate) fn weight_after(&self, limits: Limits, source: &Name, place_hint: usize) -> u64
        ensures { (number revision : ℕ) → result
            ≡ min (weight_of_sources limits (with_taken source.now number revision self.now)) (2 ^ 64 - 1) }
    {
        self.weight_with(limits, &self.look_up(source, place_hint).window)
    }

    /// What they weigh once a command was taken of a source that has this; 2^64 - 1 where it is more.
    pub(crate) fn weight_with(&self, limits: Limits, found: &Option<Window>) -> u64
        ensures { (source : List ℕ) (number revision : ℕ) → found.now ≡ get self.now source → result
            ≡ min (weight_of_sources limits (with_taken source number revision self.now)) (2 ^ 64 - 1) }
    {
        self.weight(limits)
            .saturating_add(weight_more(limits, found))
    }

    /// Gives a source, whose name has 1 to 32 characters, its window. Refused as out of memory alone, and then unchanged; where the
    /// source is there it takes none.
    pub fn put(&mut self, source: Name, window: Window) -> Result<(), AllocError>
        requires { is_source_name source ≡ true }
        ensures ok { OnOk result (self.new ≡ insert self.old source window) }
        ensures unchanged { OnErr result (self.new ≡ self.old) }
    {
        match self.place(source.as_str()) {
            Ok(i) => {
                self.set_at(i, window);
                Ok(())
            }
            Err(i) => self.add_at(i, source, window),
        }
    }

    // Gives the source at a place another window. It takes no memory.
    fn set_at(&mut self, place: usize, window: Window)
        requires { (source : List ℕ) × IsHere source self.old.entries place }
        ensures { (source : List ℕ) → IsHere source self.old.entries place → self.new ≡ insert self.old source window }
    {
        let before = &mut self.list[place].1;
        self.numbers = self.numbers - before.count() as u128 + window.count() as u128;
        *before = window;
    }

    // Takes a number of the source at a place as a revision, in its window where it stands. It takes no memory.
    fn take_at(&mut self, place: usize, number: u64, revision: u64)
        requires { (source : List ℕ) × IsHere source self.old.entries place }
        ensures { (source : List ℕ) → IsHere source self.old.entries place
            → self.new ≡ with_taken source number revision self.old }
    {
        let window = &mut self.list[place].1;
        let before = window.count();
        window.take(number, revision);
        self.numbers = self.numbers - before as u128 + window.count() as u128;
    }

    // Adds a source, whose name has 1 to 32 characters, at the place where it would stand. Refused as out of memory alone, and then
    // unchanged.
    fn add_at(&mut self, place: usize, source: Name, window: Window) -> Result<(), AllocError>
        requires named { is_source_name source ≡ true }
        requires free { IsFree source self.old.entries place }
        ensures ok { OnOk result (self.new ≡ insert self.old source window) }
        ensures unchanged { OnErr result (self.new ≡ self.old) }
    {
        let count = window.count() as u128;
        self.list.insert(place, (source, window))?;
        self.numbers += count;
        Ok(())
    }

    /// Gives a source that is there another window, and tells whether it is there. One place is tried first. It takes no memory.
    pub(crate) fn renew(&mut self, source: &Name, window: Window, place_hint: usize) -> bool
        requires { is_source_name source.now ≡ true }
        ensures there { result ≡ is_some (get self.old source.now) }
        ensures renewed { result ≡ true → self.new ≡ insert self.old source.now window }
        ensures unchanged { result ≡ false → self.new ≡ self.old }
    {
        match self.place_near(source.as_str(), place_hint) {
            Ok(i) => {
                self.set_at(i, window);
                true
            }
            Err(_) => false,
        }
    }

    /// Gives a source its window as `put` does. One place is tried first. Its name is copied only where it is new.
    pub(crate) fn put_near(
        &mut self,
        alloc: Global,
        source: &Name,
        window: Window,
        place_hint: usize,
    ) -> Result<(), AllocError>
        requires { is_source_name source.now ≡ true }
        ensures ok { OnOk result (self.new ≡ insert self.old source.now window) }
        ensures unchanged { OnErr result (self.new ≡ self.old) }
    {
        match self.place_near(source.as_str(), place_hint) {
            Ok(i) => {
                self.set_at(i, window);
                Ok(())
            }
            Err(i) => self.add_at(i, source.copy(alloc)?, window),
        }
    }

    /// Notes a command of a source, whose name has 1 to 32 characters, and gives back the window that it had, where it was there. One
    /// place is tried first. Refused as out of memory alone, and then unchanged; where the source is there it takes none.
    pub(crate) fn note(
        &mut self,
        alloc: Global,
        source: &Name,
        number: u64,
        revision: u64,
        place_hint: usize,
    ) -> Result<Option<Window>, AllocError>
        requires { is_source_name source.now ≡ true }
        ensures ok { OnOk result (self.new ≡ with_taken source.now number revision self.old) }
        ensures before { IfOk result (λ before. before ≡ get self.old source.now) }
        ensures unchanged { OnErr result (self.new ≡ self.old) }
    {
        match self.place_near(source.as_str(), place_hint) {
            Ok(i) => {
                let before = self.list[i].1.copy();
                self.take_at(i, number, revision);
                Ok(Some(before))
            }
            Err(i) => {
                self.add_at(i, source.copy(alloc)?, Window::of_one(number, revision))?;
                Ok(None)
            }
        }
    }

    /// Notes a command of a source as `note` does, and leaves the window that it had.
    pub(crate) fn take(
        &mut self,
        alloc: Global,
        source: &Name,
        number: u64,
        revision: u64,
        place_hint: usize,
    ) -> Result<(), AllocError>
        requires { is_source_name source.now ≡ true }
        ensures ok { OnOk result (self.new ≡ with_taken source.now number revision self.old) }
        ensures unchanged { OnErr result (self.new ≡ self.old) }
    {
        match self.place_near(source.as_str(), place_hint) {
            Ok(i) => {
                self.take_at(i, number, revision);
                Ok(())
            }
            Err(i) => self.add_at(i, source.copy(alloc)?, Window::of_one(number, revision)),
        }
    }

    /// Gives a source that is there the window that it had before, and drops it where it had none. One place is tried first. It takes no
    /// memory.
    pub(crate) fn put_back(&mut self, source: &Name, before: Option<Window>, place_hint: usize)
        requires named { is_source_name source.now ≡ true }
        requires there { is_some (get self.old source.now) ≡ true }
        ensures { self.new ≡ with_entry source.now before self.old }
    {
        match before {
            Some(window) => {
                let _ = self.renew(source, window, place_hint);
            }
            None => self.remove(source),
        }
    }

    /// Drops a source, where it is there. It takes no memory.
    pub fn remove(&mut self, source: &Name)
        ensures { self.new ≡ remove self.old source.now }
    {
        if let Ok(i) = self.place(source.as_str()) {
            let (_, window) = self.list.remove(i);
            self.numbers -= window.count() as u128;
        }
    }

    /// Equal sources, or `NoMemory`.
    pub fn copy(&self, alloc: Global) -> Result<Sources, AllocError>
        ensures same { IfOk result (λ sources. sources ≡ self.now) }
    {
        Ok(Sources {
            list: copy_of(alloc, self.entries())?,
            numbers: self.numbers,
        })
    }

    /// The same sources, each with its last number alone. Refused as out of memory alone.
    pub fn with_last_numbers(&self, alloc: Global) -> Result<Sources, AllocError>
        ensures cut { IfOk result (λ sources. sources.entries ≡ map cut self.now.entries) }
    {
        Ok(Sources {
            list: last_numbers_of(alloc, self.entries())?,
            numbers: self.list.len() as u128,
        })
    }
}

impl PartialEq for Sources {
    ghost use Rattle.std.specs.Cmp.{decided, partial_equiv_from_equiv};
    ghost use Rattle.revision.specs.Sources.{same_sources, same_sources-Decides};

    ghost eq = { same_sources };

    ghost laws = { partial_equiv_from_equiv (decided same_sources same_sources-Decides) };

    fn eq(&self, other: &Self) -> bool {
        self.entries() == other.entries()
    }
}

// Sources with their last numbers alone, in order.
fn last_numbers_of(
    alloc: Global,
    entries: &[(Name, Window)],
) -> Result<Vec<(Name, Window)>, AllocError>
    ensures cut { IfOk result (λ list. list.items ≡ map cut entries.now) }
{
    let mut list = Vec::new(alloc);
    for (source, window) in entries {
        let last = Window::of_one(window.number(), window.last_revision());
        list.push((source.copy(alloc)?, last))?;
    }
    Ok(list)
}

// How two names stand to each other in the order of their bytes. They are compared byte by byte, which for such short texts takes a
// third of what comparing them as texts takes.
#[tactic(auto, using(crate::proofs::Halves::bytes_compared))]
fn order(name: &str, other: &str) -> Ordering
    ensures { result ≡ by_bytes name.now other.now }
{
    match name.as_bytes().partial_cmp(&other.as_bytes()) {
        Some(order) => order,
        None => unreachable!(),
    }
}

/// The window that was found, the empty one where there is none.
pub(crate) fn window_in(found: &Option<Window>) -> Window
    ensures { result ≡ unwrap_or found.now nothing_taken }
{
    match found {
        Some(window) => window.copy(),
        None => Window::new(),
    }
}

// What a number more of a source that has this adds to the weight: a source that is new, a number by which its window is longer, or
// nothing where the lowest number of the window goes.
fn weight_more(limits: Limits, found: &Option<Window>) -> u64
    ensures more { result ≡ more_weight limits found.now }
    ensures fits { Fits found.now }
    ensures retry { limits.retry ≤ 8 }
{
    let retry = u64::from(limits.retry());
    match found {
        Some(window) => { if window.is_short() { retry } else { 0 } }
        None => 64,
    }
}

fn copy_of(alloc: Global, entries: &[(Name, Window)]) -> Result<Vec<(Name, Window)>, AllocError>
    ensures same { IfOk result (λ list. list.items ≡ entries.now) }
{
    let mut list = Vec::new(alloc);
    for (source, window) in entries {
        list.push((source.copy(alloc)?, window.copy()))?;
    }
    Ok(list)
}
