//! What is known of the entries of each open segment: the greatest revision of each document.
ghost use Rattle.std.specs.Prelude.{◌≡◌, ◌+◌, ◌-◌, ◌≤◌, ◌<◌, [], max, ◌==◌, ◌&&◌, length, OnOk, filter, not, get_or, IfSome};
ghost use Rattle.recovery.specs.Marks.{Raised, IsNoted, marks_of, room_of, is_of};

use revision::Taken;
use std::alloc::{AllocError, Global};

/// The greatest revision of a document among the entries of a segment.
#[derive(Clone, Copy, Debug, PartialEq, Eq)]
pub struct Mark {
    /// The segment's number.
    pub segment: u64,
    /// The document's number in order of creation.
    pub document: u32,
    /// The revision.
    pub revision: u64,
}

/// Documents of numbers up to this one are found in the table of places: a store has no more.
const MOST_DOCUMENTS: u32 = 65_536;

/// A mark for each document that has entries in an open segment. It grows with what the segments hold, and what is known of a
/// segment is forgotten when the segment is retired.
///
/// Beside the list a table has the place of each document's newest mark, so that a mark is raised without a search. It is a
/// guess: where another mark stands at the place, or none, a new one is set.
#[derive(Debug, Drop)]
pub struct Marks {
    list: Vec<Mark>,
    places: Vec<usize>,
}

impl Marks {
    /// No marks. It takes no memory.
    pub fn new(alloc: Global) -> Marks
        ensures { marks_of result ≡ [] }
    {
        Marks {
            list: Vec::new(alloc),
            places: Vec::new(alloc),
        }
    }

    /// All marks.
    pub fn all(&self) -> &[Mark]
        ensures { result.now ≡ marks_of self.now }
    {
        self.list.as_slice()
    }

    /// Makes room for the commands of a batch, so that noting them takes no memory.
    pub fn make_room(&mut self, batch: &[Taken]) -> Result<(), AllocError>
        ensures same { marks_of self.new ≡ marks_of self.old }
        ensures room { OnOk result (length batch.now ≤ room_of self.new) }
    {
        cover_all(&mut self.places, batch)?;
        self.list.reserve(batch.len())?;
        Ok(())
    }

    /// Notes the commands of a batch that was appended to a segment. It takes no memory, since room was made for them.
    pub fn note(&mut self, segment: u64, batch: &[Taken])
        requires { length batch.now ≤ room_of self.old }
        ensures { IsNoted segment batch.now (marks_of self.old) (marks_of self.new) }
    {
        for taken in batch {
            self.raise(segment, taken.document_number(), taken.revision());
        }
    }

    // Raises the mark of a document in a segment to a revision where it is lower, or sets one where there is none.
    fn raise(&mut self, segment: u64, document: u32, revision: u64)
        requires { 1 ≤ room_of self.old }
        ensures raised { Raised segment document revision (marks_of self.old) (marks_of self.new) }
        ensures room { room_of self.old ≤ room_of self.new + 1 }
    {
        if let Some((place, mark)) = self.mark_of(segment, document) {
            self.list[place] = Mark {
                segment,
                document,
                revision: mark.revision.max(revision),
            };
            return;
        }
        set_place(&mut self.places, document, self.list.len());
        self.list
            .push(Mark {
                segment,
                document,
                revision,
            })
            .unwrap();
    }

    // The mark of a document in a segment with its place, where the table has it.
    fn mark_of(&self, segment: u64, document: u32) -> Option<(usize, Mark)>
        ensures there { IfSome result (λ found. (found.0 < length (marks_of self.now))
            × (get_or (marks_of self.now) found.0 found.1 ≡ found.1)) }
        ensures own { IfSome result (λ found. (found.1.segment ≡ segment) × (found.1.document ≡ document)) }
    {
        let place = place_of(self.places.as_slice(), document)?;
        if place >= self.list.len() {
            return None;
        }
        let mark = self.list[place];
        if mark.segment == segment && mark.document == document {
            Some((place, mark))
        } else {
            None
        }
    }

    /// Forgets a segment that was retired. It takes no memory.
    pub fn forget(&mut self, segment: u64)
        ensures { marks_of self.new ≡ filter (λ mark. not (is_of segment mark)) (marks_of self.old) }
    {
        self.list.retain(|mark| mark.segment != segment);
        find_places(&mut self.places, self.list.as_slice());
    }
}

// The place that the table has for a document.
fn place_of(places: &[usize], document: u32) -> Option<usize> {
    let number = document as usize;
    if number < places.len() {
        Some(places[number])
    } else {
        None
    }
}

// Notes a place for a document, where the table has one for it.
fn set_place(places: &mut Vec<usize>, document: u32, place: usize) {
    let number = document as usize;
    if number < places.len() {
        places[number] = place;
    }
}

// Adds places to the table so that it has one for the document of each command. Refused as out of memory alone.
fn cover_all(places: &mut Vec<usize>, batch: &[Taken]) -> Result<(), AllocError> {
    for taken in batch {
        cover(places, taken.document_number())?;
    }
    Ok(())
}

// Adds places to the table so that it has one for this document. Refused as out of memory alone.
fn cover(places: &mut Vec<usize>, document: u32) -> Result<(), AllocError> {
    if document >= MOST_DOCUMENTS {
        return Ok(());
    }
    for _ in places.len()..document as usize + 1 {
        places.push(0)?;
    }
    Ok(())
}

// Puts the place of each mark into the table, the last one of each document where it has more.
fn find_places(places: &mut Vec<usize>, list: &[Mark]) {
    for place in 0..list.len() {
        set_place(places, list[place].document, place);
    }
}
