// Numbers that lines tell, with a table of what was told.

ghost use Rattle.std.specs.Prelude.{◌≡◌, ◌<◌, ◌≤◌, ◌++◌, ◌∷◌, [], length, IfOk, IfSome, OnOk};
ghost use Rattle.program_law.specs.Program.{most_columns};
ghost use Rattle.mps_notes.specs.Entries.{most_places, is_marked, target_at};

use frac_core::{Frac, Memory, Vector};
use program_law::{MOST_COLUMNS, MOST_ROWS};
use std::alloc::Global;
use std::marker::Model;

/// How many places a column's numbers have: those of the objective and of the rows.
const MOST_PLACES: usize = MOST_ROWS + 1;

/// What a row of a file is for the program.
#[derive(Clone, Copy, Debug, PartialEq, Eq)]
pub enum Target {
    Objective,
    /// A row of the program, by its number.
    Row(usize),
    /// A further N row, which isn't used.
    Unused,
}

/// A number that a line tells for a column and a row, or for two columns.
#[derive(Clone, Copy)]
pub struct Entry {
    /// The line's number.
    pub line: u32,
    pub column: usize,
    /// The row, further N rows among them, or the second column.
    pub row: usize,
    /// The row's place among the objective and the rows of the program; the place of the second column.
    pub place: Option<usize>,
    pub value: Frac,
}

impl Entry {
    /// What the row is for the program.
    pub fn target(&self) -> Target
        ensures { result ≡ target_at self.now.place }
    {
        target_of(self.place)
    }
}

/// What a row is, by its place among the objective and the rows of the program.
pub(crate) fn target_of(place: Option<usize>) -> Target
    ensures { result ≡ target_at place }
{
    match place {
        None => Target::Unused,
        Some(0) => Target::Objective,
        Some(place) => Target::Row(place - 1),
    }
}

/// Entries in order, and for each column and place whether there is one.
#[derive(Drop)]
pub struct Numbers {
    entries: Vec<Entry>,
    marks: Vector<bool>,
}

impl Model for Numbers {
    ghost use Rattle.std.specs.Prelude.{List};
    ghost use Rattle.mps_notes.specs.declared.numbers.Entry.{Entry};

    ghost Value = { List Entry };

    ghost use Rattle.mps_notes.specs.Entries.{AreMarksOf};

    ghost view = { λ n. n.entries.items };

    ghost invariant = { λ n. AreMarksOf n.entries.items n.marks };
}

impl Numbers {
    /// No entries.
    pub fn new(alloc: Global) -> Result<Self, Memory>
        ensures { IfOk result (λ n. n ≡ []) }
    {
        let marks = Vector::filled(alloc, MOST_PLACES * MOST_COLUMNS, false)?;
        Ok(Numbers {
            entries: Vec::new(alloc),
            marks,
        })
    }

    /// The entries.
    pub fn entries(&self) -> &[Entry]
        ensures { result.now ≡ self.now }
    {
        &self.entries
    }

    /// Whether there is an entry for a column and a place.
    pub fn is_given(&self, column: usize, place: usize) -> bool
        requires column { column < most_columns }
        requires place { place < most_places }
        ensures { result ≡ is_marked self.now column place }
    {
        self.marks.at(MOST_PLACES * column + place)
    }

    /// Puts an entry last.
    pub fn push(&mut self, entry: Entry) -> Result<(), Memory>
        requires column { entry.column < most_columns }
        requires place { IfSome entry.place (λ k. k < most_places) }
        ensures { OnOk result (self.new ≡ self.old ++ entry ∷ []) }
    {
        let Entry { column, place, .. } = entry;
        self.entries.push(entry)?;
        if let Some(place) = place {
            self.marks.set(MOST_PLACES * column + place, true);
        }
        Ok(())
    }
}
