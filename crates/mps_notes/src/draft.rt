// What the lines of a text tell, for those who make a program of it.

ghost use Rattle.std.specs.Prelude.{◌≡◌, ◌≢◌, ◌<◌, ◌≤◌, Some, length, slice_get};
ghost use Rattle.program_law.specs.Places.{place_of};
ghost use Rattle.program_law.specs.Program.{IsName, marker, most_columns};
ghost use Rattle.mps_grammar.specs.Told.{used_names};
ghost use Rattle.mps_grammar.specs.Programs.{is_quadobj, gives_pairs_once};
ghost use Rattle.named_things.specs.Named.{names_of, things_of};
ghost use Rattle.named_things.specs.Names.{Differ, name_at};
ghost use Rattle.mps_notes.specs.Entries.{target_at};
ghost use Rattle.mps_notes.specs.Told.{tellings_of, bounds_of, AreEntries, AreBounds};
ghost use Rattle.mps_notes.specs.Notes.{no_column, told_in, IsSound};

use crate::bounds::Bound;
use crate::notes::Notes;
use crate::numbers::{Entry, Target, target_of};
use mps_tokens::{RowKind, Section};
use std::marker::Model;

/// Whether the section gives each unordered pair once.
pub fn gives_once(section: Section) -> bool
    ensures { result ≡ is_quadobj section }
{
    matches!(section, Section::QuadObj)
}

/// What the lines of a text tell. Rows and columns have numbers in the order of the file, further N rows among the rows.
#[derive(Drop)]
pub struct Draft {
    notes: Notes,
}

impl Model for Draft {
    ghost use Rattle.mps_grammar.specs.Told.{Told};

    ghost Value = { Told };

    ghost use Rattle.mps_notes.specs.Notes.{told_in, IsSound};

    ghost view = { λ d. told_in d.notes };

    ghost invariant = { λ d. IsSound d.notes };
}

impl Draft {
    /// What is kept, as what it tells.
    pub fn of(notes: Notes) -> Draft
        requires { IsSound notes }
        ensures { result ≡ told_in notes }
    {
        Draft { notes }
    }

    /// How many rows there are, further N rows among them.
    pub fn rows(&self) -> usize
        ensures count { result ≡ length self.now.rows }
        ensures differ { Differ (names_of self.now.rows) }
    {
        self.notes.rows.len()
    }

    /// The name of a row.
    pub fn row_name(&self, row: usize) -> &[u8]
        requires { row < length self.now.rows }
        ensures found { slice_get (names_of self.now.rows) row ≡ Some result.now }
        ensures name { IsName result.now }
        ensures marker { result.now ≢ marker }
    {
        self.notes.rows.name(row)
    }

    /// The kind of a row.
    pub fn row_kind(&self, row: usize) -> RowKind
        requires { row < length self.now.rows }
        ensures { slice_get (things_of self.now.rows) row ≡ Some result }
    {
        self.notes.rows.kind(row)
    }

    /// What a row is for the program.
    pub fn target(&self, row: usize) -> Target
        requires { row < length self.now.rows }
        ensures { result ≡ target_at (place_of (used_names self.now.rows) (name_at (names_of self.now.rows) row)) }
    {
        target_of(self.notes.rows.place(row))
    }

    /// How many columns there are.
    pub fn columns(&self) -> usize
        ensures count { result ≡ length self.now.columns }
        ensures few { result ≤ most_columns }
        ensures differ { Differ (names_of self.now.columns) }
    {
        self.notes.columns.len()
    }

    /// The name of a column.
    pub fn column_name(&self, column: usize) -> &[u8]
        requires { column < length self.now.columns }
        ensures found { slice_get (names_of self.now.columns) column ≡ Some result.now }
        ensures name { IsName result.now }
    {
        self.notes.columns.name(column)
    }

    /// Whether a column was marked by a stretch.
    pub fn column_mark(&self, column: usize) -> bool
        requires { column < length self.now.columns }
        ensures { slice_get (things_of self.now.columns) column ≡ Some result }
    {
        self.notes.columns.thing(column)
    }

    /// The entries and costs, in order.
    pub fn entries(&self) -> &[Entry]
        ensures told { self.now.entries ≡ tellings_of (names_of self.now.columns) (names_of self.now.rows) result.now }
        ensures within { AreEntries (names_of self.now.columns) (names_of self.now.rows) (used_names self.now.rows) result.now }
    {
        self.notes.entries.entries()
    }

    /// The right sides of the used set, in order. Their column is 0.
    pub fn sides(&self) -> &[Entry]
        ensures told { self.now.sides ≡ tellings_of no_column (names_of self.now.rows) result.now }
        ensures within { AreEntries no_column (names_of self.now.rows) (used_names self.now.rows) result.now }
    {
        self.notes.sides.numbers.entries()
    }

    /// The ranges of the used set, in order. Their column is 0.
    pub fn ranges(&self) -> &[Entry]
        ensures told { self.now.ranges ≡ tellings_of no_column (names_of self.now.rows) result.now }
        ensures within { AreEntries no_column (names_of self.now.rows) (used_names self.now.rows) result.now }
    {
        self.notes.ranges.numbers.entries()
    }

    /// The bounds of the used set, in order.
    pub fn bounds(&self) -> &[Bound]
        ensures told { self.now.bounds ≡ bounds_of (names_of self.now.columns) result.now }
        ensures within { AreBounds (names_of self.now.columns) result.now }
    {
        &self.notes.bounds.items
    }

    /// The entries of Q that the lines give, in order. Their row is the second column.
    pub fn pairs(&self) -> &[Entry]
        ensures told { self.now.pairs ≡ tellings_of (names_of self.now.columns) (names_of self.now.columns) result.now }
        ensures within { AreEntries (names_of self.now.columns) (names_of self.now.columns) (names_of self.now.columns) result.now }
    {
        self.notes.pairs.entries()
    }

    /// Whether the lines give each unordered pair of Q once, which stands for both triangles.
    pub fn gives_pairs_once(&self) -> bool
        ensures { result ≡ gives_pairs_once self.now }
    {
        self.notes
            .sections
            .iter()
            .any(|section| gives_once(*section))
    }
}
