// The rows, with what each of them is.

ghost use Rattle.std.specs.Prelude.{◌≡◌, ◌≢◌, ◌<◌, ◌≤◌, ◌++◌, ◌∷◌, [], ◌&&◌, nat_le, is_some, None, Some, true, length, slice_get, IfSome, OnOk};
ghost use Rattle.program_law.specs.Places.{place_of};
ghost use Rattle.program_law.specs.Program.{IsName, marker, most_rows};
ghost use Rattle.mps_grammar.specs.Told.{binds, program_rows, objective_in, used_names};
ghost use Rattle.named_things.specs.Named.{names_of, things_of};
ghost use Rattle.named_things.specs.Names.{Differ, name_at};
ghost use Rattle.mps_notes.specs.Names.{AreNames};
ghost use Rattle.mps_notes.specs.Entries.{most_places, place_after};

use frac_core::Memory;
use mps_tokens::RowKind;
use named_things::Named;
use program_law::MOST_ROWS;
use std::alloc::Global;
use std::marker::Model;

/// A row's kind, and its place among the objective and the rows of the program, where it is one of them.
#[derive(Clone, Copy)]
pub struct RowUse {
    pub kind: RowKind,
    pub place: Option<usize>,
}

/// The rows with their kinds, in order.
#[derive(Drop)]
pub struct Rows {
    named: Named<RowUse>,
    /// How many are rows of the program.
    bound: usize,
    /// Whether there is an objective.
    objective: bool,
}

impl Model for Rows {
    ghost use Rattle.std.specs.Prelude.{List, ℕ};
    ghost use Rattle.mps_tokens.specs.declared.words.RowKind.{RowKind};

    ghost Value = { List (List ℕ × RowKind) };

    ghost use Rattle.mps_notes.specs.Rows.{kinds_in, IsRows};

    ghost view = { kinds_in };

    ghost invariant = { IsRows };
}

/// Whether a row of this kind is a row of the program.
fn is_bound(kind: RowKind) -> bool
    ensures { result ≡ binds kind }
{
    match kind {
        RowKind::Objective => false,
        RowKind::AtMost | RowKind::AtLeast | RowKind::Equal => true,
    }
}

/// The place of a row that comes after so many rows of the program, and after an objective or before it.
fn next_place(binds: bool, bound: usize, objective: bool) -> Option<usize>
    requires { bound ≤ most_rows }
    ensures { result ≡ place_after binds bound objective }
{
    if binds {
        Some(bound + 1)
    } else if objective {
        None
    } else {
        Some(0)
    }
}

impl Rows {
    /// No rows.
    pub fn new(alloc: Global) -> Self
        ensures { result ≡ [] }
    {
        Rows {
            named: Named::new(alloc),
            bound: 0,
            objective: false,
        }
    }

    /// How many there are, further N rows among them.
    pub fn len(&self) -> usize
        ensures { result ≡ length self.now }
    {
        self.named.len()
    }

    /// The rows by their names.
    pub fn names(&self) -> &Named<RowUse>
        ensures names { names_of result.now ≡ names_of self.now }
        ensures differ { Differ (names_of self.now) }
        ensures good { AreNames (names_of self.now) }
    {
        &self.named
    }

    /// The name of a row.
    pub fn name(&self, row: usize) -> &[u8]
        requires { row < length self.now }
        ensures found { slice_get (names_of self.now) row ≡ Some result.now }
        ensures name { IsName result.now }
        ensures marker { result.now ≢ marker }
    {
        self.named.name(row)
    }

    /// The kind of a row.
    pub fn kind(&self, row: usize) -> RowKind
        requires { row < length self.now }
        ensures { slice_get (things_of self.now) row ≡ Some result }
    {
        self.named.thing(row).kind
    }

    /// The place of a row among the objective and the rows of the program.
    pub fn place(&self, row: usize) -> Option<usize>
        requires { row < length self.now }
        ensures place { result ≡ place_of (used_names self.now) (name_at (names_of self.now) row) }
        ensures within { IfSome result (λ k. k < most_places) }
    {
        self.named.thing(row).place
    }

    /// Whether there is an objective.
    pub fn has_objective(&self) -> bool
        ensures { result ≡ is_some (objective_in self.now) }
    {
        self.objective
    }

    /// Whether there is no room for another row of this kind.
    pub fn is_full(&self, kind: RowKind) -> bool
        ensures { result ≡ (binds kind && nat_le most_rows (length (program_rows self.now))) }
    {
        is_bound(kind) && self.bound >= MOST_ROWS
    }

    /// Puts a row last, under a new name.
    pub fn push(&mut self, alloc: Global, name: &[u8], kind: RowKind) -> Result<(), Memory>
        requires absent { place_of (names_of self.old) name.now ≡ None }
        requires name { IsName name.now }
        requires marker { name.now ≢ marker }
        requires room { binds kind ≡ true → length (program_rows self.old) < most_rows }
        ensures { OnOk result (self.new ≡ self.old ++ (name.now, kind) ∷ []) }
    {
        let binds = is_bound(kind);
        let place = next_place(binds, self.bound, self.objective);
        let row = RowUse { kind, place };
        let name = Vec::from_slice(alloc, name)?;
        self.named.push(name, row)?;
        if binds {
            self.bound += 1;
        } else {
            self.objective = true;
        }
        Ok(())
    }
}
