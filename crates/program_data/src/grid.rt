// Rows of numbers, each with room for as many columns as there may be.

ghost use Rattle.std.specs.Prelude.{◌≡◌, ◌<◌, ◌-◌, ◌++◌, ◌∷◌, [], length, take, IfOk, OnOk, OnErr};
ghost use Rattle.rational.specs.Rational.{ℚ, zero_ℚ};
ghost use Rattle.program_law.specs.Changes.{zeros, with_place};
ghost use Rattle.program_law.specs.Program.{most_columns};
ghost use Rattle.rational.specs.Vectors.{row_at};

use frac_core::{Frac, Memory};
use program_law::MOST_COLUMNS;
use std::alloc::Global;
use std::marker::Model;

/// As many zeros as there may be columns.
pub fn zero_row(alloc: Global) -> Result<Vec<Frac>, Memory>
    ensures { IfOk result (λ row. row.items ≡ zeros most_columns) }
{
    let mut row = Vec::with_capacity(alloc, MOST_COLUMNS)?;
    for _ in 0..MOST_COLUMNS {
        row.push(Frac::whole(0))?;
    }
    Ok(row)
}

/// Rows of numbers.
#[derive(Drop)]
pub struct Grid {
    rows: Vec<Vec<Frac>>,
}

impl Model for Grid {
    ghost use Rattle.std.specs.Prelude.{List, map};
    ghost use Rattle.rational.specs.Rational.{ℚ};

    ghost Value = { List (List ℚ) };

    ghost view = { λ grid. map (λ row. row.items) grid.rows.items };
}

impl Grid {
    pub fn new(alloc: Global) -> Self
        ensures { result ≡ [] }
    {
        Grid {
            rows: Vec::new(alloc),
        }
    }

    /// Puts a row of zeros last.
    pub fn push_zeros(&mut self) -> Result<(), Memory>
        ensures ok { OnOk result (self.new ≡ self.old ++ zeros most_columns ∷ []) }
        ensures err { OnErr result (self.new ≡ self.old) }
    {
        let row = zero_row(*self.rows.allocator())?;
        self.rows.push(row)?;
        Ok(())
    }

    /// Takes the last row away.
    pub fn pop(&mut self)
        ensures { self.new ≡ take (length self.old - 1) self.old }
    {
        self.rows.pop();
    }

    /// The row at a place.
    pub fn row(&self, i: usize) -> &[Frac]
        requires { i < length self.now }
        ensures { result.now ≡ row_at self.now i }
    {
        &self.rows[i]
    }

    /// Puts a number at a place.
    pub fn set(&mut self, i: usize, j: usize, value: Frac)
        requires row { i < length self.old }
        requires column { j < length (row_at self.old i) }
        ensures { self.new ≡ with_place self.old i j value }
    {
        let row = &mut self.rows[i];
        row[j] = value;
    }
}
