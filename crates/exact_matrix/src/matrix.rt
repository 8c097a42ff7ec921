// A matrix in one piece of memory, row after row.

ghost use Rattle.exact_matrix.specs.Grid.{IsGrid, row_at, with_row, rows_of};
ghost use Rattle.elimination_law.specs.Calculation.{divided_in};
ghost use Rattle.frac_core.specs.Row.{IsRow, row_less};
ghost use Rattle.std.specs.Prelude.{◌≡◌, ◌<◌, ◌*◌, length, replicate, slice_get, slice_set, map, pos, unsigned_abs, ◌≢◌, Some, IfOk};

use crate::rows::divide;
use frac_core::{ExactField, Memory, Refused, take_times};
use std::alloc::Global;
use std::marker::Model;

/// A matrix, as the list of its rows, which have one length, and the number of its columns.
#[derive(Drop)]
pub struct Matrix<F> {
    /// Row after row, `rows` times `columns` of them.
    entries: Vec<F>,
    rows: usize,
    columns: usize,
}

impl<F> Model for Matrix<F> {
    ghost use Rattle.std.specs.Prelude.{◌≡◌, ◌*◌, length};
    ghost use Rattle.exact_matrix.specs.Grid.{Grid, rows_of};

    ghost Value = { Grid F };

    ghost view = { λ m. record { columns = m.columns; rows = rows_of m.columns m.rows m.entries.items } };

    ghost invariant = { λ m. length m.entries.items ≡ m.rows * m.columns };
}

/// A value so many times.
fn repeated<F: Copy + Drop>(alloc: Global, count: usize, value: F) -> Result<Vec<F>, Memory>
    ensures { IfOk result (λ entries. entries.items ≡ replicate count value) }
{
    let mut entries = Vec::new(alloc);
    entries.resize(count, value)?;
    Ok(entries)
}

impl<F: Copy + Drop> Matrix<F> {
    /// `rows` rows of `columns` entries, each of them `value`. A matrix of more entries than an index
    /// can count is out of memory.
    pub fn filled(alloc: Global, rows: usize, columns: usize, value: F) -> Result<Matrix<F>, Memory>
        ensures { IfOk result (λ m. m ≡ record { columns = columns; rows = replicate rows (replicate columns value) }) }
    {
        let count = rows.checked_mul(columns).ok_or(Memory)?;
        let entries = repeated(alloc, count, value)?;
        Ok(Matrix {
            entries,
            rows,
            columns,
        })
    }

    /// How many rows.
    pub fn rows(&self) -> usize
        ensures { result ≡ length self.now.rows }
    {
        self.rows
    }

    /// How many columns. Each row has as many entries.
    pub fn columns(&self) -> usize
        ensures value { result ≡ self.now.columns }
        ensures shape { IsGrid self.now }
    {
        self.columns
    }

    /// The row at `i`.
    pub fn row(&self, i: usize) -> &[F]
        requires { i < length self.now.rows }
        ensures value { result.now ≡ row_at self.now i }
        ensures length { length result.now ≡ self.now.columns }
    {
        let start = i * self.columns;
        &self.entries[start..start + self.columns]
    }

    /// The entry in the row at `i` and the column at `j`.
    pub fn at(&self, i: usize, j: usize) -> F
        requires row { i < length self.now.rows }
        requires column { j < self.now.columns }
        ensures { slice_get (row_at self.now i) j ≡ Some result }
    {
        self.entries[i * self.columns + j]
    }

    /// Puts a value in the place of the entry in the row at `i` and the column at `j`.
    pub fn set(&mut self, i: usize, j: usize, value: F)
        requires row { i < length self.old.rows }
        requires column { j < self.old.columns }
        ensures { self.new ≡ with_row self.old i (slice_set (row_at self.old i) j value) }
    {
        let place = i * self.columns + j;
        self.entries[place] = value;
    }
}

impl<F: ExactField> Matrix<F> {
    /// The matrix of `rows` rows of `columns` entries that stand one after another.
    pub fn of_rows(entries: Vec<F>, rows: usize, columns: usize) -> Matrix<F>
        requires { length entries.items ≡ rows * columns }
        ensures { result ≡ record { columns = columns; rows = rows_of columns rows entries.items } }
    {
        Matrix {
            entries,
            rows,
            columns,
        }
    }

    /// Divides the row at `i` by `q`, and stops with the first refusal.
    pub(crate) fn divide(&mut self, i: usize, q: F) -> Result<(), Refused>
        requires row { i < length self.old.rows }
        requires divisor { (F.value q).num ≢ pos 0 }
        ensures row { IsRow F.value result (row_at self.new i) (divided_in (unsigned_abs F.TOP) (F.value q) (map F.value (row_at self.old i))) }
        ensures rest { self.new ≡ with_row self.old i (row_at self.new i) }
    {
        let start = i * self.columns;
        let end = start + self.columns;
        divide(&mut self.entries[start..end], q)
    }

    /// Takes `f` times `other` from the row at `i`, and stops with the first refusal.
    pub(crate) fn take_times(&mut self, i: usize, f: F, other: &[F]) -> Result<(), Refused>
        requires row { i < length self.old.rows }
        requires other { length other.now ≡ self.old.columns }
        ensures row { IsRow F.value result (row_at self.new i) (row_less (unsigned_abs F.TOP) (F.value f) (map F.value (row_at self.old i)) (map F.value other.now)) }
        ensures rest { self.new ≡ with_row self.old i (row_at self.new i) }
    {
        let start = i * self.columns;
        let end = start + self.columns;
        take_times(&mut self.entries[start..end], f, other)
    }
}
