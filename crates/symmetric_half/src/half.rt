// Its rows, one after another.

ghost use Rattle.symmetric_half.specs.Chain.{row_answered};
ghost use Rattle.frac_core.specs.Calculated.{Leaves};
ghost use Rattle.frac_core.specs.Parts.{max_part};
ghost use Rattle.frac_core.specs.Row.{row_less};
ghost use Rattle.program_law.specs.Program.{most_columns};
ghost use Rattle.symmetric_half.specs.Half.{upper_half, IsHalf};
ghost use Rattle.symmetric_half.specs.Triangle.{start_of, count_of};
ghost use Rattle.rational.specs.Vectors.{row_at};
ghost use Rattle.std.specs.Prelude.{◌≡◌, ◌<◌, ◌≤◌, ◌+◌, ◌-◌, [], length, slice_set, IfOk};

use frac_core::{Frac, Memory, Refused, take_times};
use program_data::Program;
use std::alloc::Global;
use std::marker::Model;

/// The upper half of a symmetric matrix of at most as many rows as a program has columns: of each row the entries from the diagonal on.
#[derive(Drop)]
pub struct Half {
    /// Row after row, from the diagonal on: `size`, `size` - 1, .. and 1 of them.
    entries: Vec<Frac>,
    /// How many rows there are.
    size: usize,
}

impl Model for Half {
    ghost use Rattle.std.specs.Prelude.{◌≡◌, ◌≤◌, List, length};
    ghost use Rattle.rational.specs.Rational.{ℚ};
    ghost use Rattle.program_law.specs.Program.{most_columns};
    ghost use Rattle.symmetric_half.specs.Triangle.{rows_of, count_of};

    ghost Value = { List (List ℚ) };

    ghost view = { λ h. rows_of h.size h.entries.items };

    ghost invariant = { λ h. (h.size ≤ most_columns) × (length h.entries.items ≡ count_of h.size) };
}

/// Where the row at `j` begins and ends.
fn part_of(size: usize, j: usize) -> (usize, usize)
    requires size { size ≤ most_columns }
    requires place { j < size }
    ensures start { result.0 ≡ start_of size j }
    ensures end { result.1 ≡ start_of size j + (size - j) }
    ensures within { result.1 ≤ count_of size }
{
    let start = j * (2 * size + 1 - j) / 2;
    (start, start + (size - j))
}

impl Half {
    /// The upper half of a program's form.
    ///
    /// # Errors
    ///
    /// `Memory`.
    pub fn of(alloc: Global, p: &Program) -> Result<Half, Memory>
        ensures { IfOk result (λ h. h ≡ upper_half p.now.pairs) }
    {
        let size = p.columns();
        let mut entries = Vec::new(alloc);
        for j in 0..size {
            entries.extend_from_slice(&p.pairs_of(j)[j as usize..])?;
        }
        Ok(Half {
            entries,
            size: size as usize,
        })
    }

    /// How many rows there are.
    pub fn size(&self) -> usize
        ensures size { result ≡ length self.now }
        ensures half { IsHalf result self.now }
        ensures few { result ≤ most_columns }
    {
        self.size
    }

    /// The row at `j`, from the diagonal on.
    pub fn row(&self, j: usize) -> &[Frac]
        requires { j < length self.now }
        ensures row { result.now ≡ row_at self.now j }
        ensures width { j + length result.now ≡ length self.now }
    {
        let (start, end) = part_of(self.size, j);
        &self.entries[start..end]
    }

    /// Takes `f` times `v` from the row at `k`.
    ///
    /// # Errors
    ///
    /// The first operation whose exact result doesn't fit. What the row is then isn't said.
    pub fn take_times(&mut self, k: usize, f: Frac, v: &[Frac]) -> Result<(), Refused>
        requires row { k < length self.old }
        requires width { k + length v.now ≡ length self.old }
        ensures row { Leaves (row_at self.new k) result (row_answered (row_less max_part f (row_at self.old k) v.now)) }
        ensures rest { self.new ≡ slice_set self.old k (row_at self.new k) }
    {
        let (start, end) = part_of(self.size, k);
        take_times(&mut self.entries[start..end], f, v)
    }

    /// Puts a row in the place of the row at `j`.
    pub fn put(&mut self, j: usize, row: &[Frac])
        requires row { j < length self.old }
        requires width { j + length row.now ≡ length self.old }
        ensures { self.new ≡ slice_set self.old j row.now }
    {
        let (start, end) = part_of(self.size, j);
        self.entries[start..end].copy_from_slice(row);
    }
}
