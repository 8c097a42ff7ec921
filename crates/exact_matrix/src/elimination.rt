// The elimination of the first columns of a matrix.

ghost use Rattle.elimination_law.specs.Elimination.{is_pivot, may_pivot};
ghost use Rattle.elimination_law.specs.Calculation.{freed_in, each_freed_in, step_in, eliminated_in};
ghost use Rattle.exact_matrix.specs.Grid.{row_at, with_row};
ghost use Rattle.exact_matrix.specs.State.{state, IsPivotAt, IsPivotPlace, IsSameShape};
ghost use Rattle.frac_core.specs.Calculated.{Leaves};
ghost use Rattle.std.specs.Prelude.{◌≡◌, ◌<◌, ◌≤◌, length, map, unsigned_abs};

use crate::matrix::Matrix;
use frac_core::{ExactField, Refused, Vector, is_zero};

/// Whether the row at `i`, with the pivot of the column at `pivot`, is not used and not 0 in the column at `j`.
fn may_pivot<F: ExactField>(rows: &Matrix<F>, i: usize, pivot: Option<usize>, j: usize) -> bool
    requires row { i < length rows.now.rows }
    requires column { j < rows.now.columns }
    ensures { result ≡ may_pivot j (record { pivot = pivot; entries = map F.value (row_at rows.now i) }) }
{
    pivot.is_none() && !is_zero(rows.at(i, j))
}

/// The first row that is not used and not 0 in the column at `j`.
pub(crate) fn pivot_place<F: ExactField>(
    rows: &Matrix<F>,
    pivots: &Vector<Option<usize>>,
    j: usize,
) -> Option<usize>
    requires rows { length pivots.now ≡ length rows.now.rows }
    requires column { j < rows.now.columns }
    ensures { IsPivotPlace F.value j pivots.now rows.now result }
{
    for i in 0..rows.rows() {
        if may_pivot(rows, i, pivots.at(i), j) {
            return Some(i);
        }
    }
    None
}

/// Whether the column at `j` is the one with the pivot.
pub(crate) fn is_pivot(pivot: Option<usize>, j: usize) -> bool
    ensures { result ≡ is_pivot j pivot }
{
    match pivot {
        Some(k) => k == j,
        None => false,
    }
}

/// Frees the row at `i` of its entry in the column at `j`, by the pivot row `p` of that column.
fn free_row<F: ExactField>(
    rows: &mut Matrix<F>,
    i: usize,
    pivot: Option<usize>,
    j: usize,
    p: &[F],
) -> Result<(), Refused>
    requires row { i < length rows.old.rows }
    requires column { j < rows.old.columns }
    requires other { length p.now ≡ rows.old.columns }
    ensures line { Leaves (record { pivot = pivot; entries = map F.value (row_at rows.new i) }) result (freed_in (unsigned_abs F.TOP) j (map F.value p.now) (record { pivot = pivot; entries = map F.value (row_at rows.old i) })) }
    ensures rest { rows.new ≡ with_row rows.old i (row_at rows.new i) }
{
    if is_pivot(pivot, j) {
        return Ok(());
    }
    let factor = rows.at(i, j);
    if is_zero(factor) {
        return Ok(());
    }
    rows.take_times(i, factor, p)
}

/// Frees each row but the pivot row `p` of its entry in the column at `j`.
fn free_rows<F: ExactField>(
    rows: &mut Matrix<F>,
    pivots: &Vector<Option<usize>>,
    j: usize,
    p: &[F],
) -> Result<(), Refused>
    requires rows { length pivots.now ≡ length rows.old.rows }
    requires column { j < rows.old.columns }
    requires other { length p.now ≡ rows.old.columns }
    ensures lines { Leaves (state F.value pivots.now rows.new) result (each_freed_in (unsigned_abs F.TOP) j (map F.value p.now) (state F.value pivots.now rows.old)) }
    ensures shape { IsSameShape rows.old rows.new }
{
    for i in 0..rows.rows() {
        free_row(rows, i, pivots.at(i), j, p)?;
    }
    Ok(())
}

/// Eliminates the column at `j` where the row at `i` is its pivot row. `p` is room for that row.
fn clear_column<F: ExactField>(
    rows: &mut Matrix<F>,
    pivots: &mut Vector<Option<usize>>,
    i: usize,
    j: usize,
    p: &mut [F],
) -> Result<(), Refused>
    requires rows { length pivots.old ≡ length rows.old.rows }
    requires column { j < rows.old.columns }
    requires room { length p.old ≡ rows.old.columns }
    requires pivot { IsPivotAt F.value j pivots.old rows.old i }
    ensures lines { Leaves (state F.value pivots.new rows.new) result (step_in (unsigned_abs F.TOP) j (state F.value pivots.old rows.old)) }
    ensures shape { IsSameShape rows.old rows.new }
    ensures pivots { length pivots.new ≡ length pivots.old }
{
    let pivot = rows.at(i, j);
    rows.divide(i, pivot)?;
    pivots.set(i, Some(j));
    p.copy_from_slice(rows.row(i));
    free_rows(rows, pivots, j, p)
}

/// Eliminates the column at `j`, where a row may be its pivot row.
fn step<F: ExactField>(
    rows: &mut Matrix<F>,
    pivots: &mut Vector<Option<usize>>,
    j: usize,
    p: &mut [F],
) -> Result<(), Refused>
    requires rows { length pivots.old ≡ length rows.old.rows }
    requires column { j < rows.old.columns }
    requires room { length p.old ≡ rows.old.columns }
    ensures lines { Leaves (state F.value pivots.new rows.new) result (step_in (unsigned_abs F.TOP) j (state F.value pivots.old rows.old)) }
    ensures shape { IsSameShape rows.old rows.new }
    ensures pivots { length pivots.new ≡ length pivots.old }
{
    match pivot_place(rows, pivots, j) {
        Some(i) => clear_column(rows, pivots, i, j, p),
        None => Ok(()),
    }
}

/// Eliminates the first `n` columns. `p` is room for a row.
pub(crate) fn eliminate<F: ExactField>(
    rows: &mut Matrix<F>,
    pivots: &mut Vector<Option<usize>>,
    n: usize,
    p: &mut [F],
) -> Result<(), Refused>
    requires rows { length pivots.old ≡ length rows.old.rows }
    requires columns { n ≤ rows.old.columns }
    requires room { length p.old ≡ rows.old.columns }
    ensures lines { Leaves (state F.value pivots.new rows.new) result (eliminated_in (unsigned_abs F.TOP) n (state F.value pivots.old rows.old)) }
    ensures shape { IsSameShape rows.old rows.new }
    ensures pivots { length pivots.new ≡ length pivots.old }
{
    for j in 0..n {
        step(rows, pivots, j, p)?;
    }
    Ok(())
}
