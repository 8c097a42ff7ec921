// What eliminated rows answer.

ghost use Rattle.elimination_law.specs.Answers.{answer_of, entry_in, inverse_from, row_of_pivot, solution_from};
ghost use Rattle.exact_matrix.specs.State.{state};
ghost use Rattle.exact_matrix.specs.Systems.{answer_value, joined, IsPlaceOfPivot};
ghost use Rattle.std.specs.Option.{option_map};
ghost use Rattle.std.specs.Prelude.{◌≡◌, ◌<◌, ◌≤◌, drop, length, map, IfOk};

use crate::elimination::{is_pivot, pivot_place};
use crate::matrix::Matrix;
use crate::systems::Solved;
use frac_core::{ExactField, Memory, Vector};
use std::alloc::Global;

/// The place of the row that has the pivot of the column at `j`.
fn place_of_pivot(pivots: &Vector<Option<usize>>, j: usize) -> Option<usize>
    ensures { IsPlaceOfPivot j pivots.now result }
{
    for i in 0..pivots.len() {
        if is_pivot(pivots.at(i), j) {
            return Some(i);
        }
    }
    None
}

/// The entry in the column at `at` in the row with the pivot of the column at `j`, and 0 where it
/// has none.
fn value_of<F: ExactField>(
    rows: &Matrix<F>,
    pivots: &Vector<Option<usize>>,
    j: usize,
    at: usize,
) -> F
    requires rows { length pivots.now ≡ length rows.now.rows }
    requires column { at < rows.now.columns }
    ensures { F.value result ≡ entry_in (row_of_pivot j (state F.value pivots.now rows.now)) at }
{
    match place_of_pivot(pivots, j) {
        Some(i) => rows.at(i, at),
        None => F::zero(),
    }
}

/// The values of the first `n` columns, where the column at `n` has the right sides.
fn solution<F: ExactField>(
    alloc: Global,
    rows: &Matrix<F>,
    pivots: &Vector<Option<usize>>,
    n: usize,
) -> Result<Vector<F>, Memory>
    requires rows { length pivots.now ≡ length rows.now.rows }
    requires column { n < rows.now.columns }
    ensures { IfOk result (λ z. map F.value z ≡ solution_from n 0 n (state F.value pivots.now rows.now)) }
{
    let mut z = Vector::new(alloc);
    for j in 0..n {
        z.push(value_of(rows, pivots, j, n))?;
    }
    Ok(z)
}

/// What the eliminated rows of [M | r | I] say, where M has `n` columns.
pub(crate) fn answer<F: ExactField>(
    alloc: Global,
    rows: &Matrix<F>,
    pivots: &Vector<Option<usize>>,
    n: usize,
) -> Result<Solved<F>, Memory>
    requires rows { length pivots.now ≡ length rows.now.rows }
    requires column { n < rows.now.columns }
    ensures { IfOk result (λ s. answer_value F.value s ≡ answer_of n (state F.value pivots.now rows.now)) }
{
    match pivot_place(rows, pivots, n) {
        Some(i) => {
            let w = Vector::of_slice(alloc, &rows.row(i)[n + 1..])?;
            Ok(Solved::Refuted(w, rows.at(i, n)))
        }
        None => {
            let z = solution(alloc, rows, pivots, n)?;
            Ok(Solved::Solution(z))
        }
    }
}

/// The parts from column `n` on of the rows with the pivots of the first `n` columns, one after
/// another; `None` where a column has no pivot.
pub(crate) fn inverse_entries<F: ExactField>(
    alloc: Global,
    rows: &Matrix<F>,
    pivots: &Vector<Option<usize>>,
    n: usize,
) -> Result<Option<Vec<F>>, Memory>
    requires rows { length pivots.now ≡ length rows.now.rows }
    requires columns { n ≤ rows.now.columns }
    ensures { IfOk result (λ o. option_map (λ e. map F.value e.items) o ≡ option_map joined (inverse_from n 0 n (state F.value pivots.now rows.now))) }
{
    let mut entries = Vec::new(alloc);
    for j in 0..n {
        match place_of_pivot(pivots, j) {
            Some(i) => entries.extend_from_slice(&rows.row(i)[n..])?,
            None => return Ok(None),
        }
    }
    Ok(Some(entries))
}
