// The rows that are eliminated: those of [M | r | I] and of [M | I].

ghost use Rattle.elimination_law.specs.Answers.{invert_rows, solve_rows};
ghost use Rattle.exact_matrix.specs.Grid.{IsGrid, row_at};
ghost use Rattle.exact_matrix.specs.State.{values};
ghost use Rattle.rational.specs.Rational.{one_ℚ, zero_ℚ};
ghost use Rattle.rational.specs.Vectors.{unit_vector};
ghost use Rattle.std.specs.Prelude.{◌≡◌, ◌<◌, ◌+◌, ◌∷◌, ◌++◌, ◌==◌, if◌then◌else◌, slice_get, length, map, IfOk, OnOk, Some};

use crate::matrix::Matrix;
use frac_core::{ExactField, Memory, Vector};
use std::alloc::Global;

/// The entry at `k` of row `i` of a unit matrix.
fn unit_entry<F: ExactField>(k: usize, i: usize) -> F
    ensures { F.value result ≡ (if k == i then one_ℚ else zero_ℚ) }
{
    if k == i { F::one() } else { F::zero() }
}

/// Appends row `i` of the unit matrix of `size` rows.
fn push_unit<F: ExactField>(entries: &mut Vec<F>, size: usize, i: usize) -> Result<(), Memory>
    ensures { OnOk result (map F.value entries.new.items ≡ map F.value entries.old.items ++ unit_vector size i) }
{
    for k in 0..size {
        entries.push(unit_entry(k, i))?;
    }
    Ok(())
}

/// Appends row `i` of [M | r | I], where `right` is the entry of r.
fn push_solve_row<F: ExactField>(
    entries: &mut Vec<F>,
    m: &Matrix<F>,
    i: usize,
    right: F,
) -> Result<(), Memory>
    requires { i < length m.now.rows }
    ensures { OnOk result (map F.value entries.new.items ≡ map F.value entries.old.items ++ (map F.value (row_at m.now i) ++ F.value right ∷ unit_vector (length m.now.rows) i)) }
{
    entries.extend_from_slice(m.row(i))?;
    entries.push(right)?;
    push_unit(entries, m.rows(), i)
}

/// Appends row `i` of [M | I].
fn push_invert_row<F: ExactField>(
    entries: &mut Vec<F>,
    m: &Matrix<F>,
    i: usize,
) -> Result<(), Memory>
    requires { i < length m.now.rows }
    ensures { OnOk result (map F.value entries.new.items ≡ map F.value entries.old.items ++ (map F.value (row_at m.now i) ++ unit_vector (length m.now.rows) i)) }
{
    entries.extend_from_slice(m.row(i))?;
    push_unit(entries, m.rows(), i)
}

/// The rows of [M | r | I].
pub(crate) fn solve_rows<F: ExactField>(
    alloc: Global,
    m: &Matrix<F>,
    r: &Vector<F>,
) -> Result<Matrix<F>, Memory>
    requires right { length r.now ≡ length m.now.rows }
    requires shape { IsGrid m.now }
    ensures columns { IfOk result (λ s. s.columns ≡ m.now.columns + (length m.now.rows + 1)) }
    ensures rows { IfOk result (λ s. values F.value s ≡ solve_rows (values F.value m.now) (map F.value r.now)) }
{
    let rows = m.rows();
    let tail = rows.checked_add(1).ok_or(Memory)?;
    let width = m.columns().checked_add(tail).ok_or(Memory)?;
    let mut entries = Vec::new(alloc);
    for i in 0..rows {
        push_solve_row(&mut entries, m, i, r.at(i))?;
    }
    Ok(Matrix::of_rows(entries, rows, width))
}

/// The rows of [M | I].
pub(crate) fn invert_rows<F: ExactField>(alloc: Global, m: &Matrix<F>) -> Result<Matrix<F>, Memory>
    requires { IsGrid m.now }
    ensures columns { IfOk result (λ s. s.columns ≡ m.now.columns + length m.now.rows) }
    ensures rows { IfOk result (λ s. values F.value s ≡ invert_rows (values F.value m.now)) }
{
    let rows = m.rows();
    let width = m.columns().checked_add(rows).ok_or(Memory)?;
    let mut entries = Vec::new(alloc);
    for i in 0..rows {
        push_invert_row(&mut entries, m, i)?;
    }
    Ok(Matrix::of_rows(entries, rows, width))
}
