// The ray problem of a form, and the price problem at a point of it.

ghost use Rattle.std.specs.Prelude.{◌≡◌, ◌+◌, ◌<◌, ◌^◌, ◌++◌, ◌∷◌, [], All, length, map, IfOk, OnOk};
ghost use Rattle.linear_basis_law.specs.Problem.{width, IsProblem};
ghost use Rattle.exact_matrix.specs.Systems.{joined};
ghost use Rattle.face_descent_law.specs.Small.{slope};
ghost use Rattle.linear_basis.specs.Kept.{problem};
ghost use Rattle.form_problems.specs.Chains.{IsFormOf};
ghost use Rattle.program_law.specs.Program.{Program};
ghost use Rattle.rational.specs.Rational.{neg_ℚ, one_ℚ};
ghost use Rattle.rational.specs.Vectors.{pick, zeros};
ghost use Rattle.quad_solve_law.specs.Problems.{doubled, price_problem, price_rows, ray_problem};

use equational::Form;
use exact_matrix::Matrix;
use face_descent::{kept_form, support};
use frac_core::{Frac, Memory, Vector};
use std::alloc::Global;

/// A linear problem: `matrix z = right`, where z is not below 0.
#[derive(Drop)]
pub(crate) struct LinearProblem {
    pub(crate) matrix: Matrix<Frac>,
    pub(crate) right: Vector<Frac>,
}

// ---- counts and right sides

/// The sum of two counts.
fn count_sum(a: usize, b: usize) -> Result<usize, Memory>
    ensures { IfOk result (λ k. k ≡ a + b) }
{
    a.checked_add(b).ok_or(Memory)
}

/// No entries yet, with room for so many rows and columns.
fn no_entries(alloc: Global, rows: usize, columns: usize) -> Result<Vec<Frac>, Memory>
    ensures { IfOk result (λ entries. entries.items ≡ []) }
{
    let count = rows.checked_mul(columns).ok_or(Memory)?;
    Ok(Vec::with_capacity(alloc, count)?)
}

/// So many zeros, and then 1.
fn zeros_and_one(alloc: Global, count: usize) -> Result<Vector<Frac>, Memory>
    ensures { IfOk result (λ right. right ≡ zeros count ++ one_ℚ ∷ []) }
{
    let mut right = Vector::filled(alloc, count, Frac::whole(0))?;
    right.push(Frac::whole(1))?;
    Ok(right)
}

// ---- rows

/// Appends the rows.
fn push_rows(entries: &mut Vec<Frac>, m: &Matrix<Frac>) -> Result<(), Memory>
    ensures { OnOk result (entries.new.items ≡ entries.old.items ++ joined m.now.rows) }
{
    for i in 0..m.rows() {
        entries.extend_from_slice(m.row(i))?;
    }
    Ok(())
}

/// Appends the numbers with changed signs.
fn push_negated(entries: &mut Vec<Frac>, v: &Vector<Frac>) -> Result<(), Memory>
    ensures { OnOk result (entries.new.items ≡ entries.old.items ++ map neg_ℚ v.now) }
{
    for j in 0..v.len() {
        entries.push(-v.at(j))?;
    }
    Ok(())
}

/// Appends the numbers at the places.
fn push_picked(
    entries: &mut Vec<Frac>,
    v: &Vector<Frac>,
    places: &Vector<usize>,
) -> Result<(), Memory>
    requires { All (λ k. k < length v.now) places.now }
    ensures { OnOk result (entries.new.items ≡ entries.old.items ++ pick places.now v.now) }
{
    for k in 0..places.len() {
        entries.push(v.at(places.at(k)))?;
    }
    Ok(())
}

/// Appends the entries of a row at the places, with changed signs.
fn push_negated_at(
    entries: &mut Vec<Frac>,
    row: &[Frac],
    places: &Vector<usize>,
) -> Result<(), Memory>
    requires { All (λ k. k < length row.now) places.now }
    ensures { OnOk result (entries.new.items ≡ entries.old.items ++ map neg_ℚ (pick places.now row.now)) }
{
    for k in 0..places.len() {
        entries.push(-row[places.at(k)])?;
    }
    Ok(())
}

/// Appends a row over both kinds of columns.
fn push_doubled(entries: &mut Vec<Frac>, row: &[Frac], places: &Vector<usize>) -> Result<(), Memory>
    requires { All (λ k. k < length row.now) places.now }
    ensures { OnOk result (entries.new.items ≡ entries.old.items ++ doubled places.now row.now) }
{
    entries.extend_from_slice(row)?;
    push_negated_at(entries, row, places)
}

/// Appends the rows over both kinds of columns.
fn push_all_doubled(
    entries: &mut Vec<Frac>,
    m: &Matrix<Frac>,
    places: &Vector<usize>,
) -> Result<(), Memory>
    requires { All (λ k. k < m.now.columns) places.now }
    ensures { OnOk result (entries.new.items ≡ entries.old.items ++ joined (map (doubled places.now) m.now.rows)) }
{
    for i in 0..m.rows() {
        push_doubled(entries, m.row(i), places)?;
    }
    Ok(())
}

// ---- the ray problem

/// Appends M, Q and the costs with changed signs.
fn push_rays(entries: &mut Vec<Frac>, f: &Form) -> Result<(), Memory>
    ensures { OnOk result (entries.new.items ≡ entries.old.items ++ joined (ray_problem f.now.form).rows) }
{
    push_rows(entries, f.matrix())?;
    push_rows(entries, f.quadratic())?;
    push_negated(entries, f.cost())
}

/// The same as a matrix of so many rows.
fn ray_matrix(alloc: Global, f: &Form, rows: usize) -> Result<Matrix<Frac>, Memory>
    requires { rows ≡ length f.now.form.matrix + length f.now.form.quadratic + 1 }
    ensures columns { IfOk result (λ m. m.columns ≡ length f.now.form.cost) }
    ensures rows { IfOk result (λ m. m.rows ≡ (ray_problem f.now.form).rows) }
{
    kept_form(f);
    let columns = f.cost().len();
    let mut entries = no_entries(alloc, rows, columns)?;
    push_rays(&mut entries, f)?;
    Ok(Matrix::of_rows(entries, rows, columns))
}

/// The problem whose solutions are the rays of a form: `M d = 0`, `Q d = 0` and `-c·d = 1`.
pub(crate) fn ray_problem(alloc: Global, f: &Form) -> Result<LinearProblem, Memory>
    ensures exact { IfOk result (λ l. problem l.matrix l.right ≡ ray_problem f.now.form) }
    ensures problem { IfOk result (λ l. IsProblem (problem l.matrix l.right)) }
    ensures few { (p : Program) → IsFormOf f.now p → IfOk result (λ l. width (problem l.matrix l.right) < 2 ^ 32) }
{
    kept_form(f);
    let count = count_sum(f.matrix().rows(), f.quadratic().rows())?;
    let rows = count_sum(count, 1)?;
    let matrix = ray_matrix(alloc, f, rows)?;
    let right = zeros_and_one(alloc, count)?;
    Ok(LinearProblem { matrix, right })
}

// ---- the price problem

/// Appends M and the gradient with changed signs, over both kinds of columns.
fn push_prices(
    entries: &mut Vec<Frac>,
    f: &Form,
    g: &Vector<Frac>,
    places: &Vector<usize>,
) -> Result<(), Memory>
    requires gradient { length g.now ≡ length f.now.form.cost }
    requires places { All (λ k. k < length f.now.form.cost) places.now }
    ensures { OnOk result (entries.new.items ≡ entries.old.items ++ joined (map (doubled places.now) (price_rows f.now.form g.now))) }
{
    push_all_doubled(entries, f.matrix(), places)?;
    push_negated(entries, g)?;
    push_picked(entries, g, places)
}

/// The same as a matrix.
fn price_matrix(
    alloc: Global,
    f: &Form,
    g: &Vector<Frac>,
    places: &Vector<usize>,
) -> Result<Matrix<Frac>, Memory>
    requires gradient { length g.now ≡ length f.now.form.cost }
    requires places { All (λ k. k < length f.now.form.cost) places.now }
    ensures columns { IfOk result (λ m. m.columns ≡ length f.now.form.cost + length places.now) }
    ensures rows { IfOk result (λ m. m.rows ≡ map (doubled places.now) (price_rows f.now.form g.now)) }
{
    kept_form(f);
    let rows = count_sum(f.matrix().rows(), 1)?;
    let columns = count_sum(f.cost().len(), places.len())?;
    let mut entries = no_entries(alloc, rows, columns)?;
    push_prices(&mut entries, f, g, places)?;
    Ok(Matrix::of_rows(entries, rows, columns))
}

/// The problem whose solutions are the directions that lead down from z, where g is the gradient there: `M (p - n) = 0` and
/// `-g·(p - n) = 1`, with a column p for each column of the form, and then a column n for each place where z isn't 0.
pub(crate) fn price_problem(
    alloc: Global,
    f: &Form,
    g: &Vector<Frac>,
    z: &Vector<Frac>,
) -> Result<LinearProblem, Memory>
    requires size { length z.now ≡ length f.now.form.cost }
    requires gradient { g.now ≡ slope f.now.form z.now }
    ensures exact { IfOk result (λ l. problem l.matrix l.right ≡ price_problem f.now.form z.now) }
    ensures problem { IfOk result (λ l. IsProblem (problem l.matrix l.right)) }
    ensures few { (p : Program) → IsFormOf f.now p → IfOk result (λ l. width (problem l.matrix l.right) < 2 ^ 32) }
{
    kept_form(f);
    let places = support(alloc, z)?;
    let matrix = price_matrix(alloc, f, g, &places)?;
    let right = zeros_and_one(alloc, f.matrix().rows())?;
    Ok(LinearProblem { matrix, right })
}
