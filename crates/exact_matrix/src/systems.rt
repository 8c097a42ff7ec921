// Systems of equations and inverses, by elimination.

ghost use Rattle.elimination_law.specs.Answers.{inverse, invert_rows, lines_of, solve_rows, solved};
ghost use Rattle.elimination_law.specs.Calculation.{eliminated_in};
ghost use Rattle.elimination_law.specs.Meaning.{IsInverseOrDepends, IsRight};
ghost use Rattle.elimination_law.specs.Operations.{elimination_ops};
ghost use Rattle.exact_matrix.specs.Grid.{IsGrid};
ghost use Rattle.exact_matrix.specs.State.{state, values, IsSameShape};
ghost use Rattle.exact_matrix.specs.Stops.{IsAnswerIn, Stops};
ghost use Rattle.exact_matrix.specs.Systems.{answer_value};
ghost use Rattle.std.specs.Option.{option_map};
ghost use Rattle.std.specs.Prelude.{◌≡◌, ◌≤◌, length, map, replicate, unsigned_abs, IfErr, IfOk, IfSome, OnOk};
ghost use Rattle.rational.specs.Rational.{zero_ℚ};

use crate::answers::{answer, inverse_entries};
use crate::assembly::{invert_rows, solve_rows};
use crate::elimination::eliminate;
use crate::matrix::Matrix;
use frac_core::{ExactField, Memory, Refused, Vector};
use std::alloc::{AllocError, Global};

/// Why there is no answer: memory ran out, or an operation's exact result has too large a part.
#[derive(Clone, Copy)]
pub enum Stop {
    Memory,
    Past(Refused),
}

impl From<Memory> for Stop {
    ghost use Rattle.std.specs.Prelude.{◌≡◌};
    ghost use Rattle.exact_matrix.specs.declared.systems.Stop.TheVariants.{Memory};

    ghost from_gives = { λ e s. s ≡ Memory };

    fn from(_error: Memory) -> Stop {
        Stop::Memory
    }
}

impl From<AllocError> for Stop {
    ghost use Rattle.std.specs.Prelude.{◌≡◌};
    ghost use Rattle.exact_matrix.specs.declared.systems.Stop.TheVariants.{Memory};

    ghost from_gives = { λ e s. s ≡ Memory };

    fn from(_error: AllocError) -> Stop {
        Stop::Memory
    }
}

impl From<Refused> for Stop {
    ghost use Rattle.std.specs.Prelude.{◌≡◌};
    ghost use Rattle.exact_matrix.specs.declared.systems.Stop.TheVariants.{Past};

    ghost from_gives = { λ r s. s ≡ Past r };

    fn from(refused: Refused) -> Stop {
        Stop::Past(refused)
    }
}

/// What is known of a system of equations.
#[derive(Drop)]
pub enum Solved<F> {
    /// A solution.
    Solution(Vector<F>),
    /// Multipliers of the equations under which they add up to 0 on the left, and what they add up
    /// to on the right, which is not 0.
    Refuted(Vector<F>, F),
}

/// Eliminates the first `n` columns, with room for a row of its own.
fn eliminate_in_room<F: ExactField>(
    alloc: Global,
    rows: &mut Matrix<F>,
    pivots: &mut Vector<Option<usize>>,
    n: usize,
) -> Result<(), Stop>
    requires rows { length pivots.old ≡ length rows.old.rows }
    requires columns { n ≤ rows.old.columns }
    ensures ok { OnOk result (eliminated_in (unsigned_abs F.TOP) n (state F.value pivots.old rows.old) ≡ Ok (state F.value pivots.new rows.new)) }
    ensures shape { OnOk result (IsSameShape rows.old rows.new) }
    ensures pivots { OnOk result (length pivots.new ≡ length pivots.old) }
    ensures err { IfErr result (λ stop. Stops stop (eliminated_in (unsigned_abs F.TOP) n (state F.value pivots.old rows.old))) }
{
    let mut p = Vec::from_elem(alloc, F::zero(), rows.columns())?;
    eliminate(rows, pivots, n, &mut p)?;
    Ok(())
}

/// Eliminates the first `n` columns. The answer is the column with its pivot in each row.
fn eliminated<F: ExactField>(
    alloc: Global,
    rows: &mut Matrix<F>,
    n: usize,
) -> Result<Vector<Option<usize>>, Stop>
    requires { n ≤ rows.old.columns }
    ensures ok { IfOk result (λ pivots. eliminated_in (unsigned_abs F.TOP) n (lines_of (values F.value rows.old)) ≡ Ok (state F.value pivots rows.new)) }
    ensures count { IfOk result (λ pivots. length pivots ≡ length rows.new.rows) }
    ensures shape { OnOk result (IsSameShape rows.old rows.new) }
    ensures err { IfErr result (λ stop. Stops stop (eliminated_in (unsigned_abs F.TOP) n (lines_of (values F.value rows.old)))) }
{
    let mut pivots = Vector::filled(alloc, rows.rows(), None)?;
    eliminate_in_room(alloc, rows, &mut pivots, n)?;
    Ok(pivots)
}

/// A solution of `m z = r`, or a refutation of it: the answer of the elimination of its columns (Gauss and Jordan's, where the pivot row
/// of a column is the first unused one with an entry there).
///
/// # Errors
///
/// `Stop::Past` with the first operation of the elimination whose exact result has a part above
/// the greatest.
pub fn solve<F: ExactField>(alloc: Global, m: &Matrix<F>, r: &Vector<F>) -> Result<Solved<F>, Stop>
    requires { length r.now ≡ length m.now.rows }
    ensures answer { IfOk result (λ s. answer_value F.value s ≡ solved m.now.columns (values F.value m.now) (map F.value r.now)) }
    ensures right { IfOk result (λ s. IsRight m.now.columns (values F.value m.now) (map F.value r.now) (answer_value F.value s)) }
    ensures operations { IsAnswerIn (unsigned_abs F.TOP) (elimination_ops m.now.columns (lines_of (solve_rows (values F.value m.now) (map F.value r.now)))) result }
{
    let n = m.columns();
    let mut rows = solve_rows(alloc, m, r)?;
    let pivots = eliminated(alloc, &mut rows, n)?;
    let answer = answer(alloc, &rows, &pivots, n)?;
    Ok(answer)
}

/// The inverse of a square matrix, and `None` where its columns are dependent.
///
/// # Errors
///
/// `Stop::Past` with the first operation of the elimination, beside the unit matrix, whose exact
/// result has a part above the greatest.
pub fn invert<F: ExactField>(alloc: Global, m: &Matrix<F>) -> Result<Option<Matrix<F>>, Stop>
    requires { length m.now.rows ≡ m.now.columns }
    ensures answer { IfOk result (λ o. option_map (values F.value) o ≡ inverse m.now.columns (values F.value m.now)) }
    ensures columns { IfOk result (λ o. IfSome o (λ i. i.columns ≡ m.now.columns)) }
    ensures right { IfOk result (λ o. IsInverseOrDepends m.now.columns (values F.value m.now) (option_map (values F.value) o)) }
    ensures operations { IsAnswerIn (unsigned_abs F.TOP) (elimination_ops m.now.columns (lines_of (invert_rows (values F.value m.now)))) result }
{
    let n = m.columns();
    let mut rows = invert_rows(alloc, m)?;
    let pivots = eliminated(alloc, &mut rows, n)?;
    match inverse_entries(alloc, &rows, &pivots, n)? {
        Some(entries) => Ok(Some(Matrix::of_rows(entries, n, n))),
        None => Ok(None),
    }
}
