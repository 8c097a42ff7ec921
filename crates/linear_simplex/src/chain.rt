// The chain of bases.

ghost use Rattle.linear_basis_law.specs.Basis.{IsBasis, IsFinal, IsZeroCost, Tableau};
ghost use Rattle.linear_basis_law.specs.Exchange.{IsLeaving};
ghost use Rattle.linear_basis_law.specs.Operations.{basis_ops};
ghost use Rattle.linear_basis_law.specs.Problem.{width, IsProblem, Problem};
ghost use Rattle.linear_simplex_law.specs.Chain.{IsEntering};
ghost use Rattle.exact_matrix.specs.Stops.{IsStopIn};
ghost use Rattle.linear_basis.specs.Kept.{kept, problem, tableau};
ghost use Rattle.linear_simplex.specs.Decided.{IsAnswerOf, IsLinearStopOf, IsTrueOf};
ghost use Rattle.linear_simplex.specs.Turns.{Gives, IsKept, IsNext, IsReached, IsRefusal, IsStopAt, IsStopNear, LeadsTo};
ghost use Rattle.linear_simplex.specs.Whole.{IsLedTo};
ghost use Rattle.rational.specs.Rational.{ℚ};
ghost use Rattle.std.specs.Prelude.{◌≡◌, ◌<◌, ◌≤◌, ◌^◌, List, length, slice_set, IfErr, IfOk, OnOk};

use crate::answers::{Feasible, LinearStop, Next};
use crate::pricing::entering;
use crate::products::column;
use crate::verdicts::{is_zero_cost, solution};
use crate::whole::{Led, whole_chain};
use exact_matrix::{Matrix, Stop};
use frac_core::{Frac, Memory, Refused, Vector};
use linear_basis::{Basis, row_products};
use ratio_test::leaving;
use std::alloc::Global;

/// A refused operation, with the columns of the basis in whose calculation it stands.
fn refusal(columns: &Vector<u32>, refused: Refused) -> LinearStop
    ensures { IsRefusal columns.now refused result }
{
    match columns.copied() {
        Ok(columns) => LinearStop::Past(columns, refused),
        Err(_) => LinearStop::Memory,
    }
}

/// The answer of a basis that gives the unit columns no value.
fn found(alloc: Global, m: &Matrix<Frac>, basis: &Basis) -> Result<Feasible, Memory>
    requires { (right : List ℚ) × IsKept (problem m.now right) basis.now }
    ensures { (right : List ℚ) → IsKept (problem m.now right) basis.now → IsZeroCost (problem m.now right) (tableau basis.now) → IfOk result (Gives (problem m.now right) (tableau basis.now)) }
{
    let x = solution(alloc, m.columns(), basis.columns(), basis.point())?;
    let columns = basis.columns().copied()?;
    Ok(Feasible::Point(x, columns))
}

/// The answer of a final basis.
fn refuted(basis: &Basis) -> Result<Feasible, Memory>
    ensures { (p : Problem) → IsKept p basis.now → IsFinal p (tableau basis.now) → IfOk result (Gives p (tableau basis.now)) }
{
    let y = basis.multipliers().negated()?;
    let columns = basis.columns().copied()?;
    Ok(Feasible::Farkas(y, columns))
}

/// What a basis says.
fn next(alloc: Global, m: &Matrix<Frac>, basis: &Basis) -> Result<Next, LinearStop>
    requires { (right : List ℚ) × IsKept (problem m.now right) basis.now }
    ensures next { (right : List ℚ) → IsKept (problem m.now right) basis.now → IfOk result (IsNext (problem m.now right) (tableau basis.now)) }
    ensures stop { (right : List ℚ) → IsKept (problem m.now right) basis.now → IfErr result (IsStopAt (problem m.now right) (tableau basis.now)) }
{
    if is_zero_cost(m.columns(), basis.columns(), basis.point()) {
        return Ok(Next::Known(found(alloc, m, basis)?));
    }
    match entering(m, basis.multipliers()) {
        Ok(Some(j)) => Ok(Next::Enters(j)),
        Ok(None) => Ok(Next::Known(refuted(basis)?)),
        Err(refused) => Err(refusal(basis.columns(), refused)),
    }
}

/// The place where a column of M with a price below 0 comes in.
fn place(alloc: Global, m: &Matrix<Frac>, basis: &Basis, enter: usize) -> Result<usize, Stop>
    requires { (right : List ℚ) × IsKept (problem m.now right) basis.now × IsEntering (problem m.now right) (tableau basis.now) enter }
    ensures leaving { (right : List ℚ) → IsKept (problem m.now right) basis.now → IsEntering (problem m.now right) (tableau basis.now) enter → IfOk result (IsLeaving (problem m.now right) (tableau basis.now) enter) }
    ensures stop { (right : List ℚ) → IsKept (problem m.now right) basis.now → IsEntering (problem m.now right) (tableau basis.now) enter → IfErr result (IsStopIn (basis_ops (problem m.now right) (tableau basis.now))) }
{
    let column = column(alloc, m, enter)?;
    let coordinates = row_products(alloc, basis.inverse(), &column)?;
    let Some(leave) = leaving(basis.point(), basis.inverse(), &coordinates) else {
        unreachable!()
    };
    Ok(leave)
}

/// A refused operation of the calculation of the basis with the column `enter` in the place `leave`.
fn refusal_after(columns: &Vector<u32>, enter: u32, leave: usize, refused: Refused) -> LinearStop
    requires { leave < length columns.now }
    ensures { IsRefusal (slice_set columns.now leave enter) refused result }
{
    match columns.copied() {
        Ok(mut columns) => {
            columns.set(leave, enter);
            LinearStop::Past(columns, refused)
        }
        Err(_) => LinearStop::Memory,
    }
}

/// The strict step of a column of M with a price below 0.
fn exchange(
    alloc: Global,
    m: &Matrix<Frac>,
    r: &Vector<Frac>,
    basis: &mut Basis,
    enter: usize,
) -> Result<(), LinearStop>
    requires few { width (problem m.now r.now) < 2 ^ 32 }
    requires kept { IsKept (problem m.now r.now) basis.old }
    requires entering { IsEntering (problem m.now r.now) (tableau basis.old) enter }
    ensures leads { OnOk result (LeadsTo (problem m.now r.now) (tableau basis.old) enter (tableau basis.new)) }
    ensures kept { OnOk result (basis.new ≡ kept (problem m.now r.now) (tableau basis.new)) }
    ensures stop { IfErr result (IsStopNear (problem m.now r.now) (tableau basis.old) enter) }
{
    let leave = match place(alloc, m, basis, enter) {
        Ok(leave) => leave,
        Err(Stop::Memory) => return Err(LinearStop::Memory),
        Err(Stop::Past(refused)) => return Err(refusal(basis.columns(), refused)),
    };
    let column = enter as u32;
    match basis.exchange(alloc, m, r, column, leave) {
        Ok(()) => Ok(()),
        Err(Stop::Memory) => Err(LinearStop::Memory),
        Err(Stop::Past(refused)) => Err(refusal_after(basis.columns(), column, leave, refused)),
    }
}

/// Goes on from a basis to which a chain of so many strict steps leads.
fn goes_on(
    alloc: Global,
    m: &Matrix<Frac>,
    r: &Vector<Frac>,
    basis: &mut Basis,
    steps: u64,
    bases: u64,
) -> Result<Feasible, LinearStop>
    requires problem { IsProblem (problem m.now r.now) }
    requires few { width (problem m.now r.now) < 2 ^ 32 }
    requires reached { IsReached (problem m.now r.now) steps basis.old }
    requires steps { steps ≤ bases }
    ensures answer { IfOk result (IsAnswerOf (problem m.now r.now) bases) }
    ensures right { IfOk result (IsTrueOf (problem m.now r.now)) }
    ensures stop { IfErr result (IsLinearStopOf (problem m.now r.now) bases) }
{
    for _ in steps..bases {
        match next(alloc, m, basis)? {
            Next::Known(answer) => return Ok(answer),
            Next::Enters(column) => exchange(alloc, m, r, basis, column)?,
        }
    }
    match next(alloc, m, basis)? {
        Next::Known(answer) => Ok(answer),
        Next::Enters(_) => Err(LinearStop::Spent(basis.columns().copied()?)),
    }
}

/// The basis of these columns, of which it is known that a chain leads to it.
fn basis_of(
    alloc: Global,
    m: &Matrix<Frac>,
    r: &Vector<Frac>,
    columns: &Vector<u32>,
) -> Result<Basis, LinearStop>
    requires problem { IsProblem (problem m.now r.now) }
    requires basis { (b : Tableau) × IsBasis (problem m.now r.now) b × (b.columns ≡ columns.now) }
    ensures ok { (b : Tableau) → IsBasis (problem m.now r.now) b → b.columns ≡ columns.now → IfOk result (λ k. k ≡ kept (problem m.now r.now) b) }
    ensures stop { (b : Tableau) → IsBasis (problem m.now r.now) b → b.columns ≡ columns.now → IfErr result (IsStopAt (problem m.now r.now) b) }
{
    match Basis::of_columns(alloc, m, r, columns.copied()?) {
        Ok(basis) => Ok(basis),
        Err(Stop::Memory) => Err(LinearStop::Memory),
        Err(Stop::Past(refused)) => Err(refusal(columns, refused)),
    }
}

/// Goes on in fractions from the basis of these columns, to which a chain of so many strict steps leads.
fn goes_on_from(
    alloc: Global,
    m: &Matrix<Frac>,
    r: &Vector<Frac>,
    columns: &Vector<u32>,
    steps: u64,
    bases: u64,
) -> Result<Feasible, LinearStop>
    requires problem { IsProblem (problem m.now r.now) }
    requires few { width (problem m.now r.now) < 2 ^ 32 }
    requires led { IsLedTo (problem m.now r.now) bases columns.now steps }
    ensures answer { IfOk result (IsAnswerOf (problem m.now r.now) bases) }
    ensures right { IfOk result (IsTrueOf (problem m.now r.now)) }
    ensures stop { IfErr result (IsLinearStopOf (problem m.now r.now) bases) }
{
    let mut basis = basis_of(alloc, m, r, columns)?;
    goes_on(alloc, m, r, &mut basis, steps, bases)
}

/// Goes along the chain in fractions, from the unit columns on.
fn goes_from_start(
    alloc: Global,
    m: &Matrix<Frac>,
    r: &Vector<Frac>,
    bases: u64,
) -> Result<Feasible, LinearStop>
    requires problem { IsProblem (problem m.now r.now) }
    requires few { width (problem m.now r.now) < 2 ^ 32 }
    ensures answer { IfOk result (IsAnswerOf (problem m.now r.now) bases) }
    ensures right { IfOk result (IsTrueOf (problem m.now r.now)) }
    ensures stop { IfErr result (IsLinearStopOf (problem m.now r.now) bases) }
{
    let mut basis = Basis::start(alloc, m, r)?;
    goes_on(alloc, m, r, &mut basis, 0, bases)
}

/// Whether `m z = r` has a solution that is not below 0.
///
/// The chain begins with the unit columns. From a basis that gives the unit columns a value, the first column of M with a price below 0
/// comes in, in the place that the lexicographic ratio rule says (Dantzig, Orden and Wolfe). It is calculated with rows of whole numbers;
/// where one doesn't fit, it goes on from the same columns with fractions.
///
/// # Errors
///
/// `Spent` where after `bases` strict steps the chain would go on, `Past` where an operation's exact result doesn't fit, and `Memory`.
pub fn feasible(
    alloc: Global,
    m: &Matrix<Frac>,
    r: &Vector<Frac>,
    bases: u64,
) -> Result<Feasible, LinearStop>
    requires problem { IsProblem (problem m.now r.now) }
    requires few { width (problem m.now r.now) < 2 ^ 32 }
    ensures answer { IfOk result (IsAnswerOf (problem m.now r.now) bases) }
    ensures right { IfOk result (IsTrueOf (problem m.now r.now)) }
    ensures stop { IfErr result (IsLinearStopOf (problem m.now r.now) bases) }
{
    match whole_chain(alloc, m, r, bases)? {
        Led::Known(answer) => Ok(answer),
        Led::To(columns, steps) => goes_on_from(alloc, m, r, &columns, steps, bases),
        Led::Nowhere => goes_from_start(alloc, m, r, bases),
    }
}
