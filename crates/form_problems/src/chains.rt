// The chains of a form: those of its feasible problem, of its ray problem, and of the price problem at a point.

ghost use Rattle.std.specs.Prelude.{◌≡◌, length, IfOk, IfErr};
ghost use Rattle.form_problems.specs.Chains.{IsFormOf, IsPriceStopOf};
ghost use Rattle.face_descent_law.specs.Small.{slope};
ghost use Rattle.linear_simplex.specs.Decided.{IsAnswerOf, IsLinearStopOf, IsTrueOf};
ghost use Rattle.program_law.specs.Program.{Program};
ghost use Rattle.quad_solve_law.specs.Problems.{feasible_problem, price_problem, ray_problem};

use crate::problems::{price_problem, ray_problem};
use equational::Form;
use exact_matrix::Stop;
use face_descent::gradient;
use frac_core::{Frac, Vector};
use linear_simplex::{Feasible, LinearStop, feasible};
use std::alloc::Global;

/// Why the price problem at a point has no answer.
#[derive(Drop)]
pub enum PriceStop {
    /// The gradient has none.
    Gradient(Stop),
    Chain(LinearStop),
}

/// Whether a form has a solution.
///
/// # Errors
///
/// Those of [`feasible`].
pub fn feasible_chain(alloc: Global, f: &Form, bases: u64) -> Result<Feasible, LinearStop>
    requires { (p : Program) × IsFormOf f.now p }
    ensures answer { IfOk result (IsAnswerOf (feasible_problem f.now.form) bases) }
    ensures right { IfOk result (IsTrueOf (feasible_problem f.now.form)) }
    ensures stop { IfErr result (IsLinearStopOf (feasible_problem f.now.form) bases) }
{
    feasible(alloc, f.matrix(), f.right(), bases)
}

/// Whether a form has a ray.
///
/// # Errors
///
/// Those of [`feasible`].
pub fn ray_chain(alloc: Global, f: &Form, bases: u64) -> Result<Feasible, LinearStop>
    requires { (p : Program) × IsFormOf f.now p }
    ensures answer { IfOk result (IsAnswerOf (ray_problem f.now.form) bases) }
    ensures right { IfOk result (IsTrueOf (ray_problem f.now.form)) }
    ensures stop { IfErr result (IsLinearStopOf (ray_problem f.now.form) bases) }
{
    let rays = ray_problem(alloc, f)?;
    feasible(alloc, &rays.matrix, &rays.right, bases)
}

/// The chain of the price problem at z, where g is the gradient.
fn chain_at(
    alloc: Global,
    f: &Form,
    g: &Vector<Frac>,
    z: &Vector<Frac>,
    bases: u64,
) -> Result<Feasible, LinearStop>
    requires formed { (p : Program) × IsFormOf f.now p }
    requires size { length z.now ≡ length f.now.form.cost }
    requires gradient { g.now ≡ slope f.now.form z.now }
    ensures answer { IfOk result (IsAnswerOf (price_problem f.now.form z.now) bases) }
    ensures right { IfOk result (IsTrueOf (price_problem f.now.form z.now)) }
    ensures stop { IfErr result (IsLinearStopOf (price_problem f.now.form z.now) bases) }
{
    let prices = price_problem(alloc, f, g, z)?;
    feasible(alloc, &prices.matrix, &prices.right, bases)
}

/// Whether a direction leads down from z.
///
/// # Errors
///
/// `Gradient` where the gradient at z has no answer, and `Chain` where the price chain has none.
pub fn price_chain(
    alloc: Global,
    f: &Form,
    z: &Vector<Frac>,
    bases: u64,
) -> Result<Feasible, PriceStop>
    requires formed { (p : Program) × IsFormOf f.now p }
    requires size { length z.now ≡ length f.now.form.cost }
    ensures answer { IfOk result (IsAnswerOf (price_problem f.now.form z.now) bases) }
    ensures right { IfOk result (IsTrueOf (price_problem f.now.form z.now)) }
    ensures stop { IfErr result (IsPriceStopOf f.now.form bases z.now) }
{
    let g = match gradient(alloc, f, z) {
        Ok(g) => g,
        Err(stop) => return Err(PriceStop::Gradient(stop)),
    };
    match chain_at(alloc, f, &g, z, bases) {
        Ok(answer) => Ok(answer),
        Err(stop) => Err(PriceStop::Chain(stop)),
    }
}
