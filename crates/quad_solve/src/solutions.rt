// What the chains of a form give, over the columns and rows of the file.

ghost use Rattle.std.specs.Prelude.{◌≡◌, ◌++◌, [], ℕ, List, length, map, IfOk, IfErr};
ghost use Rattle.rational.specs.Rational.{ℚ, neg_ℚ};
ghost use Rattle.program_law.specs.Columns.{value, IsRelaxedPoint};
ghost use Rattle.program_law.specs.Program.{Program, IsProgram};
ghost use Rattle.program_law.specs.Region.{Region};
ghost use Rattle.exact_matrix.specs.Stops.{IsStopIn};
ghost use Rattle.equational_law.specs.Form.{direction_of, multipliers_of, point_of};
ghost use Rattle.equational.specs.Formed.{formed};
ghost use Rattle.linear_simplex.specs.Decided.{IsPointOf};
ghost use Rattle.quad_solve_law.specs.Operations.{back_ops, value_ops};
ghost use Rattle.quad_solve_law.specs.Problems.{feasible_problem, ray_problem};
ghost use Rattle.form_problems.specs.Chains.{IsFormOf};
ghost use Rattle.quad_solve.specs.Answers.{IsRelaxStopOf, StopsAtFeasibility};
ghost use Rattle.quad_solve.specs.Walking.{IsBegun};

use crate::sites::{RelaxStop, Site, Task, chain_stop, stop_at};
use equational::Form;
use exact_matrix::Stop;
use form_problems::feasible_chain;
use frac_core::{Frac, Memory, Tried, Vector};
use linear_simplex::Feasible;
use program_data::Program;
use program_model::value;
use std::alloc::Global;

/// A solution of a form's problem, and the columns of the basis that gives it.
#[derive(Drop)]
pub(crate) struct Solution {
    pub(crate) point: Vector<Frac>,
    pub(crate) basis: Vector<u32>,
}

/// What the feasible chain of a form gives.
#[derive(Drop)]
pub(crate) enum Begun {
    /// Multipliers of the rows that leave no point: a good FARKAS leaf.
    Empty(Vector<Frac>),
    /// Where a walk begins.
    Start(Solution),
}

/// The point of the feasible and the ray chains' sites.
pub(crate) fn nowhere(alloc: Global) -> Result<Vector<Frac>, Memory>
    ensures { IfOk result (λ at. at ≡ []) }
{
    Vector::filled(alloc, 0, Frac::whole(0))
}

/// The numbers with changed signs.
fn negated(alloc: Global, y: &Vector<Frac>) -> Result<Vector<Frac>, Memory>
    ensures { IfOk result (λ v. v ≡ map neg_ℚ y.now) }
{
    let mut v = Vector::filled(alloc, 0, Frac::whole(0))?;
    for i in 0..y.len() {
        v.push(-y.at(i))?;
    }
    Ok(v)
}

/// The multipliers of the rows, of the Farkas vector of a form.
fn emptied(alloc: Global, form: &Form, farkas: &Vector<Frac>) -> Result<Vector<Frac>, Memory>
    requires { length farkas.now ≡ length form.now.form.right }
    ensures { IfOk result (λ y. (p : Program) (region : Region) → IsProgram p → form.now ≡ formed p region →
        y ≡ multipliers_of p region (map neg_ℚ farkas.now)) }
{
    let multipliers = negated(alloc, farkas)?;
    form.multipliers_back(alloc, &multipliers)
}

/// How the calculation on a form begins: by its feasible chain.
pub(crate) fn started(alloc: Global, form: &Form, bases: u64) -> Result<Begun, RelaxStop>
    requires { (p : Program) × IsFormOf form.now p }
    ensures begun { IfOk result (IsBegun form.now bases) }
    ensures stop { (p : Program) → IsFormOf form.now p → IfErr result (IsRelaxStopOf p form.now.region bases) }
    ensures feasibility { IfErr result StopsAtFeasibility }
{
    match feasible_chain(alloc, form, bases) {
        Ok(Feasible::Point(point, basis)) => Ok(Begun::Start(Solution { point, basis })),
        Ok(Feasible::Farkas(farkas, _)) => Ok(Begun::Empty(emptied(alloc, form, &farkas)?)),
        Err(stop) => Err(chain_stop(Task::Feasible, nowhere(alloc)?, stop)),
    }
}

/// The point of a solution of the form.
pub(crate) fn point_of(
    alloc: Global,
    form: &Form,
    start: Solution,
) -> Result<Vector<Frac>, RelaxStop>
    requires { length start.point ≡ length form.now.form.cost }
    ensures point { IfOk result (λ x. x ≡ point_of form.now.region start.point) }
    ensures stop { (p : Program) (budget : ℕ) → IsFormOf form.now p → IsPointOf (feasible_problem form.now.form) budget start.point start.basis →
        IfErr result (IsRelaxStopOf p form.now.region budget) }
    ensures feasibility { IfErr result StopsAtFeasibility }
{
    let Solution { point, basis } = start;
    match form.point_back(alloc, &point) {
        Ok(x) => Ok(x),
        Err(stop) => {
            let (task, at) = (Task::Feasible, nowhere(alloc)?);
            Err(stop_at(Site::Chain { task, at, basis }, stop))
        }
    }
}

/// The direction of a ray of the form.
pub(crate) fn direction_of(
    alloc: Global,
    form: &Form,
    ray: Solution,
) -> Result<Vector<Frac>, RelaxStop>
    requires { length ray.point ≡ length form.now.form.cost }
    ensures direction { IfOk result (λ d. d ≡ direction_of form.now.region ray.point) }
    ensures stop { (p : Program) (budget : ℕ) → IsFormOf form.now p → ((x : List ℚ) × IsRelaxedPoint p form.now.region x) →
        IsPointOf (ray_problem form.now.form) budget ray.point ray.basis → IfErr result (IsRelaxStopOf p form.now.region budget) }
{
    let Solution { point, basis } = ray;
    match form.ray_back(alloc, &point) {
        Ok(d) => Ok(d),
        Err(stop) => {
            let (task, at) = (Task::Ray, nowhere(alloc)?);
            Err(stop_at(Site::Chain { task, at, basis }, stop))
        }
    }
}

/// The point of a solution z of the form, with its value.
pub(crate) fn valued(
    alloc: Global,
    p: &Program,
    form: &Form,
    z: &Vector<Frac>,
) -> Result<(Vector<Frac>, Frac), Stop>
    requires formed { IsFormOf form.now p.now }
    requires size { length z.now ≡ length form.now.form.cost }
    ensures point { IfOk result (λ a. a.0 ≡ point_of form.now.region z.now) }
    ensures value { IfOk result (λ a. a.1 ≡ value p.now a.0) }
    ensures stop { IfErr result (IsStopIn (back_ops form.now.region z.now ++ value_ops p.now (point_of form.now.region z.now))) }
{
    let x = form.point_back(alloc, z)?;
    match value(p, &x) {
        Tried::Is(least) => Ok((x, least)),
        Tried::Past(refused) => Err(Stop::Past(refused)),
    }
}
