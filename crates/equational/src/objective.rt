// The shift of the columns, and the objective in the change from it.

ghost use Rattle.std.specs.Prelude.{◌≡◌, ◌≤◌, length, IfOk};
ghost use Rattle.frac_core.specs.Parts.{max_part};
ghost use Rattle.equational_law.specs.Standing.{shift, shift_at, standing};
ghost use Rattle.equational_law.specs.Calculation.{products_in, sums_in, constant_in};
ghost use Rattle.exact_matrix.specs.Stops.{Answers};
ghost use Rattle.exact_matrix.specs.Systems.{joined};
ghost use Rattle.equational.specs.Made.{objective_in, objective_on, quadratic_rows};

use crate::quadratic::{cost, quadratic_rows};
use equational_rows::Layout;
use exact_matrix::Stop;
use frac_core::{Frac, Memory, Refused, Vector, added, divided, dot_fractions};
use program_data::Program;
use program_law::Row;
use std::alloc::Global;

/// What is added to a column's change.
fn shift_of(bounds: Row) -> Frac
    ensures { result ≡ shift_at (standing bounds) }
{
    match bounds.low {
        Some(low) => low,
        None => match bounds.high {
            Some(high) => high,
            None => Frac::whole(0),
        },
    }
}

/// The shift of each column.
pub(crate) fn shift(alloc: Global, bounds: &[Row]) -> Result<Vec<Frac>, Memory>
    ensures { IfOk result (λ h. h.items ≡ shift bounds.now) }
{
    let mut h = Vec::new(alloc);
    for j in 0..bounds.len() {
        h.push(shift_of(bounds[j]))?;
    }
    Ok(h)
}

/// The product of each row of Q with the shift.
fn products(alloc: Global, p: &Program, h: &[Frac]) -> Result<Vector<Frac>, Stop>
    requires { length h.now ≡ length p.now.columns }
    ensures products { Answers (λ qs. qs) result (products_in max_part p.now.pairs h.now) }
    ensures count { IfOk result (λ qs. length qs ≡ length p.now.columns) }
{
    let mut products = Vector::new(alloc);
    for j in 0..p.columns() {
        products.push(dot_fractions(p.pairs_of(j), h)?)?;
    }
    Ok(products)
}

/// The sum at each place.
fn sums(alloc: Global, costs: &[Frac], products: &[Frac]) -> Result<Vector<Frac>, Stop>
    requires { length costs.now ≤ length products.now }
    ensures sums { Answers (λ cs. cs) result (sums_in max_part costs.now products.now) }
    ensures count { IfOk result (λ cs. length cs ≡ length costs.now) }
{
    let mut sums = Vector::new(alloc);
    for j in 0..costs.len() {
        sums.push(added(costs[j], products[j])?)?;
    }
    Ok(sums)
}

/// The objective's value at the shift.
#[tactic(auto, unfolding(equational_law::specs::Calculation::constant_in))]
fn constant(p: &Program, h: &[Frac], products: &[Frac]) -> Result<Frac, Refused>
    requires shift { length h.now ≡ length p.now.columns }
    requires products { length products.now ≡ length h.now }
    ensures { result ≡ constant_in max_part p.now h.now products.now }
{
    let quadratic = dot_fractions(h, products)?;
    let half = divided(quadratic, Frac::whole(2))?;
    let linear = dot_fractions(p.costs(), h)?;
    let sum = added(p.constant(), linear)?;
    let value = added(sum, half)?;
    Ok(value)
}

/// The costs of the file's columns and the constant, in the change from the shift.
#[tactic(auto, unfolding(crate::specs::Made::objective_in), using(equational_rows::proofs::Chains::stops_then))]
fn changed(alloc: Global, p: &Program, h: &[Frac]) -> Result<(Vector<Frac>, Frac), Stop>
    requires { length h.now ≡ length p.now.columns }
    ensures objective { Answers (λ o. o) result (objective_in max_part p.now h.now) }
    ensures count { IfOk result (λ o. length o.0 ≡ length p.now.columns) }
{
    let products = products(alloc, p, h)?;
    let costs = sums(alloc, p.costs(), products.as_slice())?;
    let constant = constant(p, h, products.as_slice())?;
    Ok((costs, constant))
}

/// The objective on the form's columns: the rows of Q one after another, the costs, and the constant.
#[derive(Drop)]
pub(crate) struct Objective {
    pub(crate) quadratic: Vec<Frac>,
    pub(crate) cost: Vector<Frac>,
    pub(crate) constant: Frac,
}

/// The objective, given the shift.
pub(crate) fn objective_of(
    alloc: Global,
    layout: &Layout,
    p: &Program,
    h: &[Frac],
) -> Result<Objective, Stop>
    requires region { length layout.now.region ≡ length p.now.columns }
    requires shift { length h.now ≡ length p.now.columns }
    ensures objective { Answers (λ o. (o.cost, o.constant)) result (objective_on layout.now p.now h.now) }
    ensures quadratic { IfOk result (λ o. o.quadratic.items ≡ joined (quadratic_rows layout.now p.now.pairs)) }
{
    let (costs, constant) = changed(alloc, p, h)?;
    let quadratic = quadratic_rows(alloc, layout, p)?;
    let cost = cost(alloc, layout, costs.as_slice())?;
    Ok(Objective {
        quadratic,
        cost,
        constant,
    })
}
