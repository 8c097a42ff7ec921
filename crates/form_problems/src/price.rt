// The price step from a point of a form, and the multipliers that show a point optimal.

ghost use Rattle.std.specs.Prelude.{◌≡◌, ◌≢◌, ◌+◌, ◌≤◌, ◌∷◌, ◌++◌, [], ◌⊎◌, List, Some, pos, length, map, drop, take, IfOk, IfErr, OnOk};
ghost use Rattle.linear_basis_law.specs.Problem as linear;
ghost use Rattle.frac_core.specs.Operations.{IsPastOf};
ghost use Rattle.exact_matrix.specs.Stops.{IsStopIn};
ghost use Rattle.face_descent.specs.Parts.{spread};
ghost use Rattle.face_descent_law.specs.Small.{support, IsStationary};
ghost use Rattle.face_descent_law.specs.Step.{moved};
ghost use Rattle.equational_law.specs.Solutions.{IsFormRay, IsSolution};
ghost use Rattle.frac_core.specs.declared.fractions.Op.TheVariants.{Div, Sub};
ghost use Rattle.frac_core.specs.declared.fractions.Tried.TheVariants.{Is, Past};
ghost use Rattle.frac_core.specs.Dot.{dot_step};
ghost use Rattle.frac_core.specs.Operations.{operation};
ghost use Rattle.frac_core.specs.Parts.{max_part};
ghost use Rattle.rational.specs.Rational.{ℚ, ◌-ℚ◌, ◌/ℚ◌};
ghost use Rattle.rational.specs.Sums.{entry};
ghost use Rattle.rational.specs.Vectors.{dot, put_at, IsSemidefinite};
ghost use Rattle.quad_solve_law.specs.Operations.{less_ops, multiplier_ops, price_length, price_move_ops, price_ops, product_ops, square_ops};
ghost use Rattle.quad_solve_law.specs.Problems.{difference, price_multipliers, price_problem};
ghost use Rattle.quad_solve_law.specs.Steps.{curvature};
ghost use Rattle.quad_solve_law.specs.Walk.{IsPriced, IsSolved};

use equational::Form;
use exact_matrix::Stop;
use face_descent::{kept_form, moved, nearest_zero, smaller};
use frac_core::{Frac, Refused, Vector, add_product, divided, dot_fractions, is_zero, subtracted};
use std::alloc::Global;

// ---- the direction

/// The difference of two numbers. Nothing is taken away where the second is 0.
fn less(p: Frac, n: Frac) -> Result<Frac, Refused>
    ensures value { IfOk result (λ q. q ≡ p -ℚ n) }
    ensures past { IfErr result (IsPastOf (operation Sub p n ∷ [])) }
{
    if is_zero(n) {
        return Ok(p);
    }
    subtracted(p, n)
}

/// The number at k, or 0 where z's entry y is 0.
fn part(y: Frac, x: &Vector<Frac>, k: usize) -> Frac
    requires { k + length (support (y ∷ [])) ≤ length x.now }
    ensures { result ≡ entry (spread (y ∷ []) (drop k x.now)) 0 }
{
    if is_zero(y) { Frac::whole(0) } else { x.at(k) }
}

/// How many numbers belong to a place with z's entry y.
fn parts(y: Frac) -> usize
    ensures { result ≡ length (support (y ∷ [])) }
{
    if is_zero(y) { 0 } else { 1 }
}

/// Puts p - n in each place, where n is 0 off the support of z.
fn set_direction(d: &mut Vector<Frac>, z: &Vector<Frac>, x: &Vector<Frac>) -> Result<(), Refused>
    requires size { length d.old ≡ length z.now }
    requires numbers { length x.now ≡ length z.now + length (support z.now) }
    ensures value { OnOk result (d.new ≡ difference (length z.now) (support z.now) x.now) }
    ensures past { IfErr result (IsPastOf (less_ops (take (length z.now) x.now) (put_at (length z.now) (support z.now) (drop (length z.now) x.now)))) }
{
    let _numbers = x.len();
    let mut k = z.len();
    for j in 0..z.len() {
        let y = z.at(j);
        let entry = less(x.at(j), part(y, x, k))?;
        d.set(j, entry);
        k += parts(y);
    }
    Ok(())
}

/// The direction of a solution of the price problem.
fn direction(alloc: Global, z: &Vector<Frac>, x: &Vector<Frac>) -> Result<Vector<Frac>, Stop>
    requires { length x.now ≡ length z.now + length (support z.now) }
    ensures value { IfOk result (λ d. d ≡ difference (length z.now) (support z.now) x.now) }
    ensures past { IfErr result (IsStopIn (less_ops (take (length z.now) x.now) (put_at (length z.now) (support z.now) (drop (length z.now) x.now)))) }
{
    let mut d = Vector::filled(alloc, z.len(), Frac::whole(0))?;
    set_direction(&mut d, z, x)?;
    Ok(d)
}

// ---- the curvature

/// The sum with the product of an entry of d, and its row's product with d. An entry 0 makes no operation.
fn row_added(total: Frac, own: Frac, row: &[Frac], d: &Vector<Frac>) -> Result<Frac, Refused>
    requires { length row.now ≡ length d.now }
    ensures value { IfOk result (λ t. dot_step max_part total own (dot row.now d.now) ≡ Is t) }
    ensures past { IfErr result (λ r. IsPastOf (product_ops (row.now ∷ []) (own ∷ []) d.now) r ⊎ (dot_step max_part total own (dot row.now d.now) ≡ Past r)) }
{
    if is_zero(own) {
        return Ok(total);
    }
    let product = dot_fractions(row, d.as_slice())?;
    add_product(total, own, product)
}

/// The curvature along d: `d^T Q d`.
fn curvature(f: &Form, d: &Vector<Frac>) -> Result<Frac, Refused>
    requires { length d.now ≡ length f.now.form.cost }
    ensures value { IfOk result (λ h. h ≡ curvature f.now.form d.now) }
    ensures past { IfErr result (IsPastOf (square_ops f.now.form.quadratic d.now)) }
{
    let rows = f.quadratic();
    let mut total = Frac::whole(0);
    for j in 0..d.len() {
        total = row_added(total, d.at(j), rows.row(j), d)?;
    }
    Ok(total)
}

// ---- the step

/// How far the step goes along d, where h is the curvature: to the line's minimum `1 / h`, where h isn't 0, or to the nearest zero.
fn step_length(h: Frac, z: &Vector<Frac>, d: &Vector<Frac>) -> Result<Frac, Refused>
    requires size { length z.now ≡ length d.now }
    requires some { (s : ℚ) × (price_length h z.now d.now ≡ Some s) }
    ensures value { IfOk result (λ s. price_length h z.now d.now ≡ Some s) }
    ensures past { IfErr result (IsPastOf (price_move_ops h z.now d.now)) }
{
    let zero = nearest_zero(z, d)?;
    if is_zero(h) {
        let Some(s) = zero else { unreachable!() };
        return Ok(s);
    }
    let minimum = divided(Frac::whole(1), h)?;
    match zero {
        Some(s) => Ok(smaller(minimum, s)),
        None => Ok(minimum),
    }
}

/// The point to which d leads from z.
fn step_along(
    alloc: Global,
    f: &Form,
    z: &Vector<Frac>,
    d: &Vector<Frac>,
) -> Result<Vector<Frac>, Stop>
    requires size { length z.now ≡ length d.now }
    requires direction { length d.now ≡ length f.now.form.cost }
    requires some { (s : ℚ) × (price_length (curvature f.now.form d.now) z.now d.now ≡ Some s) }
    ensures value { IfOk result (λ next. (s : ℚ) × (price_length (curvature f.now.form d.now) z.now d.now ≡ Some s) × (next ≡ moved z.now d.now s)) }
    ensures past { IfErr result (IsStopIn (square_ops f.now.form.quadratic d.now ++ price_move_ops (curvature f.now.form d.now) z.now d.now)) }
{
    let h = curvature(f, d)?;
    let s = step_length(h, z, d)?;
    moved(alloc, z, d, s)
}

/// The point to which the direction of a solution x of the price problem leads from z: as far as the line's minimum or the nearest
/// zero, whichever is nearer.
///
/// # Errors
///
/// `Past` with an operation of the step whose exact result doesn't fit, and `Memory`.
pub fn price_step(
    alloc: Global,
    f: &Form,
    z: &Vector<Frac>,
    x: &Vector<Frac>,
) -> Result<Vector<Frac>, Stop>
    requires solution { IsSolution f.now.form z.now }
    requires semidefinite { IsSemidefinite (length f.now.form.cost) f.now.form.quadratic }
    requires no_ray { (d : List ℚ) → ¬ (IsFormRay f.now.form d) }
    requires solves { linear.IsSolution (price_problem f.now.form z.now) x.now }
    ensures priced { IsStationary f.now.form z.now → IsSolved (price_problem f.now.form z.now) x.now → IfOk result (IsPriced f.now.form z.now) }
    ensures solution { IfOk result (IsSolution f.now.form) }
    ensures stop { IfErr result (IsStopIn (price_ops f.now.form z.now x.now)) }
{
    kept_form(f);
    let d = direction(alloc, z, x)?;
    step_along(alloc, f, z, &d)
}

// ---- multipliers

/// The quotient by a number that isn't 0. An entry 0 makes no operation.
fn quotient(x: Frac, q: Frac) -> Result<Frac, Refused>
    requires { q.num ≢ pos 0 }
    ensures value { IfOk result (λ y. y ≡ x /ℚ q) }
    ensures past { IfErr result (IsPastOf (operation Div x q ∷ [])) }
{
    if is_zero(x) {
        return Ok(x);
    }
    divided(x, q)
}

/// Puts the quotient of each number of w in its place, as many as y has.
fn set_quotients(y: &mut Vector<Frac>, w: &Vector<Frac>, q: Frac) -> Result<(), Refused>
    requires size { length y.old ≤ length w.now }
    requires divisor { q.num ≢ pos 0 }
    ensures value { OnOk result (y.new ≡ map (λ x. x /ℚ q) (take (length y.old) w.now)) }
    ensures past { IfErr result (IsPastOf (map (λ x. operation Div x q) (take (length y.old) w.now))) }
{
    for i in 0..y.len() {
        let entry = quotient(w.at(i), q)?;
        y.set(i, entry);
    }
    Ok(())
}

/// The multipliers of the equations that a Farkas vector of a price problem gives: its entries at the equations of M, each divided by
/// the last entry.
///
/// # Errors
///
/// `Past` with a quotient whose exact result doesn't fit, and `Memory`.
pub fn multipliers(alloc: Global, f: &Form, w: &Vector<Frac>) -> Result<Vector<Frac>, Stop>
    requires { (z : List ℚ) × linear.IsFarkas (price_problem f.now.form z) w.now }
    ensures value { IfOk result (λ y. y ≡ price_multipliers f.now.form w.now) }
    ensures size { IfOk result (λ y. length y ≡ length f.now.form.right) }
    ensures stop { IfErr result (IsStopIn (multiplier_ops f.now.form w.now)) }
{
    kept_form(f);
    let count = f.matrix().rows();
    let mut y = Vector::filled(alloc, count, Frac::whole(0))?;
    set_quotients(&mut y, w, w.at(count))?;
    Ok(y)
}
