// The ways back from a form's columns and equations to the file's columns and rows.

ghost use Rattle.equational.specs.Back.{column_in, columns_in, multiplier_at};
ghost use Rattle.exact_matrix.specs.Stops.{Answers};
ghost use Rattle.frac_core.specs.Calculated.{operated};
ghost use Rattle.equational_law.specs.Calculation.{point_entry_in, ray_entry_in};
ghost use Rattle.equational_law.specs.Standing.{parts, parts_at, standing};
ghost use Rattle.frac_core.specs.Parts.{max_part};
ghost use Rattle.frac_core.specs.declared.fractions.Op.TheVariants.{Sub};
ghost use Rattle.rational.specs.Sums.{entry};
ghost use Rattle.std.specs.List.{All};
ghost use Rattle.std.specs.Prelude.{◌≡◌, ◌<◌, ◌≤◌, ◌+◌, drop, length, map, IfOk};

use equational_rows::{First, parts_of};
use exact_matrix::Stop;
use frac_core::{Frac, Memory, Refused, Vector, added, subtracted};
use program_law::Row;
use std::alloc::Global;

/// What is carried back to the file's columns.
#[derive(Clone, Copy)]
pub(crate) enum Carried {
    Point,
    Direction,
}

/// `z - z'`, for the two columns of the form from `place` on.
fn difference(z: &Vector<Frac>, place: usize) -> Result<Frac, Refused>
    requires { place + 2 ≤ length z.now }
    ensures { result ≡ operated max_part Sub (entry (drop place z.now) 0) (entry (drop place z.now) 1) }
{
    let _length = z.len();
    subtracted(z.at(place), z.at(place + 1))
}

/// A column of a point, of which the form's columns begin at `place`.
fn point_column(bounds: &Row, z: &Vector<Frac>, place: usize) -> Result<Frac, Refused>
    requires { place + parts_at (standing bounds.now) ≤ length z.now }
    ensures { result ≡ point_entry_in max_part (standing bounds.now) (drop place z.now) }
{
    match (bounds.low, bounds.high) {
        (Some(low), _) => added(low, z.at(place)),
        (None, Some(high)) => subtracted(high, z.at(place)),
        (None, None) => difference(z, place),
    }
}

/// A column of a direction, of which the form's columns begin at `place`.
fn direction_column(bounds: &Row, d: &Vector<Frac>, place: usize) -> Result<Frac, Refused>
    requires { place + parts_at (standing bounds.now) ≤ length d.now }
    ensures { result ≡ ray_entry_in max_part (standing bounds.now) (drop place d.now) }
{
    match (bounds.low, bounds.high) {
        (Some(_), _) => Ok(d.at(place)),
        (None, Some(_)) => Ok(-d.at(place)),
        (None, None) => difference(d, place),
    }
}

/// A column of what is carried.
fn column(carried: Carried, bounds: &Row, z: &Vector<Frac>, place: usize) -> Result<Frac, Refused>
    requires { place + parts_at (standing bounds.now) ≤ length z.now }
    ensures { result ≡ column_in carried (standing bounds.now) (drop place z.now) }
{
    match carried {
        Carried::Point => point_column(bounds, z, place),
        Carried::Direction => direction_column(bounds, z, place),
    }
}

/// The file's columns in order, of which each stands on the form's columns after those of the columns before it.
pub(crate) fn columns_back(
    alloc: Global,
    carried: Carried,
    region: &[Row],
    z: &Vector<Frac>,
) -> Result<Vector<Frac>, Stop>
    requires { parts region.now ≤ length z.now }
    ensures { Answers (λ x. x) result (columns_in carried region.now z.now) }
{
    let _length = z.len();
    let mut columns = Vector::filled(alloc, region.len(), Frac::whole(0))?;
    let mut place = 0;
    for j in 0..region.len() {
        let bounds = &region[j];
        let entry = column(carried, bounds, z, place)?;
        columns.set(j, entry);
        place += parts_of(*bounds);
    }
    Ok(columns)
}

/// The multiplier of a row, which is that of its first equation, negated where that was.
fn multiplier(first: First, y: &Vector<Frac>) -> Frac
    requires { first.equation < length y.now }
    ensures { result ≡ multiplier_at y.now first }
{
    let multiplier = y.at(first.equation);
    if first.negated {
        -multiplier
    } else {
        multiplier
    }
}

/// The multipliers of the rows with these first equations.
pub(crate) fn rows_back(
    alloc: Global,
    firsts: &[First],
    y: &Vector<Frac>,
) -> Result<Vector<Frac>, Memory>
    requires { All (λ f. f.equation < length y.now) firsts.now }
    ensures { IfOk result (λ ys. ys ≡ map (multiplier_at y.now) firsts.now) }
{
    let mut multipliers = Vector::filled(alloc, firsts.len(), Frac::whole(0))?;
    for i in 0..firsts.len() {
        multipliers.set(i, multiplier(firsts[i], y));
    }
    Ok(multipliers)
}
