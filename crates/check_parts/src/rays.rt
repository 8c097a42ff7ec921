// The tests of a ray.

ghost use Rattle.std.specs.Prelude.{◌≡◌, length};
ghost use Rattle.program_law.specs.Program.{sides, bounds};
ghost use Rattle.cert_check_law.specs.Ray.{keeps_sides, row_keeps, rows_keep, columns_keep, row_flat, rows_flat, ray_test};

use cert_check_law::Event;
use check_steps::{dot_with, entry, tested};
use frac_core::{Frac, Vector};
use program_data::Program;
use program_law::Row;

/// Whether a change leads out of no side.
fn keeps_sides(sides: Row, d: Frac) -> bool
    ensures { result ≡ keeps_sides sides d }
{
    (sides.low.is_none() || !d.is_negative()) && (sides.high.is_none() || !d.is_positive())
}

/// A row's sum along the ray keeps its sides.
#[tactic(auto, unfolding(cert_check_law::specs::Ray::row_keeps))]
fn row_keeps(place: u32, sides: Row, row: &[Frac], d: &Vector<Frac>) -> Result<(), Event>
    requires { length row.now ≡ length d.now }
    ensures { result ≡ row_keeps place sides row.now d.now }
{
    let total = dot_with(row, d)?;
    tested(keeps_sides(sides, total), 11, place)
}

/// All rows keep their sides.
fn rows_keep(p: &Program, d: &Vector<Frac>) -> Result<(), Event>
    requires { length d.now ≡ length p.now.columns }
    ensures { result ≡ rows_keep 1 (sides p.now) p.now.entries d.now }
{
    for i in 0..p.rows() {
        row_keeps(i + 1, p.row(i), p.entries_of(i), d)?;
    }
    Ok(())
}

/// All columns keep their bounds.
fn columns_keep(p: &Program, d: &Vector<Frac>) -> Result<(), Event>
    requires { length d.now ≡ length p.now.columns }
    ensures { result ≡ columns_keep 1 (bounds p.now) d.now }
{
    for j in 0..p.columns() {
        tested(keeps_sides(p.bounds(j), entry(d, j as usize)), 12, j + 1)?;
    }
    Ok(())
}

/// A row of the form along the ray is 0.
#[tactic(auto, unfolding(cert_check_law::specs::Ray::row_flat))]
fn row_flat(place: u32, row: &[Frac], d: &Vector<Frac>) -> Result<(), Event>
    requires { length row.now ≡ length d.now }
    ensures { result ≡ row_flat place row.now d.now }
{
    let total = dot_with(row, d)?;
    tested(total.is_zero(), 13, place)
}

/// All rows of the form along the ray are 0.
fn rows_flat(p: &Program, d: &Vector<Frac>) -> Result<(), Event>
    requires { length d.now ≡ length p.now.columns }
    ensures { result ≡ rows_flat 1 p.now.pairs d.now }
{
    for j in 0..p.columns() {
        row_flat(j + 1, p.pairs_of(j), d)?;
    }
    Ok(())
}

/// The tests of a ray: along it each row keeps its sides and each column its bounds, the form is 0, and the costs fall.
///
/// # Errors
/// The first event of the calculation: an operation that is past, or the test that fails, with the place of the row or column, from 1, where it is that of one.
#[tactic(auto, unfolding(cert_check_law::specs::Ray::ray_test))]
pub fn ray_tested(p: &Program, d: &Vector<Frac>) -> Result<(), Event>
    requires { length d.now ≡ length p.now.columns }
    ensures { result ≡ ray_test p.now d.now }
{
    rows_keep(p, d)?;
    columns_keep(p, d)?;
    rows_flat(p, d)?;
    let slope = dot_with(p.costs(), d)?;
    tested(slope.is_negative(), 14, 0)
}
