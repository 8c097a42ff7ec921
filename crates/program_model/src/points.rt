// The tests of a point, and its value.

ghost use Rattle.std.specs.Prelude.{◌≡◌, Ok, Err, length, pos};
ghost use Rattle.program_law.specs.Program.{sides, marks};
ghost use Rattle.cert_check_law.specs.Chain.{answered, NoTestFails};
ghost use Rattle.cert_check_law.specs.Point.{rows_within, columns_within, point_test};
ghost use Rattle.cert_check_law.specs.Value.{form_of, half_form, value_of};
ghost use Rattle.program_model.specs.Totals.{total_with};
ghost use Rattle.program_model.specs.Tested.{event_of, IsPointEvent, IsInsideIfTold, IsValueIfTold};

use cert_check_law::Event;
use check_steps::{
    column_tested, dot_with, entry, product_added, quotient, row_product, row_tested, sum,
};
use frac_core::{Frac, Refused, Tried, Vector};
use program_data::Program;
use program_regions::Region;

/// What the tests of a point find: it is inside, or the first row whose sum is outside its sides, or else the first column
/// that is outside its bounds or is marked and not whole.
#[derive(Clone, Copy, Debug, PartialEq, Eq)]
pub enum PointTest {
    Inside,
    Row(u32),
    Bound(u32),
    Mark(u32),
}

/// Each row's sum is within its sides.
fn rows_tested(p: &Program, x: &Vector<Frac>) -> Result<(), Event>
    requires { length x.now ≡ length p.now.columns }
    ensures { result ≡ rows_within 1 (sides p.now) p.now.entries x.now }
{
    for i in 0..p.rows() {
        row_tested(i + 1, p.row(i), p.entries_of(i), x)?;
    }
    Ok(())
}

/// Each column is within its bounds, and whole where it is marked.
fn columns_tested(p: &Program, region: &Region, x: &Vector<Frac>) -> Result<(), Event>
    requires region { length region.now ≡ length p.now.columns }
    requires point { length x.now ≡ length p.now.columns }
    ensures { result ≡ columns_within 1 region.now (marks p.now) x.now }
{
    let bounds = region.bounds();
    for j in 0..p.columns() {
        column_tested(
            j + 1,
            bounds[j as usize],
            p.is_marked(j),
            entry(x, j as usize),
        )?;
    }
    Ok(())
}

/// The tests of a point in a region: each row's sum within its sides, then each column within its bounds and whole where it is
/// marked.
///
/// # Errors
/// The first operation that is past or test that fails.
#[tactic(auto, unfolding(cert_check_law::specs::Point::point_test))]
pub fn point_tested(p: &Program, region: &Region, x: &Vector<Frac>) -> Result<(), Event>
    requires region { length region.now ≡ length p.now.columns }
    requires point { length x.now ≡ length p.now.columns }
    ensures { result ≡ point_test p.now region.now x.now }
{
    rows_tested(p, x)?;
    columns_tested(p, region, x)
}

/// The answer that tells an event.
fn told(event: Event) -> Result<PointTest, Refused>
    requires { IsPointEvent event }
    ensures { event_of result ≡ Err event }
{
    match event {
        Event::Past(refused) => Err(refused),
        Event::Failed { rule, place } => match rule {
            1 => Ok(PointTest::Row(place - 1)),
            2 => Ok(PointTest::Bound(place - 1)),
            _ => Ok(PointTest::Mark(place - 1)),
        },
    }
}

/// Tests a point in a region: each row's sum within its sides, then each column within its bounds and whole where it is marked.
///
/// # Errors
/// The first operation whose result does not fit, where no test before it fails.
pub fn check_point(p: &Program, region: &Region, x: &Vector<Frac>) -> Result<PointTest, Refused>
    requires region { length region.now ≡ length p.now.columns }
    requires point { length x.now ≡ length p.now.columns }
    ensures event { event_of result ≡ point_test p.now region.now x.now }
    ensures inside { IsInsideIfTold p.now region.now x.now result }
{
    let _columns = p.columns();
    match point_tested(p, region, x) {
        Ok(()) => Ok(PointTest::Inside),
        Err(event) => told(event),
    }
}

/// The sum so far, if it has come this far, with a product.
fn total_added(total: Result<Frac, Event>, a: Frac, b: Frac) -> Result<Frac, Event>
    ensures { result ≡ total_with total a b }
{
    product_added(total?, a, b)
}

/// The form of a vector, or the first operation whose result does not fit. The products of all rows come before the sum, so an
/// event of the sum waits for theirs.
#[tactic(auto, unfolding(cert_check_law::specs::Value::form_of))]
pub fn form(p: &Program, x: &Vector<Frac>) -> Result<Frac, Event>
    requires { length x.now ≡ length p.now.columns }
    ensures { result ≡ form_of p.now.pairs x.now }
{
    let mut total = Ok(Frac::whole(0));
    for j in 0..p.columns() {
        let own = entry(x, j as usize);
        let product = row_product(p.pairs_of(j), own, x)?;
        total = total_added(total, own, product);
    }
    total
}

/// Half the form of a vector, or the first operation whose result does not fit.
#[tactic(auto, unfolding(cert_check_law::specs::Value::half_form))]
pub fn half_form(p: &Program, x: &Vector<Frac>) -> Result<Frac, Event>
    requires { length x.now ≡ length p.now.columns }
    ensures { result ≡ half_form p.now.pairs x.now }
{
    let form = form(p, x)?;
    quotient(form, Frac::whole(2))
}

#[tactic(auto, unfolding(cert_check_law::specs::Value::value_of))]
fn calculated(p: &Program, x: &Vector<Frac>) -> Result<Frac, Event>
    requires { length x.now ≡ length p.now.columns }
    ensures { result ≡ value_of p.now x.now }
{
    let half = half_form(p, x)?;
    let linear = dot_with(p.costs(), x)?;
    let both = sum(half, linear)?;
    sum(both, p.constant())
}

/// A calculation of operations alone, as their answer.
fn as_tried(calculated: Result<Frac, Event>) -> Tried
    requires { NoTestFails calculated }
    ensures { answered result ≡ calculated }
{
    match calculated {
        Ok(value) => Tried::Is(value),
        Err(event) => match event {
            Event::Past(refused) => Tried::Past(refused),
            Event::Failed { .. } => unreachable!(),
        },
    }
}

/// The value of a point, or the first operation whose result does not fit.
pub fn value(p: &Program, x: &Vector<Frac>) -> Tried
    requires { length x.now ≡ length p.now.columns }
    ensures calculation { answered result ≡ value_of p.now x.now }
    ensures value { IsValueIfTold p.now x.now result }
{
    as_tried(calculated(p, x))
}
