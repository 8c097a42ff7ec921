//! The small steps of the checking calculation, each with exactly its first event.
#![tactic(auto)]

ghost use Rattle.std.specs.Prelude.{◌≡◌, ◌≢◌, ◌<◌, length, pos, slice_index_or};
ghost use Rattle.cert_check_law.specs.Chain.{answered, op, test};
ghost use Rattle.frac_core.specs.declared.fractions.Op.TheVariants as Op;
ghost use Rattle.certificate_law.specs.Leaf.{side_for};
ghost use Rattle.cert_check_law.specs.Dot.{with_product, dot_from, dot_of};
ghost use Rattle.cert_check_law.specs.Leaf.{with_side};
ghost use Rattle.cert_check_law.specs.Point.{is_above_low, is_below_high, is_within, keeps_mark, row_within, column_within};
ghost use Rattle.cert_check_law.specs.Value.{row_product};

use cert_check_law::Event;
use frac_core::{Frac, Tried, Vector};
use program_law::Row;

/// An operation's result, or the event that it is past.
pub fn answered(tried: Tried) -> Result<Frac, Event>
    ensures { result ≡ answered tried }
{
    match tried {
        Tried::Is(value) => Ok(value),
        Tried::Past(refused) => Err(Event::Past(refused)),
    }
}

/// The product.
pub fn product(a: Frac, b: Frac) -> Result<Frac, Event>
    ensures { result ≡ op Op.Mul a b }
{
    answered(a * b)
}

/// The sum.
pub fn sum(a: Frac, b: Frac) -> Result<Frac, Event>
    ensures { result ≡ op Op.Add a b }
{
    answered(a + b)
}

/// The difference.
pub fn difference(a: Frac, b: Frac) -> Result<Frac, Event>
    ensures { result ≡ op Op.Sub a b }
{
    answered(a - b)
}

/// The quotient by a number that isn't 0.
pub fn quotient(a: Frac, b: Frac) -> Result<Frac, Event>
    requires { b.num ≢ pos 0 }
    ensures { result ≡ op Op.Div a b }
{
    answered(a / b)
}

/// A test, with the rule that it breaks and the place where it fails.
pub fn tested(holds: bool, rule: u8, place: u32) -> Result<(), Event>
    ensures { result ≡ test holds rule place }
{
    if holds {
        Ok(())
    } else {
        Err(Event::Failed { rule, place })
    }
}

/// The sum with the product of two entries. An entry 0 makes no operation.
#[tactic(auto, unfolding(cert_check_law::specs::Dot::with_product))]
pub fn product_added(total: Frac, a: Frac, b: Frac) -> Result<Frac, Event>
    ensures { result ≡ with_product total a b }
{
    if a.is_zero() || b.is_zero() {
        return Ok(total);
    }
    let product = product(a, b)?;
    sum(total, product)
}

/// The entry at a place.
pub fn entry(xs: &Vector<Frac>, i: usize) -> Frac
    requires { i < length xs.now }
    ensures { result ≡ slice_index_or xs.now i result }
{
    xs.at(i)
}

/// The product of two vectors.
pub fn dot_with(xs: &[Frac], ys: &Vector<Frac>) -> Result<Frac, Event>
    requires { length xs.now ≡ length ys.now }
    ensures { result ≡ dot_of xs.now ys.now }
{
    let mut total = Frac::whole(0);
    for i in 0..xs.len() {
        total = product_added(total, xs[i], entry(ys, i))?;
    }
    Ok(total)
}

/// The side that a multiplier takes: the low one where it is above 0, else the high one.
pub fn side_of(y: Frac, sides: Row) -> Option<Frac>
    ensures { result ≡ side_for y sides }
{
    if y.is_positive() {
        sides.low
    } else {
        sides.high
    }
}

/// The sum with a multiplier times its side, at a node of a tree. A multiplier 0 makes no operation and no test.
#[tactic(auto, unfolding(cert_check_law::specs::Leaf::with_side))]
pub fn side_added(node: u32, total: Frac, y: Frac, sides: Row) -> Result<Frac, Event>
    ensures { result ≡ with_side node total y sides }
{
    if y.is_zero() {
        return Ok(total);
    }
    let Some(side) = side_of(y, sides) else {
        return Err(Event::Failed {
            rule: 7,
            place: node,
        });
    };
    let product = product(y, side)?;
    sum(total, product)
}

/// Whether a number is at least a low side, where there is one.
pub fn above_low(low: Option<Frac>, x: Frac) -> bool
    ensures { result ≡ is_above_low low x }
{
    match low {
        None => true,
        Some(low) => low.at_most(x),
    }
}

/// Whether a number is at most a high side, where there is one.
pub fn below_high(high: Option<Frac>, x: Frac) -> bool
    ensures { result ≡ is_below_high high x }
{
    match high {
        None => true,
        Some(high) => x.at_most(high),
    }
}

/// Whether a number is within its sides.
pub fn within(sides: Row, x: Frac) -> bool
    ensures { result ≡ is_within sides x }
{
    above_low(sides.low, x) && below_high(sides.high, x)
}

/// Whether a number is whole where it is marked.
pub fn whole_if(marked: bool, x: Frac) -> bool
    ensures { result ≡ keeps_mark marked x }
{
    if marked { x.is_whole() } else { true }
}

/// The test that a row's sum at a point is within its sides.
#[tactic(auto, unfolding(cert_check_law::specs::Point::row_within))]
pub fn row_tested(place: u32, sides: Row, row: &[Frac], x: &Vector<Frac>) -> Result<(), Event>
    requires { length row.now ≡ length x.now }
    ensures { result ≡ row_within place sides row.now x.now }
{
    let total = dot_with(row, x)?;
    tested(within(sides, total), 1, place)
}

/// The tests of a column's number: it is within its bounds, and whole where it is marked.
#[tactic(auto, unfolding(cert_check_law::specs::Point::column_within))]
pub fn column_tested(place: u32, bounds: Row, marked: bool, x: Frac) -> Result<(), Event>
    ensures { result ≡ column_within place bounds marked x }
{
    tested(within(bounds, x), 2, place)?;
    tested(whole_if(marked, x), 3, place)
}

/// A row of the form times a vector, and 0 where the row's own entry of the vector is 0.
#[tactic(auto, unfolding(cert_check_law::specs::Value::row_product))]
pub fn row_product(row: &[Frac], own: Frac, x: &Vector<Frac>) -> Result<Frac, Event>
    requires { length row.now ≡ length x.now }
    ensures { result ≡ row_product row.now own x.now }
{
    if own.is_zero() {
        return Ok(Frac::whole(0));
    }
    dot_with(row, x)
}
