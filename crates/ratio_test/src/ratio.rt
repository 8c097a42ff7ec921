// The place that leaves, by the lexicographic ratio rule.

ghost use Rattle.ratio_test.specs.Ratio.{IsLeast, compare_quotients};
ghost use Rattle.linear_basis_law.specs.Exchange.{quotient_row};
ghost use Rattle.linear_basis_law.specs.Lexicographic.{IsLexBelow};
ghost use Rattle.elimination_law.specs.Answers.{right_beside};
ghost use Rattle.exact_matrix.specs.Grid.{IsGrid};
ghost use Rattle.rational.specs.Order.{◌<ℚ◌, rational_cmp};
ghost use Rattle.rational.specs.Rational.{◌/ℚ◌, zero_ℚ};
ghost use Rattle.rational.specs.Sums.{entry};
ghost use Rattle.rational.specs.Vectors.{row_at};
ghost use Rattle.std.specs.Prelude.{◌≡◌, ◌<◌, ◌↔◌, ◌+◌, ◌∷◌, [], length, IsTrue};

use crate::crosses::compare_products;
use exact_matrix::Matrix;
use frac_core::{Frac, Vector, is_zero};
use std::cmp::Ordering;

/// Whether a number is above 0.
pub fn is_positive(x: Frac) -> bool
    ensures { IsTrue result ↔ (zero_ℚ <ℚ x) }
{
    0 < x.num()
}

/// The order of two numbers, each divided by a number above 0, by cross products. Two zeros need none.
fn compare_quotients(a: Frac, s: Frac, b: Frac, t: Frac) -> Ordering
    requires s { zero_ℚ <ℚ s }
    requires t { zero_ℚ <ℚ t }
    ensures { result ≡ rational_cmp (a /ℚ s) (b /ℚ t) }
{
    if is_zero(a) && is_zero(b) {
        return Ordering::Equal;
    }
    compare_products(a, t, b, s)
}

/// The order of two rows, each divided by a number above 0: the first entries that differ decide.
fn compare_rows(row: &[Frac], s: Frac, other: &[Frac], t: Frac) -> Ordering
    requires lengths { length row.now ≡ length other.now }
    requires s { zero_ℚ <ℚ s }
    requires t { zero_ℚ <ℚ t }
    ensures { result ≡ compare_quotients s t row.now other.now }
{
    for i in 0..row.len() {
        let order = compare_quotients(row[i], s, other[i], t);
        if order != Ordering::Equal {
            return order;
        }
    }
    Ordering::Equal
}

/// The order of two rows that begin with a value, each divided by a number above 0.
fn compare_values(a: Frac, row: &[Frac], s: Frac, b: Frac, other: &[Frac], t: Frac) -> Ordering
    requires lengths { length row.now ≡ length other.now }
    requires s { zero_ℚ <ℚ s }
    requires t { zero_ℚ <ℚ t }
    ensures { result ≡ compare_quotients s t (a ∷ row.now) (b ∷ other.now) }
{
    let order = compare_quotients(a, s, b, t);
    if order != Ordering::Equal {
        return order;
    }
    compare_rows(row, s, other, t)
}

/// The order of the rows of two places, each its value and then its row of the inverse, divided by its coordinate.
fn compare_places(
    point: &Vector<Frac>,
    inverse: &Matrix<Frac>,
    coordinates: &Vector<Frac>,
    k: usize,
    l: usize,
) -> Ordering
    requires point { length point.now ≡ length inverse.now.rows }
    requires coordinates { length coordinates.now ≡ length inverse.now.rows }
    requires k { k < length coordinates.now }
    requires l { l < length coordinates.now }
    requires first { zero_ℚ <ℚ entry coordinates.now k }
    requires second { zero_ℚ <ℚ entry coordinates.now l }
    ensures { result ≡ compare_quotients (entry coordinates.now k) (entry coordinates.now l) (row_at (right_beside point.now inverse.now.rows) k) (row_at (right_beside point.now inverse.now.rows) l) }
{
    let s = coordinates.at(k);
    let t = coordinates.at(l);
    compare_values(
        point.at(k),
        inverse.row(k),
        s,
        point.at(l),
        inverse.row(l),
        t,
    )
}

/// The least place so far, after the place k.
fn least(
    point: &Vector<Frac>,
    inverse: &Matrix<Frac>,
    coordinates: &Vector<Frac>,
    best: Option<usize>,
    k: usize,
) -> Option<usize>
    requires shape { IsGrid inverse.now }
    requires point { length point.now ≡ length inverse.now.rows }
    requires coordinates { length coordinates.now ≡ length inverse.now.rows }
    requires k { k < length coordinates.now }
    requires best { IsLeast coordinates.now (right_beside point.now inverse.now.rows) k best }
    ensures { IsLeast coordinates.now (right_beside point.now inverse.now.rows) (k + 1) result }
{
    if !is_positive(coordinates.at(k)) {
        return best;
    }
    let Some(l) = best else {
        return Some(k);
    };
    if compare_places(point, inverse, coordinates, k, l) == Ordering::Less {
        return Some(k);
    }
    Some(l)
}

/// The place that leaves: of those with a coordinate above 0 the one with the least row, its value and then its row of the inverse, divided
/// by the coordinate. None where no coordinate is above 0.
pub fn leaving(
    point: &Vector<Frac>,
    inverse: &Matrix<Frac>,
    coordinates: &Vector<Frac>,
) -> Option<usize>
    requires shape { IsGrid inverse.now }
    requires point { length point.now ≡ length inverse.now.rows }
    requires coordinates { length coordinates.now ≡ length inverse.now.rows }
    ensures { IsLeast coordinates.now (right_beside point.now inverse.now.rows) (length coordinates.now) result }
{
    let mut best = None;
    for k in 0..coordinates.len() {
        best = least(point, inverse, coordinates, best, k);
    }
    best
}
