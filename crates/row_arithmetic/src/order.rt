// The order of rows over their products with a column, by cross products.

ghost use Rattle.std.specs.Ordering.{int_cmp};
ghost use Rattle.std.specs.Prelude.{◌≡◌, ◌<◌, ◌+◌, ◌*ℤ◌, ◌<ℤ◌, ◌↔◌, ℕ, pos, length, IfSome, IsTrue};
ghost use Rattle.row_arithmetic.specs.Crosses.{IsCrossBelow, IsLeast};
ghost use Rattle.row_arithmetic.specs.Rows.{number, row_in};

use crate::numbers::times;
use crate::row::WholeRow;
use std::cmp::Ordering;

/// The order of x / s and y / u, for s and u above 0.
fn compare_crosses(x: i128, s: i128, y: i128, u: i128) -> Option<Ordering>
    ensures { IfSome result (λ o. o ≡ int_cmp (x *ℤ u) (y *ℤ s)) }
{
    if x == 0 && y == 0 {
        return Some(Ordering::Equal);
    }
    let left = times(x, u)?;
    let right = times(y, s)?;
    Some(left.cmp(&right))
}

/// Whether a row over s is below another one over u.
fn is_below(row: &[i128], s: i128, other: &[i128], u: i128) -> Option<bool>
    requires { length row.now ≡ length other.now }
    ensures { IfSome result (λ below. IsTrue below ↔ IsCrossBelow s row.now u other.now) }
{
    for k in 0..row.len() {
        match compare_crosses(row[k], s, other[k], u)? {
            Ordering::Less => return Some(true),
            Ordering::Greater => return Some(false),
            Ordering::Equal => {}
        }
    }
    Some(false)
}

/// The least place so far, after the place k. None where a cross product doesn't fit.
fn next_least(
    rows: &[WholeRow],
    products: &[i128],
    best: Option<usize>,
    k: usize,
) -> Option<Option<usize>>
    requires rows { k < length rows.now }
    requires products { k < length products.now }
    requires sizes { (i : ℕ) → i < length rows.now → length (row_in rows.now i).numbers ≡ length rows.now }
    requires best { IsLeast products.now rows.now k best }
    ensures { IfSome result (IsLeast products.now rows.now (k + 1)) }
{
    if products[k] <= 0 {
        return Some(best);
    }
    let Some(l) = best else {
        return Some(Some(k));
    };
    let row = &rows[k];
    let other = &rows[l];
    if is_below(&row.numbers, products[k], &other.numbers, products[l])? {
        Some(Some(k))
    } else {
        Some(best)
    }
}

/// The place with the least row among the first `count`, each row divided by its product; places whose product isn't above 0 are left out.
/// The rows are as wide as they are many. None where no place is left, and where a cross product doesn't fit 128 bits.
pub fn least(rows: &[WholeRow], products: &[i128], count: usize) -> Option<usize>
    requires rows { count < length rows.now }
    requires products { length products.now ≡ length rows.now }
    requires sizes { (i : ℕ) → i < length rows.now → length (row_in rows.now i).numbers ≡ length rows.now }
    ensures { IfSome result (λ l. IsLeast products.now rows.now count (Some l)) }
{
    let mut best = None;
    for k in 0..count {
        best = next_least(rows, products, best, k)?;
    }
    best
}
