// The order of products, also where they don't fit.

ghost use Rattle.rational.specs.Order.{◌<ℚ◌, rational_cmp};
ghost use Rattle.rational.specs.Rational.{◌*ℚ◌, zero_ℚ};
ghost use Rattle.std.specs.Prelude.{◌≡◌, ◌*◌, unsigned_abs};

use crate::wide::Wide;
use frac_core::{Frac, Tried};
use std::cmp::Ordering;

/// The numerator of a * t in size, times the denominator of b * s.
fn cross_product(a: Frac, t: Frac, b: Frac, s: Frac) -> Wide
    ensures { result ≡ unsigned_abs a.num * unsigned_abs t.num * b.den * s.den }
{
    Wide::product(
        a.num().unsigned_abs(),
        t.num().unsigned_abs(),
        b.den().unsigned_abs(),
        s.den().unsigned_abs(),
    )
}

/// The order of a * t and b * s, with t and s above 0, by the signs and then by cross products of all parts.
fn compare_parts(a: Frac, t: Frac, b: Frac, s: Frac) -> Ordering
    requires t { zero_ℚ <ℚ t }
    requires s { zero_ℚ <ℚ s }
    ensures { result ≡ rational_cmp (a *ℚ t) (b *ℚ s) }
{
    let left = cross_product(a, t, b, s);
    let right = cross_product(b, s, a, t);
    match (a.num() < 0, b.num() < 0) {
        (true, false) => Ordering::Less,
        (false, true) => Ordering::Greater,
        (false, false) => left.order(&right),
        (true, true) => right.order(&left),
    }
}

/// The order of a * t and b * s, with t and s above 0. It goes to the parts where a product doesn't fit.
pub(crate) fn compare_products(a: Frac, t: Frac, b: Frac, s: Frac) -> Ordering
    requires t { zero_ℚ <ℚ t }
    requires s { zero_ℚ <ℚ s }
    ensures { result ≡ rational_cmp (a *ℚ t) (b *ℚ s) }
{
    let Tried::Is(left) = a * t else {
        return compare_parts(a, t, b, s);
    };
    let Tried::Is(right) = b * s else {
        return compare_parts(a, t, b, s);
    };
    left.cmp(&right)
}
