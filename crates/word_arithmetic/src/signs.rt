// Products of numbers with signs, and sums of two of them.

ghost use Rattle.word_arithmetic.specs.Signed.{signed};
ghost use Rattle.std.specs.Int.{w128};
ghost use Rattle.std.specs.Option.{SomeIff};
ghost use Rattle.std.specs.Prelude.{◌≡◌, pos, ◌+ℤ◌, ◌*ℤ◌, ◌^◌, ◌<◌, unsigned_abs, ◌↔◌, IsTrue, IfSome, FitsSigned};

use crate::wide::Wide;

/// The least size that does not fit 63 bits.
const SHORT: u128 = 9223372036854775808;

/// Whether it is below 2^63 in size.
fn is_short(n: i128) -> bool
    ensures { IsTrue result ↔ (unsigned_abs n < 2 ^ 63) }
{
    n.unsigned_abs() < SHORT
}

/// The product, where it fits.
pub fn times(x: i128, y: i128) -> Option<i128>
    ensures { SomeIff result (FitsSigned w128 (x *ℤ y)) (x *ℤ y) }
{
    if is_short(x) && is_short(y) {
        Some(x * y)
    } else {
        x.checked_mul(y)
    }
}

/// `a * x + b * y`, or `None`, as it may be where a number on the way passes 128 bits.
pub fn cross_sum(a: i128, x: u128, b: i128, y: u128) -> Option<i128>
    requires left { x < 2 ^ 127 }
    requires right { y < 2 ^ 127 }
    ensures { IfSome result (λ t. t ≡ a *ℤ pos x +ℤ b *ℤ pos y) }
{
    let left = times(a, x as i128)?;
    let right = times(b, y as i128)?;
    left.checked_add(right)
}

/// The sign of `a * x + b * y`, where `true` is below 0, and its size.
pub fn signed_sum(a: i128, x: u128, b: i128, y: u128) -> (bool, Wide)
    requires left { x < 2 ^ 127 }
    requires right { y < 2 ^ 127 }
    ensures { signed result.0 result.1 ≡ a *ℤ pos x +ℤ b *ℤ pos y }
{
    let left = Wide::product(a.unsigned_abs(), x);
    let right = Wide::product(b.unsigned_abs(), y);
    let same = (a < 0) == (b < 0);
    if same {
        return (a < 0, left.plus(&right));
    }
    if left.is_below(&right) {
        (b < 0, right.minus(&left))
    } else {
        (a < 0, left.minus(&right))
    }
}
