// Whole numbers of 128 bits: products that may not fit, divisors, quotients.

ghost use Rattle.rational.specs.Divisors.{gcd_of};
ghost use Rattle.std.specs.Int.{◌∣◌};
ghost use Rattle.std.specs.Prelude.{◌≡◌, ◌<◌, ◌↔◌, ◌+ℤ◌, ◌*ℤ◌, ◌-ℤ◌, ◌<ℤ◌, ℕ, pos, unsigned_abs, IsTrue, IfSome};

use word_arithmetic::quotient;

/// Whether it is above 0.
pub fn is_positive(n: i128) -> bool
    ensures { IsTrue result ↔ (pos 0 <ℤ n) }
{
    0 < n
}

/// The product, where it fits 128 bits.
pub fn times(x: i128, y: i128) -> Option<i128>
    ensures { IfSome result (λ t. t ≡ x *ℤ y) }
{
    word_arithmetic::times(x, y)
}

/// p x - f y, where no number on the way passes 128 bits.
pub(crate) fn less(p: i128, x: i128, f: i128, y: i128) -> Option<i128>
    ensures { IfSome result (λ t. t ≡ p *ℤ x -ℤ f *ℤ y) }
{
    let left = times(p, x)?;
    let right = times(f, y)?;
    left.checked_sub(right)
}

/// t + x y, where no number on the way passes 128 bits.
pub(crate) fn more(t: i128, x: i128, y: i128) -> Option<i128>
    ensures { IfSome result (λ s. s ≡ t +ℤ x *ℤ y) }
{
    let product = times(x, y)?;
    t.checked_add(product)
}

/// The greatest common divisor.
pub(crate) fn gcd(a: u128, b: u128) -> u128
    ensures value { result ≡ gcd_of a b }
    ensures positive { 0 < b → 0 < result }
    ensures left { result ∣ a }
    ensures right { result ∣ b }
{
    word_arithmetic::gcd(a, b)
}

/// A number above 0 and another one without the factors that they have in common: each divided by their greatest common divisor.
pub fn lowest(bottom: i128, t: i128) -> (i128, i128)
    requires { pos 0 <ℤ bottom }
    ensures { (g : ℕ) × (0 < g) × (result.0 *ℤ pos g ≡ bottom) × (result.1 *ℤ pos g ≡ t) × (g ≡ gcd_of (unsigned_abs t) (unsigned_abs bottom)) }
{
    let common = gcd(t.unsigned_abs(), bottom.unsigned_abs());
    (quotient(bottom, common), quotient(t, common))
}

/// The quotient by a number above 0, where that divides.
pub fn exact(n: i128, d: i128) -> Option<i128>
    requires { pos 0 <ℤ d }
    ensures { IfSome result (λ q. q *ℤ d ≡ n) }
{
    let size = d.unsigned_abs();
    if gcd(n.unsigned_abs(), size) == size {
        Some(quotient(n, size))
    } else {
        None
    }
}

/// The least common multiple of two numbers above 0, where it fits 128 bits.
pub fn multiple(x: i128, y: i128) -> Option<i128>
    requires x { pos 0 <ℤ x }
    requires y { pos 0 <ℤ y }
    ensures positive { IfSome result (λ t. pos 0 <ℤ t) }
    ensures least { IfSome result (λ t. t *ℤ pos (gcd_of (unsigned_abs y) (unsigned_abs x)) ≡ x *ℤ y) }
{
    if y == 1 {
        return Some(x);
    }
    let (part, _) = lowest(x, y);
    times(part, y)
}
