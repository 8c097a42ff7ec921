// Division by odd numbers through their inverses modulo powers of two, which takes products alone.

ghost use Rattle.rational.specs.Divisors.{gcd_of};
ghost use Rattle.std.specs.Prelude.{◌≡◌, ◌%◌, ◌^◌, ◌+◌, ◌*◌, ◌/◌, ◌<◌};
ghost use Rattle.std.specs.Int.{◌∣◌};

use crate::divisors::WORD;

/// The negative of the inverse of an odd number modulo 2^64. Each of Newton's steps doubles how many digits of it are right.
fn negative_inverse(odd: u64) -> u64
    requires { odd % 2 ≡ 1 }
    ensures { 2 ^ 64 ∣ odd * result + 1 }
{
    let mut inverse: u64 = 1;
    for _ in 0..6u32 {
        inverse = inverse.wrapping_mul(odd.wrapping_mul(inverse).wrapping_add(2));
    }
    inverse
}

/// A number of 64 bits that has the same divisors in common with an odd number as `n` has.
///
/// A multiple of the odd number that ends in the same 64 digits as `n` is taken from `n`, and those digits, now 0, are left out.
pub fn reduced(n: u128, odd: u64) -> u64
    requires { odd % 2 ≡ 1 }
    ensures { gcd_of result odd ≡ gcd_of n odd }
{
    let low = (n & WORD) as u64;
    let factor = low.wrapping_mul(negative_inverse(odd).wrapping_neg());
    let taken = factor as u128 * odd as u128;
    ((n >> 64) as u64).abs_diff((taken >> 64) as u64)
}

/// The negative of the inverse of an odd number modulo 2^128: one more of Newton's steps.
fn wide_negative_inverse(odd: u128) -> u128
    requires { odd % 2 ≡ 1 }
    ensures { 2 ^ 128 ∣ odd * result + 1 }
{
    let inverse = negative_inverse((odd & WORD) as u64) as u128;
    inverse.wrapping_mul(odd.wrapping_mul(inverse).wrapping_add(2))
}

/// The quotient by a divisor of the number.
pub fn exact_quotient(n: u128, divisor: u128) -> u128
    requires positive { 0 < divisor }
    requires divides { divisor ∣ n }
    ensures { result ≡ n / divisor }
{
    let twos = divisor.trailing_zeros();
    let inverse = wide_negative_inverse(divisor >> twos);
    (n >> twos).wrapping_mul(inverse).wrapping_neg()
}
