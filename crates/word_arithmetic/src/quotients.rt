// Quotients by divisors.

ghost use Rattle.std.specs.Int.{◌∣◌};
ghost use Rattle.std.specs.Prelude.{◌≡◌, pos, ◌<◌, unsigned_abs, int_div, ◌/◌};

use crate::divisors::WORD;
use crate::inverses::exact_quotient;

/// The quotient by a positive divisor of the number.
pub fn size_quotient(n: u128, g: u128) -> u128
    requires positive { 0 < g }
    requires divides { g ∣ n }
    ensures { result ≡ n / g }
{
    if g == 1 {
        n
    } else if n == g {
        1
    } else if n <= WORD && g <= WORD {
        (n as u64 / g as u64) as u128
    } else {
        exact_quotient(n, g)
    }
}

/// The quotient of a number with a sign by a positive divisor of it.
pub fn quotient(n: i128, g: u128) -> i128
    requires positive { 0 < g }
    requires divides { g ∣ unsigned_abs n }
    ensures { result ≡ int_div n (pos g) }
{
    if g == 1 {
        return n;
    }
    let size = size_quotient(n.unsigned_abs(), g) as i128;
    if n < 0 { -size } else { size }
}
