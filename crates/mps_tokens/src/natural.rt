//! Whole numbers up to the largest part of a fraction.

ghost use Rattle.std.specs.Prelude.{◌≡◌, ◌+◌, ◌*◌, ◌^◌, ◌<◌, ◌≤◌, ℕ};
ghost use Rattle.frac_core.specs.Parts.{max_part};
ghost use Rattle.mps_tokens.specs.Running.{IsCapped};

/// The largest part of a fraction.
const LARGEST: u128 = 170141183460469231731687303715884105727;

/// The power of ten that is the largest below the largest part.
pub(crate) const MOST_ZEROS: u128 = 38;

/// A whole number, or that it is past the largest part of a fraction.
#[derive(Clone, Copy)]
pub(crate) enum Natural {
    Fits(u128),
    Past,
}

/// 10 to a power.
pub(crate) fn power_of_ten(power: u128) -> u128
    requires { power ≤ 38 }
    ensures value { result ≡ 10 ^ power }
    ensures positive { 0 < result }
    ensures fits { result ≤ max_part }
{
    10u128.pow(power as u32)
}

impl Natural {
    pub(crate) fn of(n: u128) -> Natural
        ensures { IsCapped n result }
    {
        if n > LARGEST {
            Natural::Past
        } else {
            Natural::Fits(n)
        }
    }

    /// One digit more than the number.
    pub(crate) fn plus(self, digit: u8) -> Natural
        ensures { (v : ℕ) → IsCapped v self → IsCapped (v + digit) result }
    {
        match self {
            Natural::Past => Natural::Past,
            Natural::Fits(n) => match n.checked_add(u128::from(digit)) {
                Some(sum) => Natural::of(sum),
                None => Natural::Past,
            },
        }
    }

    /// The number times 10 to a power.
    pub(crate) fn raised(self, power: u128) -> Natural
        ensures { (v : ℕ) → IsCapped v self → IsCapped (v * 10 ^ power) result }
    {
        match self {
            Natural::Past => Natural::Past,
            Natural::Fits(n) => {
                if n == 0 {
                    return Natural::Fits(0);
                }
                if power > MOST_ZEROS {
                    return Natural::Past;
                }
                match n.checked_mul(power_of_ten(power)) {
                    Some(product) => Natural::of(product),
                    None => Natural::Past,
                }
            }
        }
    }
}
