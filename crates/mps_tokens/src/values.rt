//! Numbers from a whole number and a power of ten.

ghost use Rattle.std.specs.Prelude.{◌≡◌, ◌≢◌, ◌==◌, if◌then◌else◌, ◌+◌, ◌*◌, ◌^◌, ◌<◌, ◌≤◌, ℕ, Ok, pos};
ghost use Rattle.rational.specs.Rational.{fraction, ◌/ℚ◌};
ghost use Rattle.frac_core.specs.Parts.{max_part};
ghost use Rattle.word_arithmetic.specs.Signed.{signed};
ghost use Rattle.mps_tokens.specs.Numbers.{fitted, decimal_value, fraction_value, up_of, down_of};
ghost use Rattle.mps_tokens.specs.Running.{IsCapped, AreDigitsOf};

use crate::digits::Digits;
use crate::fault::NumberFault;
use crate::natural::{MOST_ZEROS, Natural, power_of_ten};
use frac_core::{Frac, Tried};

/// A whole number from its sign and its size.
fn with_sign(negative: bool, size: u128) -> i128
    requires { size ≤ max_part }
    ensures { result ≡ signed negative size }
{
    let size = size as i128;
    if negative { -size } else { size }
}

/// A fraction from its sign and its two numbers.
pub(crate) fn ratio(negative: bool, top: u128, bottom: u128) -> Result<Frac, NumberFault>
    requires top { top ≤ max_part }
    requires bottom { (0 < bottom) × (bottom ≤ max_part) }
    ensures { result ≡ Ok (fraction (signed negative top) bottom) }
{
    match Frac::of_parts(with_sign(negative, top), bottom as i128) {
        Ok(number) => Ok(number),
        Err(_) => Err(NumberFault::Past),
    }
}

/// A fraction of two numerals, which is no number where the second is 0.
pub(crate) fn fraction(negative: bool, top: Natural, bottom: Natural) -> Result<Frac, NumberFault>
    requires top { (p : ℕ) × IsCapped p top }
    requires bottom { (q : ℕ) × IsCapped q bottom }
    ensures { (p q : ℕ) → IsCapped p top → IsCapped q bottom → result ≡ (if q == 0 then Err NumberFault.NotNumber else fraction_value negative p q) }
{
    let Natural::Fits(bottom) = bottom else {
        return Err(NumberFault::Past);
    };
    if bottom == 0 {
        return Err(NumberFault::NotNumber);
    }
    let Natural::Fits(top) = top else {
        return Err(NumberFault::Past);
    };
    ratio(negative, top, bottom)
}

/// One number divided by another.
fn quotient(number: Frac, divisor: Frac) -> Result<Frac, NumberFault>
    requires { divisor.num ≢ pos 0 }
    ensures { result ≡ fitted (number /ℚ divisor) }
{
    match number / divisor {
        Tried::Is(number) => Ok(number),
        Tried::Past(_) => Err(NumberFault::Past),
    }
}

/// A number divided by 10 to a power.
fn lowered(negative: bool, top: u128, power: u128) -> Result<Frac, NumberFault>
    requires { (0 < top) × (top ≤ max_part) }
    ensures { result ≡ fitted (fraction (signed negative top) (10 ^ power)) }
{
    if power > 2 * MOST_ZEROS {
        return Err(NumberFault::Past);
    }
    let first = power.min(MOST_ZEROS);
    let number = ratio(negative, top, power_of_ten(first))?;
    let rest = Frac::whole(power_of_ten(power - first) as i128);
    quotient(number, rest)
}

/// A number times 10 to the power `up - down`.
fn shifted(negative: bool, top: u128, up: u128, down: u128) -> Result<Frac, NumberFault>
    requires { (0 < top) × (top ≤ max_part) }
    ensures { result ≡ fitted (fraction (signed negative (top * 10 ^ up)) (10 ^ down)) }
{
    if up < down {
        return lowered(negative, top, down - up);
    }
    match Natural::Fits(top).raised(up - down) {
        Natural::Fits(top) => ratio(negative, top, 1),
        Natural::Past => Err(NumberFault::Past),
    }
}

/// An exponent, by its sign and its size.
#[derive(Clone, Copy)]
pub(crate) struct Exponent {
    pub(crate) negative: bool,
    pub(crate) size: Natural,
}

/// The number with these digits, of which so many stand behind the point, and this exponent.
pub(crate) fn decimal(
    negative: bool,
    digits: Digits,
    places: usize,
    exponent: Exponent,
) -> Result<Frac, NumberFault>
    requires digits { (v : ℕ) × AreDigitsOf v digits }
    requires exponent { (e : ℕ) × IsCapped e exponent.size }
    ensures { (v e : ℕ) → AreDigitsOf v digits → IsCapped e exponent.size → result ≡ decimal_value negative v (up_of exponent.negative e) (places + down_of exponent.negative e) }
{
    let zeros = digits.zeros as u128;
    let places = places as u128;
    let Natural::Fits(top) = digits.size else {
        return Err(NumberFault::Past);
    };
    if top == 0 {
        return Ok(Frac::whole(0));
    }
    let Natural::Fits(size) = exponent.size else {
        return Err(NumberFault::Past);
    };
    if exponent.negative {
        shifted(negative, top, zeros, places + size)
    } else {
        shifted(negative, top, zeros + size, places)
    }
}
