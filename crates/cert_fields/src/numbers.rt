// Numbers as a certificate spells them.

ghost use Rattle.std.specs.Prelude.{◌≡◌, ◌&&◌, ◌+◌, ◌*◌, ◌<◌, ◌≤◌, ℕ, codes, if◌then◌else◌};
ghost use Rattle.std.specs.Str.{bytes_eq};
ghost use Rattle.std.specs.Str.Parse.{digits_value};
ghost use Rattle.mps_tokens.specs.declared.fault.NumberFault.TheVariants as faults;
ghost use Rattle.std.specs.Option.{ForSome};
ghost use Rattle.rational.specs.Rational.{fraction};
ghost use Rattle.frac_core.specs.Parts.{max_part};
ghost use Rattle.word_arithmetic.specs.Signed.{signed};
ghost use Rattle.cert_fields.specs.Numbers.{is_negative, without_minus, is_numeral, is_denominator, lowest_number, number_from, number_of};
ghost use Rattle.cert_fields.specs.Numerals.{IsCapped, ReadsNumeral};

use crate::splitting::split_slash;
use frac_core::Frac;
use mps_tokens::NumberFault;

/// The greatest numeral.
const LARGEST: u128 = 170141183460469231731687303715884105727;

/// One more digit, or nothing where the value is past the greatest.
fn with_digit(value: Option<u128>, digit: u8) -> Option<u128>
    requires value { ForSome value (λ n. n ≤ max_part) }
    requires digit { digit < 10 }
    ensures { (v : ℕ) → IsCapped v value → IsCapped (v * 10 + digit) result }
{
    let value = value?;
    if value > LARGEST / 10 {
        return None;
    }
    let next = value * 10 + u128::from(digit);
    if next > LARGEST { None } else { Some(next) }
}

/// What a numeral stands for: digits that don't begin with 0.
fn numeral(bytes: &[u8]) -> Result<u128, NumberFault>
    ensures { ReadsNumeral bytes.now result }
{
    if bytes.is_empty() || bytes[0] == b'0' {
        return Err(NumberFault::NotNumber);
    }
    let mut value = Some(0);
    for b in bytes {
        if !b.is_ascii_digit() {
            return Err(NumberFault::NotNumber);
        }
        value = with_digit(value, *b - b'0');
    }
    value.ok_or(NumberFault::Past)
}

/// Whether there is a minus sign, and what stands behind it.
fn split_minus(bytes: &[u8]) -> (bool, &[u8])
    ensures negative { result.0 ≡ is_negative bytes.now }
    ensures rest { result.1.now ≡ without_minus bytes.now }
{
    match bytes {
        [b'-', rest @ ..] => (true, rest),
        _ => (false, bytes),
    }
}

/// A whole number from its sign and its size.
fn with_sign(negative: bool, size: u128) -> i128
    requires { size ≤ max_part }
    ensures { result ≡ signed negative size }
{
    let size = size as i128;
    if negative { -size } else { size }
}

/// The fraction of two numerals, where it is in lowest terms.
fn lowest(negative: bool, top: u128, bottom: u128) -> Result<Frac, NumberFault>
    requires top { top ≤ max_part }
    requires bottom { bottom ≤ max_part }
    ensures { result ≡ lowest_number negative top bottom }
{
    match Frac::of_parts(with_sign(negative, top), bottom as i128) {
        Ok(value) => {
            if value.den() == bottom as i128 {
                Ok(value)
            } else {
                Err(NumberFault::NotNumber)
            }
        }
        Err(_) => Err(NumberFault::NotNumber),
    }
}

/// What two numerals stand for.
fn ratio(negative: bool, top: &[u8], bottom: &[u8]) -> Result<Frac, NumberFault>
    ensures { result ≡ (if is_numeral top.now && is_denominator bottom.now then number_from negative (digits_value 10 top.now) (digits_value 10 bottom.now) else Err faults.NotNumber) }
{
    if bottom == b"1".as_slice() {
        return Err(NumberFault::NotNumber);
    }
    match (numeral(top), numeral(bottom)) {
        (Ok(top), Ok(bottom)) => lowest(negative, top, bottom),
        (Err(NumberFault::NotNumber), _) | (_, Err(NumberFault::NotNumber)) => {
            Err(NumberFault::NotNumber)
        }
        _ => Err(NumberFault::Past),
    }
}

/// What one numeral stands for.
fn whole(negative: bool, digits: &[u8]) -> Result<Frac, NumberFault>
    ensures { result ≡ (if is_numeral digits.now then number_from negative (digits_value 10 digits.now) 1 else Err faults.NotNumber) }
{
    match numeral(digits) {
        Ok(size) => Ok(Frac::whole(with_sign(negative, size))),
        Err(fault) => Err(fault),
    }
}

fn is_zero_text(bytes: &[u8]) -> bool
    ensures { result ≡ bytes_eq bytes.now (codes "0") }
{
    bytes == b"0".as_slice()
}

/// The number that bytes spell: `0`, or digits without a leading zero behind an optional minus sign, and perhaps a slash and a
/// denominator of at least 2 without a leading zero, in lowest terms. `Past` where they have this shape, lowest terms not looked
/// at, and a numeral is above 2^127 - 1, and else `NotNumber`.
pub fn number(bytes: &[u8]) -> Result<Frac, NumberFault>
    ensures { result ≡ number_of bytes.now }
{
    if is_zero_text(bytes) {
        return Ok(Frac::whole(0));
    }
    let (negative, body) = split_minus(bytes);
    match split_slash(body) {
        Some((top, bottom)) => ratio(negative, top, bottom),
        None => whole(negative, body),
    }
}
