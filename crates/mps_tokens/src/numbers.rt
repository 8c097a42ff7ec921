//! Numbers.

ghost use Rattle.std.specs.Prelude.{◌≡◌, ◌+◌, ◌==◌, ◌<◌, ◌≤◌, ℕ, true, false, length, take, drop, IfSome, IfNone};
ghost use Rattle.std.specs.List.{position_or_len};
ghost use Rattle.std.specs.Str.Parse.{digits_value};
ghost use Rattle.mps_tokens.specs.Spelling.{is_negative, without_sign, is_mark, is_numeral, is_exponent, without_point, places_of};
ghost use Rattle.mps_tokens.specs.Numbers.{number_of, fraction_of, decimal_of};
ghost use Rattle.mps_tokens.specs.Running.{IsCapped, AreDigitsOf};

use crate::digits::{Digits, digits_of, with_digits};
use crate::fault::NumberFault;
use crate::natural::Natural;
use crate::values::{Exponent, decimal, fraction};
use frac_core::Frac;

/// Whether there is a minus sign, and what stands behind the sign.
fn split_sign(bytes: &[u8]) -> (bool, &[u8])
    ensures negative { result.0 ≡ is_negative bytes.now }
    ensures rest { result.1.now ≡ without_sign bytes.now }
{
    match bytes {
        [b'-', rest @ ..] => (true, rest),
        [b'+', rest @ ..] => (false, rest),
        _ => (false, bytes),
    }
}

/// Where the first of these bytes is, or the end.
fn place_of(bytes: &[u8], byte: u8) -> usize
    ensures place { result ≡ position_or_len (λ b. b == byte) bytes.now }
    ensures within { result ≤ length bytes.now }
{
    let mut at = 0;
    while at < bytes.len() && bytes[at] != byte {
        at += 1;
    }
    at
}

fn is_mark(byte: u8) -> bool
    ensures { result ≡ is_mark byte }
{
    matches!(byte, b'e' | b'E' | b'd' | b'D')
}

/// Where the mark of the exponent is, or the end.
fn mark_place(bytes: &[u8]) -> usize
    ensures place { result ≡ position_or_len is_mark bytes.now }
    ensures within { result ≤ length bytes.now }
{
    let mut at = 0;
    while at < bytes.len() && !is_mark(bytes[at]) {
        at += 1;
    }
    at
}

/// What stands before a place, and behind the byte there.
fn split(bytes: &[u8], place: usize) -> (&[u8], &[u8])
    requires { place ≤ length bytes.now }
    ensures before { result.0.now ≡ take place bytes.now }
    ensures behind { result.1.now ≡ drop (place + 1) bytes.now }
{
    if place == bytes.len() {
        (bytes, &[])
    } else {
        (&bytes[..place], &bytes[place + 1..])
    }
}

/// What a numeral stands for.
fn numeral(bytes: &[u8]) -> Option<Natural>
    ensures value { IfSome result (λ n. (is_numeral bytes.now ≡ true) × IsCapped (digits_value 10 bytes.now) n) }
    ensures other { IfNone result (is_numeral bytes.now ≡ false) }
{
    if bytes.is_empty() {
        return None;
    }
    let digits = digits_of(bytes)?;
    Some(digits.size.raised(digits.zeros as u128))
}

/// The digits of a mantissa, and how many of them stand behind the point.
fn mantissa(bytes: &[u8]) -> Option<(Digits, usize)>
    ensures value { IfSome result (λ m. (is_numeral (without_point bytes.now) ≡ true) × AreDigitsOf (digits_value 10 (without_point bytes.now)) m.0 × (m.1 ≡ places_of bytes.now)) }
    ensures other { IfNone result (is_numeral (without_point bytes.now) ≡ false) }
{
    let (whole, part) = split(bytes, place_of(bytes, b'.'));
    if whole.is_empty() && part.is_empty() {
        return None;
    }
    let digits = with_digits(digits_of(whole)?, part)?;
    Some((digits, part.len()))
}

/// What an exponent stands for.
fn exponent(bytes: &[u8]) -> Option<Exponent>
    ensures value { IfSome result (λ e. (is_exponent bytes.now ≡ true) × (e.negative ≡ is_negative bytes.now) × IsCapped (digits_value 10 (without_sign bytes.now)) e.size) }
    ensures other { IfNone result (is_exponent bytes.now ≡ false) }
{
    let (negative, bytes) = split_sign(bytes);
    let size = numeral(bytes)?;
    Some(Exponent { negative, size })
}

/// What a decimal stands for, behind its sign.
fn decimal_number(negative: bool, body: &[u8]) -> Result<Frac, NumberFault>
    ensures { result ≡ decimal_of negative body.now }
{
    let mark = mark_place(body);
    let (before, behind) = split(body, mark);
    let Some((digits, places)) = mantissa(before) else {
        return Err(NumberFault::NotNumber);
    };
    if mark == body.len() {
        let none = Exponent {
            negative: false,
            size: Natural::Fits(0),
        };
        return decimal(negative, digits, places, none);
    }
    let Some(exponent) = exponent(behind) else {
        return Err(NumberFault::NotNumber);
    };
    decimal(negative, digits, places, exponent)
}

/// What a fraction stands for, behind its sign, where the slash is known.
fn fraction_number(negative: bool, top: &[u8], bottom: &[u8]) -> Result<Frac, NumberFault>
    ensures { result ≡ fraction_of negative top.now bottom.now }
{
    let Some(top) = numeral(top) else {
        return Err(NumberFault::NotNumber);
    };
    let Some(bottom) = numeral(bottom) else {
        return Err(NumberFault::NotNumber);
    };
    fraction(negative, top, bottom)
}

/// The number that the bytes spell: a decimal, as `-2.50`, `.5` or `1e3` with e, E, d or D, or a fraction, as `6/4`. Bytes that
/// spell none are `NotNumber`. `Past` are a decimal that isn't 0 and whose digits without the zeros at their end, or a part of
/// whose lowest terms, are above 2^127 - 1, and a fraction with a numeral above it.
pub fn number(bytes: &[u8]) -> Result<Frac, NumberFault>
    ensures { result ≡ number_of bytes.now }
{
    let (negative, body) = split_sign(bytes);
    let slash = place_of(body, b'/');
    if slash == body.len() {
        return decimal_number(negative, body);
    }
    let (top, bottom) = split(body, slash);
    fraction_number(negative, top, bottom)
}
