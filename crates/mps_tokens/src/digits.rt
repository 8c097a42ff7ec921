//! Digits that are read one by one.

ghost use Rattle.std.specs.Prelude.{◌≡◌, ◌+◌, ◌*◌, ◌^◌, ◌<◌, ◌≤◌, ℕ, true, false, length, IfSome, IfNone};
ghost use Rattle.std.specs.List.{list_all};
ghost use Rattle.std.specs.Char.{is_ascii_digit};
ghost use Rattle.std.specs.Str.Parse.{digits_value_after};
ghost use Rattle.mps_tokens.specs.Running.{AreDigitsOf};

use crate::natural::Natural;

/// The number that digits write, without the zeros at its end, and how many of these there are.
#[derive(Clone, Copy)]
pub(crate) struct Digits {
    pub(crate) size: Natural,
    pub(crate) zeros: usize,
}

/// One more digit behind those that were read.
fn with_digit(digits: Digits, digit: u8) -> Digits
    requires digit { digit < 10 }
    requires room { digits.zeros + 1 < 2 ^ 64 }
    ensures value { (v : ℕ) → AreDigitsOf v digits → AreDigitsOf (v * 10 + digit) result }
    ensures zeros { result.zeros ≤ digits.zeros + 1 }
{
    let zeros = digits.zeros + 1;
    if digit == 0 {
        return Digits {
            size: digits.size,
            zeros,
        };
    }
    let size = digits.size.raised(zeros as u128).plus(digit);
    Digits { size, zeros: 0 }
}

/// More digits behind those that were read: None where a byte is no digit.
pub(crate) fn with_digits(digits: Digits, bytes: &[u8]) -> Option<Digits>
    requires { digits.zeros + length bytes.now < 2 ^ 64 }
    ensures value { IfSome result (λ d. (v : ℕ) → AreDigitsOf v digits → AreDigitsOf (digits_value_after 10 v bytes.now) d) }
    ensures digits { IfSome result (λ d. list_all is_ascii_digit bytes.now ≡ true) }
    ensures zeros { IfSome result (λ d. d.zeros ≤ digits.zeros + length bytes.now) }
    ensures other { IfNone result (list_all is_ascii_digit bytes.now ≡ false) }
{
    let mut digits = digits;
    for b in bytes {
        if !b.is_ascii_digit() {
            return None;
        }
        digits = with_digit(digits, *b - b'0');
    }
    Some(digits)
}

/// The digits read from the first on.
pub(crate) fn digits_of(bytes: &[u8]) -> Option<Digits>
    requires { length bytes.now < 2 ^ 64 }
    ensures value { IfSome result (λ d. AreDigitsOf (digits_value_after 10 0 bytes.now) d) }
    ensures digits { IfSome result (λ d. list_all is_ascii_digit bytes.now ≡ true) }
    ensures zeros { IfSome result (λ d. d.zeros ≤ length bytes.now) }
    ensures other { IfNone result (list_all is_ascii_digit bytes.now ≡ false) }
{
    let none = Digits {
        size: Natural::Fits(0),
        zeros: 0,
    };
    with_digits(none, bytes)
}
