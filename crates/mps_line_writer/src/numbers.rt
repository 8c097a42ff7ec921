// The digits of numbers.

ghost use Rattle.std.specs.Prelude.{◌≡◌, ◌<◌, ◌≤◌, ◌^◌, ◌+◌, ◌++◌, ◌∷◌, drop, [], if◌then◌else◌, ◌==◌, unsigned_abs};
ghost use Rattle.std.specs.Fmt.{decimal, signed_decimal};
ghost use Rattle.frac_core.specs.Text.{text_of};
ghost use Rattle.frac_core.specs.Parts.{max_part};

use frac_core::Frac;

/// Room for a number: a sign, 39 digits, a slash, 39 digits, and one byte more.
pub(crate) const ROOM: usize = 81;

/// Puts one byte in front of a place.
fn put_byte(buffer: &mut [u8; ROOM], end: usize, byte: u8) -> usize
    requires room { (1 ≤ end) × (end ≤ 81) }
    ensures bytes { drop result buffer.new ≡ byte ∷ drop end buffer.old }
    ensures before { result + 1 ≡ end }
{
    let at = end - 1;
    buffer[at] = byte;
    at
}

/// Puts the digits of a number in front of a place, and answers where they begin.
fn put_digits(buffer: &mut [u8; ROOM], end: usize, number: u128) -> usize
    requires room { (40 ≤ end) × (end ≤ 81) }
    requires short { number < 10 ^ 39 }
    ensures digits { drop result buffer.new ≡ decimal number ++ drop end buffer.old }
    ensures before { (result < end) × (end ≤ result + 39) }
{
    let mut at = end;
    let mut rest = number;
    while rest >= 10 {
        at = put_byte(buffer, at, b'0' + (rest % 10) as u8);
        rest /= 10;
    }
    put_byte(buffer, at, b'0' + rest as u8)
}

/// Puts the digits of a whole number, behind a minus where it is negative, in front of a place.
fn put_signed(buffer: &mut [u8; ROOM], end: usize, number: i128) -> usize
    requires room { (41 ≤ end) × (end ≤ 81) }
    requires fits { unsigned_abs number ≤ max_part }
    ensures digits { drop result buffer.new ≡ signed_decimal number ++ drop end buffer.old }
    ensures before { result ≤ end }
{
    let at = put_digits(buffer, end, number.unsigned_abs());
    if number < 0 {
        put_byte(buffer, at, b'-')
    } else {
        at
    }
}

/// Puts a denominator at the end behind a slash, unless it is 1.
fn put_denominator(buffer: &mut [u8; ROOM], number: u128) -> usize
    requires { number ≤ max_part }
    ensures digits { drop result buffer.new ≡ (if number == 1 then [] else 47 ∷ decimal number) }
    ensures before { (41 ≤ result) × (result ≤ 81) }
{
    if number == 1 {
        return ROOM;
    }
    let at = put_digits(buffer, ROOM, number);
    put_byte(buffer, at, b'/')
}

/// Puts the text of a fraction at the end, and answers where it begins.
pub(crate) fn put_number(buffer: &mut [u8; ROOM], number: Frac) -> usize
    ensures text { drop result buffer.new ≡ text_of number }
    ensures within { result ≤ 81 }
{
    let at = put_denominator(buffer, number.den().unsigned_abs());
    put_signed(buffer, at, number.num())
}
