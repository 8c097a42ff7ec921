// Numbers of 256 bits, as far as fractions need them.

ghost use Rattle.std.specs.Option.{SomeIff};
ghost use Rattle.std.specs.Ordering.{nat_cmp};
ghost use Rattle.std.specs.Prelude.{◌≡◌, ℕ, ◌+◌, ◌-◌, ◌*◌, ◌/◌, ◌%◌, ◌^◌, ◌≤◌, ◌<◌, ◌↔◌, IsTrue};

use crate::divisors::WORD;
use std::cmp::Ordering;
use std::marker::Model;

/// Quotient and remainder of `high * 2^128 + low` by `m`, a bit at a time.
fn divide(high: u128, low: u128, m: u128) -> (u128, u128)
    requires below { high < m }
    requires small { m < 2 ^ 127 }
    ensures whole { high * 2 ^ 128 + low ≡ result.0 * m + result.1 }
    ensures rest { result.1 < m }
{
    let mut rest = high;
    let mut quotient: u128 = 0;
    for i in 0..128u32 {
        let bit = (low >> (127 - i)) & 1;
        rest = 2 * rest + bit;
        quotient *= 2;
        if rest >= m {
            rest -= m;
            quotient += 1;
        }
    }
    (quotient, rest)
}

/// Quotient and remainder of `a * b` by `m`.
pub fn mul_div(a: u128, b: u128, m: u128) -> (u128, u128)
    requires nonzero { 0 < m }
    requires small { m < 2 ^ 127 }
    requires fits { a * b / m < 2 ^ 128 }
    ensures quotient { result.0 ≡ a * b / m }
    ensures rest { result.1 ≡ (a * b) % m }
{
    let (low, high) = a.carrying_mul(b, 0);
    if high == 0 {
        return (low / m, low % m);
    }
    divide(high, low, m)
}

/// The order of `a * b` and `c * d`, which may pass 128 bits.
pub fn compare_products(a: u128, b: u128, c: u128, d: u128) -> Ordering
    ensures { result ≡ nat_cmp (a * b) (c * d) }
{
    if a <= WORD && b <= WORD && c <= WORD && d <= WORD {
        return (a * b).cmp(&(c * d));
    }
    let (low, high) = a.carrying_mul(b, 0);
    let (other_low, other_high) = c.carrying_mul(d, 0);
    high.cmp(&other_high).then(low.cmp(&other_low))
}

/// A number below 2^256.
#[derive(Drop)]
pub struct Wide {
    high: u128,
    low: u128,
}

impl Model for Wide {
    ghost use Rattle.std.specs.Prelude.{ℕ, ◌+◌, ◌*◌, ◌^◌, ◌<◌};

    ghost Value = { ℕ };

    ghost view = { λ w. w.high * 2 ^ 128 + w.low };

    ghost invariant = { λ w. w.low < 2 ^ 128 };
}

impl Wide {
    /// The product.
    pub fn product(a: u128, b: u128) -> Wide
        ensures { result ≡ a * b }
    {
        let (low, high) = a.carrying_mul(b, 0);
        Wide { high, low }
    }

    /// The sum.
    pub fn plus(&self, other: &Wide) -> Wide
        requires { self.now + other.now < 2 ^ 256 }
        ensures { result ≡ self.now + other.now }
    {
        let (low, carry) = self.low.overflowing_add(other.low);
        if carry {
            Wide {
                high: self.high + other.high + 1,
                low,
            }
        } else {
            Wide {
                high: self.high + other.high,
                low,
            }
        }
    }

    /// The difference.
    pub fn minus(&self, other: &Wide) -> Wide
        requires { other.now ≤ self.now }
        ensures { result ≡ self.now - other.now }
    {
        let (low, borrow) = self.low.overflowing_sub(other.low);
        if borrow {
            Wide {
                high: self.high - other.high - 1,
                low,
            }
        } else {
            Wide {
                high: self.high - other.high,
                low,
            }
        }
    }

    /// Whether it is less than the other.
    pub fn is_below(&self, other: &Wide) -> bool
        ensures { IsTrue result ↔ (self.now < other.now) }
    {
        self.high < other.high || self.high == other.high && self.low < other.low
    }

    /// The remainder by `m`.
    pub fn remainder(&self, m: u128) -> u128
        requires nonzero { 0 < m }
        requires small { m < 2 ^ 127 }
        ensures { result ≡ self.now % m }
    {
        if self.high == 0 {
            return self.low % m;
        }
        divide(self.high % m, self.low, m).1
    }

    /// The quotient by `m`, where it is below 2^128.
    pub fn quotient(&self, m: u128) -> Option<u128>
        requires nonzero { 0 < m }
        requires small { m < 2 ^ 127 }
        ensures { SomeIff result (self.now / m < 2 ^ 128) (self.now / m) }
    {
        if self.high == 0 {
            Some(self.low / m)
        } else if self.high < m {
            Some(divide(self.high, self.low, m).0)
        } else {
            None
        }
    }
}
