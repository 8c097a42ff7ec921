// Products past 128 bits, as far as an order needs them.

ghost use Rattle.std.specs.Ordering.{nat_cmp};
ghost use Rattle.std.specs.Prelude.{◌≡◌, ◌*◌};

use std::cmp::Ordering;
use std::marker::Model;

/// A number below 2^512, in words of 128 bits, the highest first.
#[derive(Drop)]
pub(crate) struct Wide {
    first: u128,
    second: u128,
    third: u128,
    fourth: u128,
}

impl Model for Wide {
    ghost use Rattle.std.specs.Prelude.{ℕ, ◌+◌, ◌*◌, ◌^◌, ◌<◌};

    ghost Value = { ℕ };

    ghost view = { λ w. ((w.first * 2 ^ 128 + w.second) * 2 ^ 128 + w.third) * 2 ^ 128 + w.fourth };

    ghost invariant = { λ w. (w.second < 2 ^ 128) × (w.third < 2 ^ 128) × (w.fourth < 2 ^ 128) };
}

impl Wide {
    /// The product of four numbers.
    pub(crate) fn product(a: u128, b: u128, c: u128, d: u128) -> Wide
        ensures { result ≡ a * b * c * d }
    {
        let (low, high) = a.carrying_mul(b, 0);
        let (low, carry) = low.carrying_mul(c, 0);
        let (middle, high) = high.carrying_mul(c, carry);
        let (fourth, carry) = low.carrying_mul(d, 0);
        let (third, carry) = middle.carrying_mul(d, carry);
        let (second, first) = high.carrying_mul(d, carry);
        Wide {
            first,
            second,
            third,
            fourth,
        }
    }

    pub(crate) fn order(&self, other: &Wide) -> Ordering
        ensures { result ≡ nat_cmp self.now other.now }
    {
        self.first
            .cmp(&other.first)
            .then(self.second.cmp(&other.second))
            .then(self.third.cmp(&other.third))
            .then(self.fourth.cmp(&other.fourth))
    }
}
