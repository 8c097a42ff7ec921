// The numbers that are calculated with, from a small generator.

ghost use Rattle.std.specs.Prelude.{◌<◌, ◌^◌};

use frac_core::{Frac, PartsFault};

/// A kind of numbers.
#[derive(Clone, Copy)]
pub enum Kind {
    /// Whole numbers below 100 in size.
    Whole,
    /// Parts below 2^31.
    Small,
    /// Parts near 2^62.
    Word,
    /// Parts near 2^120.
    Wide,
    /// Whole numbers from 0 to 9.
    Dense,
    /// Whole numbers below 10 near the diagonal of a matrix, and 0 elsewhere.
    Band,
}

/// The kind of this name.
pub fn kind_of(name: &str) -> Option<Kind> {
    match name {
        "whole" => Some(Kind::Whole),
        "small" => Some(Kind::Small),
        "word" => Some(Kind::Word),
        "wide" => Some(Kind::Wide),
        "dense" => Some(Kind::Dense),
        "band" => Some(Kind::Band),
        _ => None,
    }
}

/// 1784742960 is divisible by each number up to 8.
const SMALL_BOTTOM: i128 = 1784742960;

const WORD_TOP: i128 = 4611686018427387847;

const WORD_BOTTOM: i128 = 1784742960 * 2147483647;

const WIDE_TOP: i128 = 1329227995784915872903807060280344457;

const WIDE_BOTTOM: i128 = 1329227995784915872903807060280343821;

/// A linear congruence.
#[derive(Drop)]
pub struct Generator {
    state: u64,
}

impl Generator {
    pub fn start() -> Generator {
        Generator { state: 1 }
    }

    /// The next number of 31 bits.
    pub fn next(&mut self) -> u32
        ensures { result < 2 ^ 31 }
    {
        self.state = self
            .state
            .wrapping_mul(6364136223846793005)
            .wrapping_add(1442695040888963407);
        (self.state >> 33) as u32
    }

    /// The next number of 31 bits, with a sign.
    fn signed(&mut self) -> i128 {
        let size = i128::from(self.next());
        if self.next() % 2 == 0 { size } else { -size }
    }

    /// The next number of 62 bits, with a sign.
    fn signed_word(&mut self) -> i128 {
        let low = i128::from(self.next());
        let size = (i128::from(self.next()) << 31) + low;
        if self.next() % 2 == 0 { size } else { -size }
    }

    /// The next number of 120 bits, with a sign.
    fn signed_wide(&mut self) -> i128 {
        let high = (i128::from(self.next() % (1 << 27)) << 31) + i128::from(self.next());
        let low = i128::from(self.next());
        let size = (high << 62) + (low << 31) + i128::from(self.next());
        if self.next() % 2 == 0 { size } else { -size }
    }

    /// The next number on the left side of a product.
    pub fn left(&mut self, kind: Kind) -> Result<Frac, PartsFault> {
        match kind {
            Kind::Small => self.right(kind),
            Kind::Word => Frac::of_parts(self.signed_word(), WORD_TOP),
            Kind::Wide => Frac::of_parts(self.signed_wide(), WIDE_TOP),
            _ => self.right(kind),
        }
    }

    /// The next number on the right side of a product.
    pub fn right(&mut self, kind: Kind) -> Result<Frac, PartsFault> {
        match kind {
            Kind::Whole => Frac::of_parts(self.signed() % 100, 1),
            Kind::Small => {
                let part = i128::from(1 + self.next() % 8);
                Frac::of_parts(self.signed(), SMALL_BOTTOM / part)
            }
            Kind::Word => {
                let part = i128::from(1 + self.next() % 8);
                Frac::of_parts(WORD_TOP, WORD_BOTTOM / part)
            }
            Kind::Wide => Frac::of_parts(WIDE_TOP, WIDE_BOTTOM),
            Kind::Dense | Kind::Band => Frac::of_parts(i128::from(self.next() % 10), 1),
        }
    }
}
