// The lines of a certificate.

ghost use Rattle.std.specs.Prelude.{◌≡◌};
ghost use Rattle.cert_grammar.specs.Grammar.{item_of_claim, item_word, next_behind, item_from};

use frac_core::Frac;
use mps_tokens::CertificateWord;

/// What a certificate claims, by its first line.
#[derive(Clone, Copy)]
pub enum Claim {
    Optimal,
    Infeasible,
    Unbounded,
    NotConvex,
}

/// A line, with its column or row by its place, and its number. The first line of a certificate is its claim.
#[derive(Clone, Copy)]
pub enum Item {
    Optimal,
    Infeasible,
    Unbounded,
    NotConvex,
    Value(Frac),
    Point(u32, Frac),
    Ray(u32, Frac),
    /// A VECTOR line.
    Direction(u32, Frac),
    Square(Frac),
    Coef(u32, Frac),
    Branch(u32, i128),
    Bound,
    Farkas,
    Cross(u32),
    W(u32, Frac),
    Y(u32, Frac),
    End,
}

/// What stands behind the word of a line, 0 where it has no column or row, or no number.
#[derive(Clone, Copy)]
pub struct Found {
    pub place: u32,
    pub number: Frac,
}

impl Item {
    /// The line that claims.
    pub fn of_claim(claim: Claim) -> Item
        ensures { result ≡ item_of_claim claim }
    {
        match claim {
            Claim::Optimal => Item::Optimal,
            Claim::Infeasible => Item::Infeasible,
            Claim::Unbounded => Item::Unbounded,
            Claim::NotConvex => Item::NotConvex,
        }
    }

    /// The line with a word and what stands behind it.
    pub fn of(word: CertificateWord, found: Found) -> Item
        ensures { result ≡ item_from word found }
    {
        let Found { place, number } = found;
        match word {
            CertificateWord::Optimal => Item::Optimal,
            CertificateWord::Infeasible => Item::Infeasible,
            CertificateWord::Unbounded => Item::Unbounded,
            CertificateWord::NotConvex => Item::NotConvex,
            CertificateWord::Value => Item::Value(number),
            CertificateWord::Point => Item::Point(place, number),
            CertificateWord::Ray => Item::Ray(place, number),
            CertificateWord::Vector => Item::Direction(place, number),
            CertificateWord::Square => Item::Square(number),
            CertificateWord::Coef => Item::Coef(place, number),
            CertificateWord::Branch => Item::Branch(place, number.num()),
            CertificateWord::Bound => Item::Bound,
            CertificateWord::Farkas => Item::Farkas,
            CertificateWord::Cross => Item::Cross(place),
            CertificateWord::W => Item::W(place, number),
            CertificateWord::Y => Item::Y(place, number),
            CertificateWord::End => Item::End,
        }
    }

    /// The word of the line.
    pub(crate) fn word(&self) -> CertificateWord
        ensures { result ≡ item_word self.now }
    {
        match self {
            Item::Optimal => CertificateWord::Optimal,
            Item::Infeasible => CertificateWord::Infeasible,
            Item::Unbounded => CertificateWord::Unbounded,
            Item::NotConvex => CertificateWord::NotConvex,
            Item::Value(_) => CertificateWord::Value,
            Item::Point(_, _) => CertificateWord::Point,
            Item::Ray(_, _) => CertificateWord::Ray,
            Item::Direction(_, _) => CertificateWord::Vector,
            Item::Square(_) => CertificateWord::Square,
            Item::Coef(_, _) => CertificateWord::Coef,
            Item::Branch(_, _) => CertificateWord::Branch,
            Item::Bound => CertificateWord::Bound,
            Item::Farkas => CertificateWord::Farkas,
            Item::Cross(_) => CertificateWord::Cross,
            Item::W(_, _) => CertificateWord::W,
            Item::Y(_, _) => CertificateWord::Y,
            Item::End => CertificateWord::End,
        }
    }

    /// The first place that the next entry of a list may have behind this line.
    pub(crate) fn next_place(&self) -> u64
        ensures { result ≡ next_behind self.now }
    {
        match self {
            Item::Point(place, _)
            | Item::Ray(place, _)
            | Item::Direction(place, _)
            | Item::Coef(place, _)
            | Item::W(place, _)
            | Item::Y(place, _) => u64::from(*place) + 1,
            _ => 0,
        }
    }
}
