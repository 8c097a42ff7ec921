// The grammar of a certificate's lines, as two tables: which word may follow, and what stands behind a word.

ghost use Rattle.std.specs.Prelude.{◌≡◌};
ghost use Rattle.cert_grammar.specs.Grammar.{follows, is_due, shape_of};
ghost use Rattle.cert_grammar.specs.Faults.{allows};

use crate::items::Claim;
use cert_fields::Axis;
use frac_core::Frac;
use mps_tokens::CertificateWord;

/// The part of a certificate that a line stands in, by the word of the line before.
#[derive(Clone, Copy)]
pub enum Part {
    /// Before the line VALUE.
    Value,
    /// After VALUE or a POINT line, or before the first of an unbounded certificate.
    Points,
    /// After a RAY line.
    Rays,
    /// After a VECTOR line, or before the first.
    Directions,
    /// After a SQUARE or COEF line.
    Squares,
    /// After a BRANCH or CROSS line, or before the first node.
    Nodes,
    /// After a BOUND or W line.
    LeafPoint,
    /// After a FARKAS or Y line.
    Multipliers,
    /// After END.
    Ended,
}

/// Which numbers a line may have.
#[derive(Clone, Copy)]
pub enum Allowed {
    Any,
    NotZero,
    Positive,
    Whole,
}

impl Allowed {
    /// Whether a line may have a number.
    pub fn allows(self, value: Frac) -> bool
        ensures { result ≡ allows self value }
    {
        match self {
            Allowed::Any => true,
            Allowed::NotZero => !value.is_zero(),
            Allowed::Positive => value.is_positive(),
            Allowed::Whole => value.den() == 1,
        }
    }
}

/// What stands behind the word of a line.
#[derive(Clone, Copy)]
pub enum Shape {
    /// Nothing.
    Bare,
    Number(Allowed),
    /// A column or row.
    Name(Axis),
    /// A column or row and a number.
    Entry(Axis, Allowed),
}

/// The part behind a line with this word, where such a line may stand in a part. How many subtrees are wanted is asked
/// apart.
pub(crate) fn follows(claim: Claim, part: Part, word: CertificateWord) -> Option<Part>
    ensures { result ≡ follows claim part word }
{
    match (part, word) {
        (Part::Value, CertificateWord::Value) => Some(Part::Points),
        (Part::Value | Part::Ended, _) => None,
        (Part::Points, CertificateWord::Point) => Some(Part::Points),
        (Part::Points, CertificateWord::Ray) => match claim {
            Claim::Unbounded => Some(Part::Rays),
            _ => None,
        },
        (Part::Rays, CertificateWord::Ray) => Some(Part::Rays),
        (Part::Directions, CertificateWord::Vector) => Some(Part::Directions),
        (Part::Points | Part::Rays | Part::Squares, CertificateWord::Square) => Some(Part::Squares),
        (Part::Squares, CertificateWord::Coef) => Some(Part::Squares),
        (_, CertificateWord::Branch | CertificateWord::Cross) => Some(Part::Nodes),
        (_, CertificateWord::Bound) => match claim {
            Claim::Optimal => Some(Part::LeafPoint),
            _ => None,
        },
        (_, CertificateWord::Farkas) => Some(Part::Multipliers),
        (Part::LeafPoint, CertificateWord::W) => Some(Part::LeafPoint),
        (Part::LeafPoint | Part::Multipliers, CertificateWord::Y) => Some(Part::Multipliers),
        (_, CertificateWord::End) => Some(Part::Ended),
        _ => None,
    }
}

/// Whether a line with this word may stand where so many subtrees are wanted.
pub(crate) fn is_due(word: CertificateWord, wanted: u64) -> bool
    ensures { result ≡ is_due word wanted }
{
    match word {
        CertificateWord::Branch
        | CertificateWord::Bound
        | CertificateWord::Farkas
        | CertificateWord::Cross => wanted > 0,
        CertificateWord::End => wanted == 0,
        _ => true,
    }
}

/// What stands behind a word.
pub fn shape_of(word: CertificateWord) -> Shape
    ensures { result ≡ shape_of word }
{
    match word {
        CertificateWord::Value => Shape::Number(Allowed::Any),
        CertificateWord::Square => Shape::Number(Allowed::Positive),
        CertificateWord::Branch => Shape::Entry(Axis::Columns, Allowed::Whole),
        CertificateWord::Cross => Shape::Name(Axis::Columns),
        CertificateWord::Point
        | CertificateWord::Ray
        | CertificateWord::Vector
        | CertificateWord::Coef
        | CertificateWord::W => Shape::Entry(Axis::Columns, Allowed::NotZero),
        CertificateWord::Y => Shape::Entry(Axis::Rows, Allowed::NotZero),
        _ => Shape::Bare,
    }
}
