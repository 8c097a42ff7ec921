// What is wrong with a text of a certificate.

ghost use Rattle.std.specs.Prelude.{◌≡◌};
ghost use Rattle.cert_grammar.specs.declared.kinds.CertStop.TheVariants as stops;

use frac_core::Memory;
use thiserror::Error;

/// What is wrong with a line of a certificate's text. Of several, the first here.
#[derive(Clone, Copy, Debug, PartialEq, Eq, Error)]
pub enum CertKind {
    /// A line is due and the text has ended, or the line has no line feed.
    #[error("CertEnd")]
    CertEnd,
    /// There is a byte behind the line `END`.
    #[error("CertAfter")]
    CertAfter,
    /// The line isn't one of the words that may stand here with its number of fields, with one blank between two.
    #[error("CertLine")]
    CertLine,
    /// The column, or of a Y line the row, isn't one of the program.
    #[error("CertName")]
    CertName,
    /// A numeral is above 2^127 - 1.
    #[error("CertPast")]
    CertPast,
    /// The number isn't spelt as a certificate's, or isn't one that the line may have.
    #[error("CertNumber")]
    CertNumber,
    /// The column or row doesn't come after the one of the line before in the same list.
    #[error("CertOrder")]
    CertOrder,
    /// It is the 129th SQUARE or the 20,257th BRANCH.
    #[error("CertMany")]
    CertMany,
}

/// The first line at which a text leaves the grammar, by its number, and how.
#[derive(Clone, Copy, Debug, PartialEq, Eq, Error)]
#[error("line {line}: {kind}")]
pub struct CertFault {
    pub line: u32,
    pub kind: CertKind,
}

/// Why no certificate was read.
#[derive(Clone, Copy, Debug, PartialEq, Eq, Error)]
pub enum CertStop {
    #[error("memory ran out")]
    Memory,
    /// The first line at which the text leaves the grammar, by its number, and how.
    #[error("line {line}: {kind}")]
    Fault { line: u32, kind: CertKind },
}

impl From<Memory> for CertStop {
    ghost from_gives = { λ _ e. e ≡ stops.Memory };

    fn from(_error: Memory) -> CertStop {
        CertStop::Memory
    }
}

impl From<CertFault> for CertStop {
    ghost from_gives = { λ f e. e ≡ stops.Fault f.line f.kind };

    fn from(fault: CertFault) -> CertStop {
        let CertFault { line, kind } = fault;
        CertStop::Fault { line, kind }
    }
}
