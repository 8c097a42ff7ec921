//! The words of the tables by name.

ghost use Rattle.std.specs.Prelude.{◌≡◌};
ghost use Rattle.mps_tokens.specs.Cases.{named, numbered};
ghost use Rattle.mps_tokens.specs.Words.{section_names, row_kind_names, bound_kind_names, certificate_word_names};

use crate::table::{bound_kinds, certificate_words, find, row_kinds, sections};

/// The sections of a program file, with what ends it and a header that is refused.
#[derive(Clone, Copy, Debug, PartialEq, Eq)]
pub enum Section {
    /// `NAME`
    Name,
    /// `ROWS`
    Rows,
    /// `COLUMNS`
    Columns,
    /// `RHS`
    Rhs,
    /// `RANGES`
    Ranges,
    /// `BOUNDS`
    Bounds,
    /// `QUADOBJ`
    QuadObj,
    /// `QMATRIX`
    QMatrix,
    /// `DMATRIX`
    DMatrix,
    /// `ENDATA`
    EndData,
    /// `OBJSENSE`
    ObjSense,
}

/// The kinds of rows.
#[derive(Clone, Copy, Debug, PartialEq, Eq)]
pub enum RowKind {
    /// `N`
    Objective,
    /// `L`
    AtMost,
    /// `G`
    AtLeast,
    /// `E`
    Equal,
}

/// The kinds of bounds.
#[derive(Clone, Copy, Debug, PartialEq, Eq)]
pub enum BoundKind {
    /// `UP`
    Upper,
    /// `LO`
    Lower,
    /// `FX`
    Fixed,
    /// `FR`
    Free,
    /// `MI`
    MinusInfinity,
    /// `PL`
    PlusInfinity,
    /// `BV`
    Binary,
    /// `LI`
    LowerInteger,
    /// `UI`
    UpperInteger,
}

/// The words that begin a line of a certificate.
#[derive(Clone, Copy, Debug, PartialEq, Eq)]
pub enum CertificateWord {
    /// `OPTIMAL`
    Optimal,
    /// `INFEASIBLE`
    Infeasible,
    /// `UNBOUNDED`
    Unbounded,
    /// `NOTCONVEX`
    NotConvex,
    /// `VALUE`
    Value,
    /// `POINT`
    Point,
    /// `RAY`
    Ray,
    /// `VECTOR`
    Vector,
    /// `SQUARE`
    Square,
    /// `COEF`
    Coef,
    /// `BRANCH`
    Branch,
    /// `BOUND`
    Bound,
    /// `FARKAS`
    Farkas,
    /// `CROSS`
    Cross,
    /// `W`
    W,
    /// `Y`
    Y,
    /// `END`
    End,
}

/// The section with this number.
fn section_numbered(number: u8) -> Option<Section>
    ensures { result ≡ numbered 1 section_names number }
{
    match number {
        1 => Some(Section::Name),
        2 => Some(Section::Rows),
        3 => Some(Section::Columns),
        4 => Some(Section::Rhs),
        5 => Some(Section::Ranges),
        6 => Some(Section::Bounds),
        7 => Some(Section::QuadObj),
        8 => Some(Section::QMatrix),
        9 => Some(Section::DMatrix),
        10 => Some(Section::EndData),
        11 => Some(Section::ObjSense),
        _ => None,
    }
}

/// The section with this word, or None where there is none.
pub fn section_of(word: &[u8]) -> Option<Section>
    ensures { result ≡ named section_names word.now }
{
    match find(&sections(), word) {
        Some(number) => section_numbered(number),
        None => None,
    }
}

/// The kind of row with this number.
fn row_kind_numbered(number: u8) -> Option<RowKind>
    ensures { result ≡ numbered 1 row_kind_names number }
{
    match number {
        1 => Some(RowKind::Objective),
        2 => Some(RowKind::AtMost),
        3 => Some(RowKind::AtLeast),
        4 => Some(RowKind::Equal),
        _ => None,
    }
}

/// The kind of row with this word, or None where there is none.
pub fn row_kind_of(word: &[u8]) -> Option<RowKind>
    ensures { result ≡ named row_kind_names word.now }
{
    match find(&row_kinds(), word) {
        Some(number) => row_kind_numbered(number),
        None => None,
    }
}

/// The kind of bound with this number.
fn bound_kind_numbered(number: u8) -> Option<BoundKind>
    ensures { result ≡ numbered 1 bound_kind_names number }
{
    match number {
        1 => Some(BoundKind::Upper),
        2 => Some(BoundKind::Lower),
        3 => Some(BoundKind::Fixed),
        4 => Some(BoundKind::Free),
        5 => Some(BoundKind::MinusInfinity),
        6 => Some(BoundKind::PlusInfinity),
        7 => Some(BoundKind::Binary),
        8 => Some(BoundKind::LowerInteger),
        9 => Some(BoundKind::UpperInteger),
        _ => None,
    }
}

/// The kind of bound with this word, or None where there is none.
pub fn bound_kind_of(word: &[u8]) -> Option<BoundKind>
    ensures { result ≡ named bound_kind_names word.now }
{
    match find(&bound_kinds(), word) {
        Some(number) => bound_kind_numbered(number),
        None => None,
    }
}

/// The word of a certificate with this number.
fn certificate_word_numbered(number: u8) -> Option<CertificateWord>
    ensures { result ≡ numbered 1 certificate_word_names number }
{
    match number {
        1 => Some(CertificateWord::Optimal),
        2 => Some(CertificateWord::Infeasible),
        3 => Some(CertificateWord::Unbounded),
        4 => Some(CertificateWord::NotConvex),
        5 => Some(CertificateWord::Value),
        6 => Some(CertificateWord::Point),
        7 => Some(CertificateWord::Ray),
        8 => Some(CertificateWord::Vector),
        9 => Some(CertificateWord::Square),
        10 => Some(CertificateWord::Coef),
        11 => Some(CertificateWord::Branch),
        12 => Some(CertificateWord::Bound),
        13 => Some(CertificateWord::Farkas),
        14 => Some(CertificateWord::Cross),
        15 => Some(CertificateWord::W),
        16 => Some(CertificateWord::Y),
        17 => Some(CertificateWord::End),
        _ => None,
    }
}

/// The word of a certificate, or None where there is none.
pub fn certificate_word_of(word: &[u8]) -> Option<CertificateWord>
    ensures { result ≡ named certificate_word_names word.now }
{
    match find(&certificate_words(), word) {
        Some(number) => certificate_word_numbered(number),
        None => None,
    }
}
