//! Lines, fields, words and numbers of a text.
#![tactic(auto)]

mod case;
mod digits;
mod fault;
mod lines;
mod natural;
mod numbers;
mod parts;
mod spans;
mod splitting;
mod table;
mod values;
mod words;

pub use case::Case;
pub use fault::NumberFault;
pub use lines::{Line, next_line};
pub use numbers::number;
pub use parts::Parts;
pub use spans::Fields;
pub use splitting::fields;
pub use table::{bound_kinds, certificate_words, find, row_kinds, sections};
pub use words::{
    BoundKind, CertificateWord, RowKind, Section, bound_kind_of, certificate_word_of, row_kind_of,
    section_of,
};
