//! Reads the lines of a certificate's text: `CertLines` gives the item of each line, up to the first that leaves the grammar.
#![tactic(auto)]

mod fields;
mod line;
mod lines;
mod steps;

pub use lines::CertLines;
