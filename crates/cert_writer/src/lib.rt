//! Writes the text of a certificate.
#![tactic(auto)]

mod writing;

pub use writing::write_certificate;
