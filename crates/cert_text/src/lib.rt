//! The text of a certificate: written, and read with the first line that leaves the grammar.
#![tactic(auto)]

mod draft;
mod openings;
mod reading;

pub use cert_fields::numbers_are_read_back;
pub use cert_grammar::{CertKind, CertStop};
pub use cert_text_law::{faults_leave_the_grammar, texts_are_read_back};
pub use cert_writer::write_certificate;
pub use reading::read_certificate;
