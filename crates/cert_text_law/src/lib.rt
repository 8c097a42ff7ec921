//! What a text of a certificate says as a whole, and the laws that join it to the text that is written. Each law is the contract of a
//! function that does nothing.
#![tactic(auto)]

mod laws;

pub use laws::{faults_leave_the_grammar, texts_are_read_back};
