//! Lines of program files, written field by field.
#![tactic(auto)]

mod lines;
mod numbers;

pub use lines::{Field, push_in_section, push_line, push_word};
