//! The canonical text of a program, line by line; the law that it is read back as the program.
#![tactic(auto)]

mod laws;

pub use laws::{numbers_are_read_back, text_is_read_back};
