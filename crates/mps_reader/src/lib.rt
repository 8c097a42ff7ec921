//! Reads the program that a program file stands for.
#![tactic(auto)]

mod laws;
mod reading;

pub use laws::{
    appended_text_is_found, text_behind_a_program_is_not_read, what_is_read_is_a_program,
};
pub use mps_grammar::FaultKind;
pub use mps_lines::{Place, ReadStop, rest};
pub use reading::read;
