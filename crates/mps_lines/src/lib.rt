//! Reads the lines of a program file up to ENDATA, and keeps what they tell.
#![tactic(auto)]

mod headers;
mod lines;
mod reading;
mod stop;
mod taking;

pub use reading::{rest, told};
pub use stop::{Place, ReadStop};
