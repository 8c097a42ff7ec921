//! The canonical text of a program.
#![tactic(auto)]

mod bounds;
mod columns;
mod pairs;
mod parts;
mod rows;
mod sides;
mod small;
mod writing;

pub use mps_writer_law::{numbers_are_read_back, text_is_read_back};
pub use writing::write;
