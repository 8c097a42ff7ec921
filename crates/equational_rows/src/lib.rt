//! How a program's columns and the slacks stand in its equational form in a region, and its equations.
#![tactic(auto)]

mod equations;
mod layout;
mod lists;
mod rows;

pub use equations::{First, all_equations};
pub use layout::{Layout, parts_of};
pub use rows::{Rows, push_spread, push_zeros};
