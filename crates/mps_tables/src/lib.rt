//! What the lines of a program file tell by the places of rows and columns: right sides, ranges, bounds and entries of Q, and the faults that all lines make together.
#![tactic(auto)]

mod columns;
mod faults;
mod row_sides;
mod rows;

pub use columns::{Bounding, bounded_columns};
pub use faults::{not_symmetric, range_past};
pub use row_sides::sides;
pub use rows::{ranges, right_sides};
