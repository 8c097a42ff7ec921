//! Takes the data lines of a program file's sections into what is kept, or tells their faults.
#![tactic(auto)]

mod bounds;
mod columns;
mod data;
mod quadratic;
mod row_lines;
mod sides;
mod stop;

pub use data::take_data;
pub use stop::LineStop;
