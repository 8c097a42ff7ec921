//! Programs as they are kept: names, rows, columns and numbers, found by place and by name.
#![tactic(auto)]

mod faults;
mod grid;
mod names;
mod program;
mod sides;

pub use faults::{AddFault, NameFault};
pub use names::{Name, is_marker, is_name};
pub use program::Program;
pub use program_law::{Column, Row, Square, Squares};
pub use sides::is_row;
