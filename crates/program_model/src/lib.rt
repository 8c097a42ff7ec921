//! Programs, with their regions, and the tests and the value of a point.
#![tactic(auto)]

mod points;

pub use points::{PointTest, check_point, form, half_form, point_tested, value};
pub use program_data::{
    AddFault, Column, Name, NameFault, Program, Row, Square, Squares, is_marker, is_name, is_row,
};
pub use program_regions::{Cut, Descent, Region, is_crossed};
