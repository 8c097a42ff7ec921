//! Matrices of exact numbers: systems of equations, and inverses, by elimination.
#![tactic(auto)]

mod answers;
mod assembly;
mod elimination;
mod matrix;
mod rows;
mod systems;

pub use elimination_law::{
    columns_beside_act_alone, elimination_combines_rows, elimination_ends_with_its_first_refusal,
    elimination_has_pivots, elimination_inverts, elimination_solves, pivot_columns_are_independent,
};
pub use matrix::Matrix;
pub use systems::{Solved, Stop, invert, solve};
