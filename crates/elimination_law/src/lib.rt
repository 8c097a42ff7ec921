//! The elimination of a matrix over exact numbers: the rows at its end and what they answer, its operations in
//! order, and the laws of these. Each law is the contract of a function that does nothing.
#![tactic(auto)]

mod laws;

pub use laws::{
    columns_beside_act_alone, elimination_combines_rows, elimination_ends_with_its_first_refusal,
    elimination_has_pivots, elimination_inverts, elimination_solves, pivot_columns_are_independent,
};
