//! Linear problems `M z = r`, `z >= 0`, their bases, and the laws of these. Each law is the contract of a
//! function that does nothing.
#![tactic(auto)]

mod exchanges;
mod laws;
mod order;

pub use exchanges::{
    exchange_keeps_standing, exchange_makes_a_basis, exchange_moves_the_point, one_place_leaves,
};
pub use laws::{
    basis_gives_its_columns, basis_tells_its_verdict, elimination_gives_the_inverse,
    units_are_a_basis, zero_cost_is_no_cost,
};
pub use order::lists_are_in_order;
