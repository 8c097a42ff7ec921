//! The equational form of a program in a region, and its maps back.
#![tactic(auto)]

mod laws;
mod leaves;

pub use laws::{
    calculations_answer, form_fits, rays_are_directions, solutions_are_points, spread_is_adjoint,
};
pub use leaves::{optimality_goes_back, refutation_goes_back};
