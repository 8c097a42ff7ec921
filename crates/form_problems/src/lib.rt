//! The problems of a form: whether it has a solution, whether it has a ray, and whether a direction leads down from a point of it; and the
//! step along such a direction.
#![tactic(auto)]

mod chains;
mod price;
mod problems;

pub use chains::{PriceStop, feasible_chain, price_chain, ray_chain};
pub use price::{multipliers, price_step};
