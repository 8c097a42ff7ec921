//! The tests of a certificate's parts: its squares, its ray, a leaf of its tree.
#![tactic(auto)]

mod leaves;
mod rays;
mod squares;

pub use leaves::{bound_tested, farkas_tested};
pub use rays::ray_tested;
pub use squares::squares_tested;
