//! Programs that are made from a kind and a number, large and with a solution.
#![tactic(auto)]

mod building;
mod draws;
mod kinds;
pub mod laws;
mod names;
mod numbers;
mod plans;

pub use building::sample;
