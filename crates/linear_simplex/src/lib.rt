//! Whether a linear problem `M z = r`, `z >= 0` has a solution, by the lexicographic simplex method.
#![tactic(auto)]

mod answers;
mod chain;
mod pricing;
mod products;
mod verdicts;
mod whole;

pub use answers::{Feasible, LinearStop};
pub use chain::feasible;
