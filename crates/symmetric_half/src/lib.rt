//! The upper half of a symmetric matrix, in one piece of memory.
#![tactic(auto)]

mod half;

pub use half::Half;
