//! The tests of a certificate in the order of the checking calculation: what stands before its tree, and then its nodes, each on the
//! region that waits first.
#![tactic(auto)]

mod answers;
mod heads;
mod nodes;
mod walks;

pub use answers::answer;
pub use heads::{best_tested, unbounded_tested, vector_tested};
pub use nodes::{bound_taken, branch_taken, cross_taken, farkas_taken};
pub use walks::Walk;
