//! What is known of a region within a budget: a point of it, or why it has none; or its whole answer.
#![tactic(auto)]

mod feasibility;
mod relaxation;
mod sites;
mod solutions;
mod walk;

pub use feasibility::{AnyPoint, any_point};
pub use relaxation::{Relaxed, relax};
pub use sites::{RelaxStop, Site, Task};
