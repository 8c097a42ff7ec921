//! Regions: the bounds of all columns, cut and crossed, and the way back from a cut region.
#![tactic(auto)]

mod descents;
mod regions;

pub use descents::{Cut, Descent};
pub use regions::{Region, is_crossed};
