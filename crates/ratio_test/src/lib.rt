//! The lexicographic ratio test of a basis in fractions: cross products are compared, also where they don't fit, so that no order is refused.
#![tactic(auto)]

mod crosses;
mod ratio;
mod wide;

pub use ratio::{is_positive, leaving};
