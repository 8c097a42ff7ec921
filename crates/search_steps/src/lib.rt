//! The steps of a search: rounding, the way from its root to the path at hand, the nodes that were taken, and the incumbent.
#![tactic(auto)]

mod marks;
mod progress;
mod rounding;
mod trails;
mod trees;
mod turns;

pub use marks::{first_fractional, is_marked};
pub use progress::{Incumbent, Progress, is_below};
pub use rounding::rounded;
pub use trails::{Path, Trail};
pub use trees::closed;
pub use turns::no_turns;
