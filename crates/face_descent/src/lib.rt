//! The descent on a face of a form's solutions: from a point to one that is stationary on its support; and the steps that it is made of.
#![tactic(auto)]

mod shrinking;
mod slopes;
mod step;
mod system;

pub use shrinking::{FaceStop, shrink};
pub use slopes::gradient;
pub use step::{moved, nearest_zero, smaller};
pub use system::{kept_form, support};
