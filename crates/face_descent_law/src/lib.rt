//! The shrink steps of the walk on a form, and their laws. Each law is the contract of a function that does nothing.
#![tactic(auto)]

mod steps;
mod systems;
mod walks;

pub use steps::{
    full_step_is_stationary, moves_keep_solutions, refuted_step_falls, shrink_steps_are_determined,
};
pub use systems::{small_system_says_what_a_step_keeps, stationary_is_having_multipliers};
pub use walks::{shrink_steps_end, shrink_steps_fall};
