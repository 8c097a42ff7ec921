//! The equational form of a program in a region, and the ways back from it.
#![tactic(auto)]

mod assembly;
mod back;
mod calculation;
mod kept;
mod objective;
mod quadratic;

pub use calculation::form;
pub use kept::Form;
