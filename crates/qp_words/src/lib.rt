//! The words of a call of the program: a task, with its options.
#![tactic(auto)]

mod command;
mod order;

pub use order::{Order, Task, order_of};
