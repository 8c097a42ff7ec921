//! Makes the program that the lines of a program file stand for, from all that they tell.
#![tactic(auto)]

mod building;
mod finishing;
mod naming;
mod numbers;

pub use finishing::finish;
