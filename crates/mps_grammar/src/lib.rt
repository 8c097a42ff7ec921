//! What a program file is: its lines and what they tell, the faults that it may have, and the program that it stands for.
#![tactic(auto)]

mod kinds;

pub use kinds::FaultKind;
