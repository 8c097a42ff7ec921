//! A run of the program: from the words and the bytes of an input to the bytes that are written.
#![tactic(auto)]

mod judging;
mod laws;
mod only_texts;
mod running;
mod sampling;
mod solving;

pub use laws::{
    large_budgets_decide_a_program, large_budgets_decide_a_sample, solutions_are_accepted,
    written_certificates_are_accepted,
};
pub use only_texts::one_text_is_due;
pub use qp_answers::Status;
pub use running::run;
