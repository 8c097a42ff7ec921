//! The check of a certificate's text, line by line.
#![tactic(auto)]

mod checks;
mod fronts;
mod openings;
mod texts;

pub use texts::check_text;
