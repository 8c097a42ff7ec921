//! The fields of a certificate's lines: names and numbers, as they are written and read.
#![tactic(auto)]

mod laws;
mod lines;
mod names;
mod numbers;
mod splitting;

pub use laws::numbers_are_read_back;
pub use lines::{put_entry, put_name, put_number, put_whole, put_word};
pub use names::{Axis, count_on, find_on, name_on};
pub use numbers::number;
pub use splitting::{first_part, is_one_part, last_two_parts, second_part, split_line};
