//! What a run answers: how it ends, and the text that comes with that.
//!
//! Words and inputs that aren't taken, what a check says, and a search that stops each have one text. A text is built whole, so `Err`
//! is for want of memory alone.
#![tactic(auto)]

mod answers;
mod paths;
mod showing;
mod status;
mod stops;
mod withheld;

pub use answers::{Answer, certificate_word, refused, told, usage};
pub use showing::show_numbers;
pub use status::Status;
pub use stops::stopped;
pub use withheld::check_text;
