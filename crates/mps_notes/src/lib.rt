//! What is kept of the lines of a program file: rows and columns by their names, numbers by the places of these, and which of them were given.
#![tactic(auto)]

mod bounds;
mod draft;
mod entries;
mod notes;
mod numbers;
mod rows;
mod sides;

pub use bounds::{Bound, Bounds};
pub use draft::{Draft, gives_once};
pub use entries::{Places, column_places, gives_pair_twice, gives_twice, put_items, row_places};
pub use notes::Notes;
pub use numbers::{Entry, Numbers, Target};
pub use rows::{RowUse, Rows};
pub use sides::{Sides, is_used, name_set};
