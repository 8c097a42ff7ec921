//! A line of a program file by itself: where it ends, what bytes it has, the forms of its fields, and the places and numbers that its names and spellings stand for.
#![tactic(auto)]

mod fields;
mod lines;
mod pairs;

pub use fields::{
    Bounded, Entries, Pair, Pairs, bounded_of, entries_of, is_marker_line, is_stretch_begin,
    is_stretch_end, row_name, sides_of,
};
pub use lines::{Whole, is_beyond, is_comment, is_indented, is_plain, whole_line};
pub use pairs::{Item, Items, has_long, is_long, kind_of, resolve};
