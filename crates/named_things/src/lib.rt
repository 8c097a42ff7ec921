//! Things with names, in the order in which they were given: looked up by name and by place.
#![tactic(auto)]

mod named;

pub use named::Named;
