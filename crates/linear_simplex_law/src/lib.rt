//! Chains of bases of a linear problem, and their laws. Each law is the contract of a function that does nothing.
#![tactic(auto)]

mod chains;

pub use chains::{
    bases_of_a_chain_differ, chain_goes_on, chain_holds_standing_bases, chains_are_determined,
    chains_are_short, chains_tell_one_verdict,
};
