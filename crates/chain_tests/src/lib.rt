//! Tests of single calls on bases and chains.
#![tactic(auto)]

#[cfg(test)]
mod bases;
#[cfg(test)]
mod chains;
