//! Tests of single calls on numbers, matrices, words and trees.
#![tactic(auto)]

#[cfg(test)]
mod fractions;
#[cfg(test)]
mod matrices;
#[cfg(test)]
mod tokens;
#[cfg(test)]
mod trees;
