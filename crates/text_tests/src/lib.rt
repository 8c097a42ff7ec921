//! Tests of single calls on texts, streams, words and samples.
#![tactic(auto)]

#[cfg(test)]
mod tests;
