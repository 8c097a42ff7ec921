//! Tests of single calls on programs and their forms: points, regions, squares, the equational form, and shrink steps.
#![tactic(auto)]

#[cfg(test)]
mod curvature;
#[cfg(test)]
mod descents;
#[cfg(test)]
mod forms;
#[cfg(test)]
mod points;
#[cfg(test)]
mod programs;
