//! Arithmetic on rows of whole numbers over a denominator: their products with columns, the least of them by cross products, a row divided
//! by a number, and a row less a multiple of another. A number that doesn't fit 128 bits is told.
#![tactic(auto)]

mod numbers;
mod order;
mod row;

pub use numbers::{exact, is_positive, lowest, multiple, times};
pub use order::least;
pub use row::{WholeRow, product, sum_products};
