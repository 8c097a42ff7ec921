//! Whole numbers of one or two machine words: their products in twice as many bits, greatest common divisors, and
//! quotients that leave no rest.
#![tactic(auto)]

mod divisors;
mod inverses;
mod quotients;
mod signs;
mod wide;

pub use divisors::gcd;
pub use quotients::{quotient, size_quotient};
pub use signs::{cross_sum, signed_sum, times};
pub use wide::{Wide, compare_products, mul_div};
