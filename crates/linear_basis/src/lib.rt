//! Bases of linear problems `M z = r`, `z >= 0`, with their inverse, point and multipliers.
#![tactic(auto)]

mod basis;
mod columns;
mod products;

pub use basis::Basis;
pub use columns::unit_columns;
pub use products::row_products;
