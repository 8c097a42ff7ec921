//! What the text of a certificate is: its lines, which may stand where and what each says, and the faults that they may have.
#![tactic(auto)]

mod grammar;
mod items;
mod kinds;
mod places;

pub use grammar::{Allowed, Part, Shape, shape_of};
pub use items::{Claim, Found, Item};
pub use kinds::{CertFault, CertKind, CertStop};
pub use places::Place;
