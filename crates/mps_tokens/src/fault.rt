//! Why bytes are no number.

use thiserror::Error;

/// What is wrong with the bytes of a number.
#[derive(Clone, Copy, Debug, PartialEq, Eq, Error)]
pub enum NumberFault {
    /// They spell no number.
    #[error("no number is spelt so")]
    NotNumber,
    /// They spell a number that is too large or too fine.
    #[error("the number is too large or too fine")]
    Past,
}
