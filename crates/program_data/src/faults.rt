// Why a name or an addition is refused.

ghost use Rattle.std.specs.Prelude.{◌≡◌};
ghost use Rattle.program_data.specs.declared.faults.AddFault.TheVariants as add;

use frac_core::Memory;
use thiserror::Error;

/// Why bytes make no name.
#[derive(Clone, Copy, Debug, PartialEq, Eq, Error)]
pub enum NameFault {
    /// They are not 1 to 64 bytes from 33 to 126.
    #[error("not a name")]
    Bad,
    #[error("memory ran out")]
    Memory,
}

/// Why a row or a column is not added.
#[derive(Clone, Copy, Debug, PartialEq, Eq, Error)]
pub enum AddFault {
    /// There are 128 already.
    #[error("there are too many")]
    Many,
    /// The name is taken.
    #[error("the name is taken")]
    Twice,
    #[error("memory ran out")]
    Memory,
}

impl From<Memory> for AddFault {
    ghost from_gives = { λ _ e. e ≡ add.Memory };

    fn from(_error: Memory) -> AddFault {
        AddFault::Memory
    }
}
