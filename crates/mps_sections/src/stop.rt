// Why a line is not taken.

ghost use Rattle.std.specs.Prelude.{◌≡◌};
ghost use Rattle.mps_sections.specs.declared.stop.LineStop.TheVariants as stops;

use frac_core::Memory;
use mps_grammar::FaultKind;
use std::alloc::AllocError;

/// Why a line is not taken.
#[derive(Clone, Copy, Debug, PartialEq, Eq)]
pub enum LineStop {
    /// Memory ran out.
    Memory,
    /// The line has this fault.
    Fault(FaultKind),
}

impl From<Memory> for LineStop {
    ghost from_gives = { λ _ e. e ≡ stops.Memory };

    fn from(_error: Memory) -> LineStop {
        LineStop::Memory
    }
}

impl From<AllocError> for LineStop {
    ghost from_gives = { λ _ e. e ≡ stops.Memory };

    fn from(_error: AllocError) -> LineStop {
        LineStop::Memory
    }
}

impl From<FaultKind> for LineStop {
    ghost from_gives = { λ kind e. e ≡ stops.Fault kind };

    fn from(kind: FaultKind) -> LineStop {
        LineStop::Fault(kind)
    }
}
