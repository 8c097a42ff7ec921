// Why no certificate is found.

ghost use Rattle.std.specs.Prelude.{◌≡◌};
ghost use Rattle.branching.specs.Stops.{stop_on};

use frac_core::{Memory, Refused};
use quad_solve::{RelaxStop, Site};
use search_steps::Path;

/// Why no certificate is found.
#[derive(Drop)]
pub enum DecideStop {
    Memory,
    /// The budget of strict steps is used up at a site of a path's region.
    Bases(Path, Site),
    /// The budget of branches, this many, is used up.
    Boxes(u64),
    /// An operation's exact result at a site of a path's region doesn't fit.
    Past(Path, Site, Refused),
}

impl From<Memory> for DecideStop {
    ghost use Rattle.std.specs.Prelude.{◌≡◌};
    ghost use Rattle.branching.specs.declared.stops.DecideStop.TheVariants.{Memory};

    ghost from_gives = { λ e s. s ≡ Memory };

    fn from(_error: Memory) -> DecideStop {
        DecideStop::Memory
    }
}

/// A region's stop, at its path.
pub fn stop_on(path: Path, stop: RelaxStop) -> DecideStop
    ensures { result ≡ stop_on path stop }
{
    match stop {
        RelaxStop::Spent(site) => DecideStop::Bases(path, site),
        RelaxStop::Past(site, refused) => DecideStop::Past(path, site, refused),
        RelaxStop::Memory => DecideStop::Memory,
    }
}
