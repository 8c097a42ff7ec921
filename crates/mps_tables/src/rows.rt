// Right sides and ranges by the rows of a file.

ghost use Rattle.std.specs.Prelude.{◌≡◌, IfOk};
ghost use Rattle.named_things.specs.Named.{names_of};
ghost use Rattle.mps_tables.specs.ByRow.{rights_of, ranges_of};

use frac_core::{Frac, Memory, Vector};
use mps_notes::Draft;
use std::alloc::Global;

/// The right sides of all rows.
pub fn right_sides(alloc: Global, draft: &Draft) -> Result<Vector<Frac>, Memory>
    ensures { IfOk result (λ rights. rights ≡ rights_of (names_of draft.now.rows) draft.now.sides) }
{
    let mut rights = Vector::filled(alloc, draft.rows(), Frac::whole(0))?;
    let sides = draft.sides();
    for side in sides {
        rights.set(side.row, side.value);
    }
    Ok(rights)
}

/// The ranges of all rows, where they have one.
pub fn ranges(alloc: Global, draft: &Draft) -> Result<Vector<Option<Frac>>, Memory>
    ensures { IfOk result (λ ranges. ranges ≡ ranges_of (names_of draft.now.rows) draft.now.ranges) }
{
    let mut ranges = Vector::filled(alloc, draft.rows(), None)?;
    let told = draft.ranges();
    for range in told {
        let value = Some(range.value);
        ranges.set(range.row, value);
    }
    Ok(ranges)
}
