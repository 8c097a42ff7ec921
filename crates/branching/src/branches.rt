// The branch that is due where a point doesn't keep the marks.

ghost use Rattle.std.specs.Prelude.{◌≡◌, ◌<◌, length, Ok, true, false, IfErr};
ghost use Rattle.program_law.specs.Program.{marks};
ghost use Rattle.program_law.specs.Columns.{AreWholeOn};
ghost use Rattle.branching_law.specs.Nodes.{Search};
ghost use Rattle.search_steps.specs.Progressing.{HasBegun, IsInner, work_left};
ghost use Rattle.branching.specs.Stops.{IsDecideStopOf};

use crate::Limits;
use crate::stops::DecideStop;
use check_steps::entry;
use frac_core::{Frac, Vector};
use program_data::Program;
use search_steps::{Progress, first_fractional};

/// Branches on the first marked column at which the point of the path at hand isn't whole. Answers whether there is one.
pub fn branched(
    p: &Program,
    x: &Vector<Frac>,
    limits: Limits,
    progress: &mut Progress,
) -> Result<bool, DecideStop>
    requires inner { (aim : Search) × IsInner aim p.now limits.bases limits.boxes x.now progress.old }
    requires length { length x.now ≡ length p.now.columns }
    ensures way { (aim : Search) → IsInner aim p.now limits.bases limits.boxes x.now progress.old → result ≡ Ok true →
        HasBegun aim p.now limits.bases limits.boxes true progress.new }
    ensures work { result ≡ Ok true → work_left limits.boxes progress.new < work_left limits.boxes progress.old }
    ensures whole { result ≡ Ok false → AreWholeOn (marks p.now) x.now }
    ensures same { result ≡ Ok false → progress.new ≡ progress.old }
    ensures stop { IfErr result (IsDecideStopOf p.now limits.bases limits.boxes) }
{
    let Some(j) = first_fractional(p, x) else {
        return Ok(false);
    };
    if progress.branches == limits.boxes {
        return Err(DecideStop::Boxes(limits.boxes));
    }
    progress.branch(j, entry(x, j as usize))?;
    Ok(true)
}
