// From a root to a certificate.

ghost use Rattle.std.specs.Prelude.{◌≤◌, IfOk, IfErr, false};
ghost use Rattle.program_law.specs.Region.{IsCrossedRegion};
ghost use Rattle.quad_solve_law.specs.Answer.{IsFalling};
ghost use Rattle.cert_grammar.specs.Writable.{IsWritable};
ghost use Rattle.branching_law.specs.Found.{Convex, IsFoundOf};
ghost use Rattle.branching_law.specs.Nodes.{Search};
ghost use Rattle.branching_law.specs.Rounding.{IsMarked};
ghost use Rattle.branching_law.specs.Search.{most_boxes};
ghost use Rattle.branching.specs.Decided.{AreSquaresFor};
ghost use Rattle.search_steps.specs.Progressing.{IsOnWay, IsRoot};
ghost use Rattle.branching.specs.Rays.{IsNoRay};
ghost use Rattle.branching.specs.Stops.{IsDecideStopOf};
ghost use Rattle.quad_solve.specs.Relaxation.{HasLengths, IsRelaxedOf};
ghost use Rattle.certificate_law.specs.Fits.{IsColumnVector};

use crate::Limits;
use crate::best::{best_searched, relaxed};
use crate::point::point_searched;
use crate::stops::DecideStop;
use certificate_law::Certificate;
use frac_core::{Frac, Memory, Vector};
use program_data::Program;
use program_law::Squares;
use quad_solve::Relaxed;
use search_steps::{Progress, Trail, closed, is_marked, rounded};
use std::alloc::Global;

/// The certificate of a search that has no path left.
fn decided(
    p: &Program,
    limits: Limits,
    squares: Squares,
    progress: Progress,
) -> Result<Certificate, Memory>
    requires squares { AreSquaresFor p.now squares }
    requires boxes { limits.boxes ≤ most_boxes }
    requires way { (aim : Search) × IsOnWay aim p.now limits.bases limits.boxes false progress }
    ensures found { IfOk result (IsFoundOf p.now (Convex squares) limits.bases limits.boxes) }
    ensures writable { IfOk result (IsWritable p.now) }
{
    let _columns = p.columns();
    let Progress {
        trail,
        nodes,
        branches: _,
        incumbent,
    } = progress;
    let tree = closed(nodes, &trail.turns)?;
    match incumbent {
        Some(best) => Ok(Certificate::Optimal(best.point, best.value, squares, tree)),
        None => Ok(Certificate::Infeasible(tree)),
    }
}

/// The certificate by a search for the best, from the answer of its root on.
fn by_best(
    alloc: Global,
    p: &Program,
    squares: Squares,
    limits: Limits,
    root: Trail,
    answer: Relaxed,
) -> Result<Certificate, DecideStop>
    requires squares { AreSquaresFor p.now squares }
    requires boxes { limits.boxes ≤ most_boxes }
    requires root { IsRoot p.now root }
    requires answer { IsRelaxedOf p.now root.walk.region limits.bases answer }
    requires lengths { HasLengths p.now answer }
    requires no_ray { IsNoRay answer }
    ensures found { IfOk result (IsFoundOf p.now (Convex squares) limits.bases limits.boxes) }
    ensures writable { IfOk result (IsWritable p.now) }
    ensures stop { IfErr result (IsDecideStopOf p.now limits.bases limits.boxes) }
{
    let _columns = p.columns();
    let mut progress = Progress::start(alloc, root)?;
    best_searched(alloc, p, &squares, limits, answer, &mut progress)?;
    Ok(decided(p, limits, squares, progress)?)
}

/// The certificate by a search for a point, from the point and the ray of its root on.
fn by_point(
    alloc: Global,
    p: &Program,
    squares: Squares,
    limits: Limits,
    root: Trail,
    x: Vector<Frac>,
    d: Vector<Frac>,
) -> Result<Certificate, DecideStop>
    requires squares { AreSquaresFor p.now squares }
    requires boxes { limits.boxes ≤ most_boxes }
    requires root { IsRoot p.now root }
    requires marked { IsMarked p.now }
    requires uncrossed { IsCrossedRegion root.walk.region → ⊥ }
    requires falling { IsFalling p.now root.walk.region limits.bases x d }
    requires lengths { IsColumnVector p.now x × IsColumnVector p.now d }
    ensures found { IfOk result (IsFoundOf p.now (Convex squares) limits.bases limits.boxes) }
    ensures writable { IfOk result (IsWritable p.now) }
    ensures stop { IfErr result (IsDecideStopOf p.now limits.bases limits.boxes) }
{
    let _columns = p.columns();
    let mut progress = Progress::start(alloc, root)?;
    match point_searched(alloc, p, limits, x, &mut progress)? {
        Some(point) => Ok(Certificate::Unbounded(point, d, squares)),
        None => Ok(decided(p, limits, squares, progress)?),
    }
}

/// The certificate of a convex program, by its squares.
pub fn convex(
    alloc: Global,
    p: &Program,
    squares: Squares,
    limits: Limits,
) -> Result<Certificate, DecideStop>
    requires squares { AreSquaresFor p.now squares }
    requires boxes { limits.boxes ≤ most_boxes }
    ensures found { IfOk result (IsFoundOf p.now (Convex squares) limits.bases limits.boxes) }
    ensures writable { IfOk result (IsWritable p.now) }
    ensures stop { IfErr result (IsDecideStopOf p.now limits.bases limits.boxes) }
{
    let _columns = p.columns();
    let root = rounded(alloc, p)?;
    match relaxed(alloc, p, &squares, limits, &root)? {
        Relaxed::Ray(x, d) => {
            if is_marked(p) {
                by_point(alloc, p, squares, limits, root, x, d)
            } else {
                Ok(Certificate::Unbounded(x, d, squares))
            }
        }
        answer => by_best(alloc, p, squares, limits, root, answer),
    }
}
