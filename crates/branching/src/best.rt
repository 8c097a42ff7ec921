// The search for a point of least value that keeps the marks.

ghost use Rattle.std.specs.Prelude.{◌≡◌, ◌<◌, length, true, false, IfOk, IfErr, OnOk};
ghost use Rattle.program_law.specs.Region.{IsCrossedRegion};
ghost use Rattle.program_law.specs.Squares.{AreSquaresOf};
ghost use Rattle.quad_solve_law.specs.Answer.{IsBest};
ghost use Rattle.quad_solve.specs.Relaxation.{HasLengths, IsRelaxedOf};
ghost use Rattle.branching_law.specs.Nodes.{ForBest};
ghost use Rattle.search_steps.specs.Progressing.{HasBegun, IsOnWay, work_left};
ghost use Rattle.branching.specs.Rays.{IsNoRay};
ghost use Rattle.branching.specs.Reaching.{IsPathOf};
ghost use Rattle.branching.specs.Stops.{IsDecideStopOf};
ghost use Rattle.search_steps.specs.Trails.{path_of, IsTrail};

use crate::Limits;
use crate::branches::branched;
use crate::stops::{DecideStop, stop_on};
use certificate_law::Node;
use frac_core::{Frac, Vector};
use program_data::Program;
use program_law::Squares;
use quad_solve::{Relaxed, relax};
use search_steps::{Progress, Trail, is_below};
use std::alloc::Global;

/// The answer of the region at hand.
pub fn relaxed(
    alloc: Global,
    p: &Program,
    squares: &Squares,
    limits: Limits,
    trail: &Trail,
) -> Result<Relaxed, DecideStop>
    requires squares { AreSquaresOf p.now.pairs squares.now }
    requires trail { IsTrail p.now trail.now }
    requires path { IsPathOf ForBest p.now limits.bases limits.boxes (path_of trail.now) }
    ensures answer { IfOk result (IsRelaxedOf p.now trail.now.walk.region limits.bases) }
    ensures lengths { IfOk result (HasLengths p.now) }
    ensures stop { IfErr result (IsDecideStopOf p.now limits.bases limits.boxes) }
{
    match relax(alloc, p, trail.walk.region(), squares, limits.bases) {
        Ok(answer) => Ok(answer),
        Err(stop) => Err(stop_on(trail.path(alloc)?, stop)),
    }
}

/// Takes the node of a point with the least value, at the path at hand: closes it where the value isn't below the incumbent's, or the
/// point keeps the marks and is the incumbent from now on; else branches at it.
fn point_taken(
    p: &Program,
    x: Vector<Frac>,
    value: Frac,
    y: Vector<Frac>,
    limits: Limits,
    progress: &mut Progress,
) -> Result<bool, DecideStop>
    requires way { IsOnWay ForBest p.now limits.bases limits.boxes true progress.old }
    requires uncrossed { IsCrossedRegion progress.old.trail.walk.region → ⊥ }
    requires best { IsBest p.now progress.old.trail.walk.region limits.bases x value y }
    requires length { length x ≡ length p.now.columns }
    ensures way { IfOk result (λ more. HasBegun ForBest p.now limits.bases limits.boxes more progress.new) }
    ensures work { IfOk result (λ more. more ≡ true → work_left limits.boxes progress.new < work_left limits.boxes progress.old) }
    ensures stop { IfErr result (IsDecideStopOf p.now limits.bases limits.boxes) }
{
    if !is_below(value, &progress.incumbent) {
        return Ok(progress.close(Node::Bound(x, y))?);
    }
    if branched(p, &x, limits, progress)? {
        return Ok(true);
    }
    progress.keep(&x, value)?;
    Ok(progress.close(Node::Bound(x, y))?)
}

/// Takes the node of an answer at the path at hand. Answers whether a path is left.
fn taken(
    p: &Program,
    answer: Relaxed,
    limits: Limits,
    progress: &mut Progress,
) -> Result<bool, DecideStop>
    requires way { IsOnWay ForBest p.now limits.bases limits.boxes true progress.old }
    requires answer { IsRelaxedOf p.now progress.old.trail.walk.region limits.bases answer }
    requires lengths { HasLengths p.now answer }
    requires no_ray { IsNoRay answer }
    ensures way { IfOk result (λ more. HasBegun ForBest p.now limits.bases limits.boxes more progress.new) }
    ensures work { IfOk result (λ more. more ≡ true → work_left limits.boxes progress.new < work_left limits.boxes progress.old) }
    ensures stop { IfErr result (IsDecideStopOf p.now limits.bases limits.boxes) }
{
    match answer {
        Relaxed::Crossed(j) => Ok(progress.close(Node::Cross(j))?),
        Relaxed::Empty(y) => Ok(progress.close(Node::Farkas(y))?),
        Relaxed::Ray(_, _) => unreachable!(),
        Relaxed::Best(x, value, y) => point_taken(p, x, value, y, limits, progress),
    }
}

/// The whole search, from the answer of its root on.
pub fn best_searched(
    alloc: Global,
    p: &Program,
    squares: &Squares,
    limits: Limits,
    root: Relaxed,
    progress: &mut Progress,
) -> Result<(), DecideStop>
    requires squares { AreSquaresOf p.now.pairs squares.now }
    requires way { IsOnWay ForBest p.now limits.bases limits.boxes true progress.old }
    requires answer { IsRelaxedOf p.now progress.old.trail.walk.region limits.bases root }
    requires lengths { HasLengths p.now root }
    requires no_ray { IsNoRay root }
    ensures way { OnOk result (IsOnWay ForBest p.now limits.bases limits.boxes false progress.new) }
    ensures stop { IfErr result (IsDecideStopOf p.now limits.bases limits.boxes) }
{
    let _columns = p.columns();
    let mut more = taken(p, root, limits, progress)?;
    'paths: while more {
        let answer = relaxed(alloc, p, squares, limits, &progress.trail)?;
        more = taken(p, answer, limits, progress)?;
    }
    Ok(())
}
