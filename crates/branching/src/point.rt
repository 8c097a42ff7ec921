// The search for any point that keeps the marks.

ghost use Rattle.std.specs.Prelude.{◌≡◌, length, true, IfOk, IfErr, if◌then◌else◌};
ghost use Rattle.program_law.specs.Region.{IsCrossedRegion};
ghost use Rattle.quad_solve_law.specs.Answer.{IsFound};
ghost use Rattle.quad_solve.specs.Answers.{HasSizes, IsAnyPointOf};
ghost use Rattle.branching_law.specs.Nodes.{ForPoint};
ghost use Rattle.search_steps.specs.Progressing.{IsOnWay};
ghost use Rattle.branching.specs.Reaching.{EndsIn, IsPathOf, IsTakenTo};
ghost use Rattle.branching.specs.Stops.{IsDecideStopOf};
ghost use Rattle.search_steps.specs.Trails.{path_of, IsTrail};

use crate::Limits;
use crate::branches::branched;
use crate::stops::{DecideStop, stop_on};
use certificate_law::Node;
use frac_core::{Frac, Vector};
use program_data::Program;
use quad_solve::{AnyPoint, any_point};
use search_steps::{Progress, Trail};
use std::alloc::Global;

/// What a search for a point does at a path.
#[derive(Drop)]
pub enum Outcome {
    /// A point that keeps the marks ends it.
    Found(Vector<Frac>),
    /// A path is left.
    More,
    /// No path is left.
    Done,
}

/// What comes after a node: whether a path is left.
fn after(more: bool) -> Outcome
    ensures { result ≡ (if more then Outcome.More else Outcome.Done) }
{
    if more { Outcome::More } else { Outcome::Done }
}

/// What feasibility tells of the region at hand.
fn pointed(
    alloc: Global,
    p: &Program,
    limits: Limits,
    trail: &Trail,
) -> Result<AnyPoint, DecideStop>
    requires trail { IsTrail p.now trail.now }
    requires path { IsPathOf ForPoint p.now limits.bases limits.boxes (path_of trail.now) }
    ensures answer { IfOk result (IsAnyPointOf p.now trail.now.walk.region limits.bases) }
    ensures sizes { IfOk result (HasSizes p.now) }
    ensures stop { IfErr result (IsDecideStopOf p.now limits.bases limits.boxes) }
{
    match any_point(alloc, p, trail.walk.region(), limits.bases) {
        Ok(answer) => Ok(answer),
        Err(stop) => Err(stop_on(trail.path(alloc)?, stop)),
    }
}

/// Takes the node of a point at the path at hand: branches at it, unless it keeps the marks.
fn point_taken(
    p: &Program,
    x: Vector<Frac>,
    limits: Limits,
    progress: &mut Progress,
) -> Result<Outcome, DecideStop>
    requires way { IsOnWay ForPoint p.now limits.bases limits.boxes true progress.old }
    requires uncrossed { IsCrossedRegion progress.old.trail.walk.region → ⊥ }
    requires found { IsFound p.now progress.old.trail.walk.region limits.bases x }
    requires length { length x ≡ length p.now.columns }
    ensures taken { IfOk result (IsTakenTo p.now limits.bases limits.boxes progress.old progress.new) }
    ensures stop { IfErr result (IsDecideStopOf p.now limits.bases limits.boxes) }
{
    if branched(p, &x, limits, progress)? {
        return Ok(Outcome::More);
    }
    Ok(Outcome::Found(x))
}

/// Takes the node of an answer at the path at hand.
fn taken(
    p: &Program,
    answer: AnyPoint,
    limits: Limits,
    progress: &mut Progress,
) -> Result<Outcome, DecideStop>
    requires way { IsOnWay ForPoint p.now limits.bases limits.boxes true progress.old }
    requires answer { IsAnyPointOf p.now progress.old.trail.walk.region limits.bases answer }
    requires sizes { HasSizes p.now answer }
    ensures taken { IfOk result (IsTakenTo p.now limits.bases limits.boxes progress.old progress.new) }
    ensures stop { IfErr result (IsDecideStopOf p.now limits.bases limits.boxes) }
{
    match answer {
        AnyPoint::Crossed(j) => Ok(after(progress.close(Node::Cross(j))?)),
        AnyPoint::Empty(y) => Ok(after(progress.close(Node::Farkas(y))?)),
        AnyPoint::Point(x) => point_taken(p, x, limits, progress),
    }
}

/// The whole search, from the point of its root on: a point that keeps the marks, or none.
pub fn point_searched(
    alloc: Global,
    p: &Program,
    limits: Limits,
    root: Vector<Frac>,
    progress: &mut Progress,
) -> Result<Option<Vector<Frac>>, DecideStop>
    requires way { IsOnWay ForPoint p.now limits.bases limits.boxes true progress.old }
    requires uncrossed { IsCrossedRegion progress.old.trail.walk.region → ⊥ }
    requires found { IsFound p.now progress.old.trail.walk.region limits.bases root }
    requires length { length root ≡ length p.now.columns }
    ensures ends { IfOk result (λ found. EndsIn p.now limits.bases limits.boxes found progress.new) }
    ensures stop { IfErr result (IsDecideStopOf p.now limits.bases limits.boxes) }
{
    let mut answer = AnyPoint::Point(root);
    'paths: loop {
        match taken(p, answer, limits, progress)? {
            Outcome::Found(x) => return Ok(Some(x)),
            Outcome::Done => return Ok(None),
            Outcome::More => answer = pointed(alloc, p, limits, &progress.trail)?,
        }
    }
}
