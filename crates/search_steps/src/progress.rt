// How far a search has come: the path at hand, the nodes that were taken, and the incumbent.

ghost use Rattle.std.specs.Prelude.{◌≡◌, ◌+◌, ◌<◌, ◌≤◌, length, true, unsigned_abs, IfOk, OnOk};
ghost use Rattle.frac_core.specs.Parts.{max_part};
ghost use Rattle.rational.specs.Rounding.{floor_of};
ghost use Rattle.program_law.specs.Program.{Program};
ghost use Rattle.certificate_law.specs.declared.Node.TheVariants.{Branch};
ghost use Rattle.search_steps.specs.Incumbents.{is_below};
ghost use Rattle.search_steps.specs.declared.progress.Progress.{Progress};
ghost use Rattle.search_steps.specs.Progressing.{IsBranched, IsClosed};
ghost use Rattle.search_steps.specs.Trails.{IsTrail};
ghost use Rattle.search_steps.specs.Trees.{nodes_before};

use crate::trails::Trail;
use crate::trees::opened;
use certificate_law::{Node, TreeBuilder};
use frac_core::{Frac, Memory, Vector};
use std::alloc::Global;

/// The first point of least value, among the leaves' points that keep the marks, with its value.
#[derive(Drop)]
pub struct Incumbent {
    pub point: Vector<Frac>,
    pub value: Frac,
}

/// How far a search has come.
#[derive(Drop)]
pub struct Progress {
    pub trail: Trail,
    /// The nodes of rounding that stand before those of the search, and those that were taken.
    pub nodes: TreeBuilder,
    /// How many branches were taken.
    pub branches: u64,
    pub incumbent: Option<Incumbent>,
}

/// Whether a value is below the incumbent's. Where there is no incumbent, each value is.
pub fn is_below(value: Frac, incumbent: &Option<Incumbent>) -> bool
    ensures { result ≡ is_below value incumbent.now }
{
    match incumbent {
        None => true,
        Some(incumbent) => !incumbent.value.at_most(value),
    }
}

/// The branch at the floor of a number.
fn branch_at(column: u32, x: Frac) -> Node
    ensures node { result ≡ Branch column (floor_of x) }
    ensures fits { unsigned_abs (floor_of x) ≤ max_part }
{
    Node::Branch(column, x.floor())
}

impl Progress {
    /// At the root.
    pub fn start(alloc: Global, root: Trail) -> Result<Progress, Memory>
        ensures nodes { IfOk result (λ progress. progress.nodes ≡ nodes_before root.turns) }
        ensures trail { IfOk result (λ progress. progress.trail ≡ root) }
        ensures branches { IfOk result (λ progress. progress.branches ≡ 0) }
        ensures incumbent { IfOk result (λ progress. progress.incumbent ≡ None) }
    {
        let nodes = opened(alloc, &root.turns)?;
        Ok(Progress {
            trail: root,
            nodes,
            branches: 0,
            incumbent: None,
        })
    }

    /// Keeps a point as the incumbent, with its value.
    pub fn keep(&mut self, point: &Vector<Frac>, value: Frac) -> Result<(), Memory>
        ensures { OnOk result (self.new ≡ record self.old { incumbent = Some (record { point = point.now; value = value }) }) }
    {
        let point = point.copied()?;
        self.incumbent = Some(Incumbent { point, value });
        Ok(())
    }

    /// Puts a leaf, and goes to the next path. Answers whether there is one.
    pub fn close(&mut self, leaf: Node) -> Result<bool, Memory>
        requires { (p : Program) × IsTrail p self.old.trail }
        ensures closed { IfOk result (λ more. IsClosed self.old leaf more self.new) }
        ensures trail { (p : Program) → IsTrail p self.old.trail → IfOk result (λ more. more ≡ true → IsTrail p self.new.trail) }
    {
        self.nodes.put(leaf)?;
        Ok(self.trail.go_on())
    }

    /// Puts the branch at a column and the floor of a number that isn't whole, and goes below.
    pub fn branch(&mut self, j: u32, x: Frac) -> Result<(), Memory>
        requires fractional { x.den ≡ 1 → ⊥ }
        requires column { j < length self.old.trail.walk.region }
        requires few { self.old.branches < u64.MAX }
        ensures branched { OnOk result (IsBranched self.old j (floor_of x) self.new) }
        ensures fits { unsigned_abs (floor_of x) ≤ max_part }
        ensures trail { (p : Program) → IsTrail p self.old.trail → OnOk result (IsTrail p self.new.trail) }
    {
        self.nodes.put(branch_at(j, x))?;
        self.trail.go_below(j, x)?;
        self.branches += 1;
        Ok(())
    }
}
