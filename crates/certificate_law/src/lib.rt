//! Certificates, when they are good, and the laws that make them true.
#![tactic(auto)]

ghost use Rattle.std.specs.Prelude.{◌≡◌, List, length, Some, None};
ghost use Rattle.rational.specs.Rational.{ℚ};
ghost use Rattle.rational.specs.Order.{◌≤ℚ◌, ◌<ℚ◌};
ghost use Rattle.program_law.specs.Region.{Region};
ghost use Rattle.program_law.specs.Program.{Program, bounds};
ghost use Rattle.program_law.specs.Point.{Point, IsRelaxedIn, IsFeasibleIn, IsFeasible};
ghost use Rattle.program_law.specs.Value.{value_of};
ghost use Rattle.program_law.specs.Verdict.{IsTrueOf};
ghost use Rattle.program_law.specs.Columns.{IsPoint};
ghost use Rattle.program_law.specs.declared.Square.{Square};
ghost use Rattle.certificate_law.specs.declared.Node.{Node};
ghost use Rattle.certificate_law.specs.declared.Certificate.{Certificate};
ghost use Rattle.certificate_law.specs.Leaf.{IsGoodBound, IsGoodFarkas};
ghost use Rattle.certificate_law.specs.Tree.{IsGoodTree};
ghost use Rattle.program_law.specs.Squares.{AreSquaresOf, IsSemidefinite};
ghost use Rattle.certificate_law.specs.Ray.{IsRay};
ghost use Rattle.certificate_law.specs.Good.{IsGood, verdict_of};

mod builder;

pub use builder::TreeBuilder;
use frac_core::{Frac, Vector};
use program_law::Squares;
use std::marker::Model;

/// How many squares a certificate has at most.
pub const MOST_SQUARES: usize = 128;

/// How many branches a certificate's tree has at most.
pub const MOST_BRANCHES: usize = 20256;

/// A node of a tree.
#[derive(Drop)]
pub enum Node {
    /// A column and a whole number k: at most k on the left, at least k + 1 on the right.
    Branch(u32, i128),
    /// A point w and the multipliers of the rows.
    Bound(Vector<Frac>, Vector<Frac>),
    /// The multipliers of the rows.
    Farkas(Vector<Frac>),
    /// A column whose bounds cross.
    Cross(u32),
}

/// A tree, as the list of its nodes in preorder.
#[derive(Drop)]
pub struct Tree {
    nodes: Vec<Node>,
}

impl Model for Tree {
    ghost use Rattle.std.specs.Prelude.{List};
    ghost use Rattle.certificate_law.specs.Nodes.{IsOneTree};
    ghost use Rattle.certificate_law.specs.declared.Node.{Node};

    ghost Value = { List Node };

    ghost view = { λ t. t.nodes.items };

    ghost invariant = { λ t. IsOneTree t.nodes.items };
}

/// A claim on a program, with what shows it.
#[derive(Drop)]
pub enum Certificate {
    /// A point, its value, the squares of the form, and a tree that bounds the values.
    Optimal(Vector<Frac>, Frac, Squares, Tree),
    /// A tree that leaves no point.
    Infeasible(Tree),
    /// A point, a ray, and the squares of the form.
    Unbounded(Vector<Frac>, Vector<Frac>, Squares),
    /// A vector with a negative form.
    NotConvex(Vector<Frac>),
}

/// A good FARKAS leaf leaves no point in its region, whole or not.
pub fn farkas_leaf_leaves_no_point()
    ensures { (p : Program) (region : Region) (y : List ℚ) (point : Point) →
        IsGoodFarkas p region y → IsRelaxedIn p region point → ⊥ }
{}

/// No point of a good BOUND leaf's region, whole or not, has a value below the leaf's, where squares sum to the form.
pub fn bound_leaf_bounds()
    ensures { (p : Program) (squares : List Square) (v : ℚ) (region : Region) (w y : List ℚ) (point : Point) →
        AreSquaresOf p.pairs squares → IsGoodBound p v region w y → IsRelaxedIn p region point → v ≤ℚ value_of p point }
{}

/// No point of a good BOUND leaf's region, whole or not, has a value below the leaf's, where the form is semidefinite.
pub fn bound_leaf_bounds_semidefinite()
    ensures { (p : Program) (v : ℚ) (region : Region) (w y : List ℚ) (point : Point) → IsSemidefinite p.pairs →
        length w ≡ length region → IsGoodBound p v region w y → IsRelaxedIn p region point → v ≤ℚ value_of p point }
{}

/// No point that keeps the marks has a value below that of a good tree on its region.
pub fn tree_bounds()
    ensures { (p : Program) (squares : List Square) (v : ℚ) (region : Region) (tree : List Node) (point : Point) →
        AreSquaresOf p.pairs squares → IsGoodTree p (Some v) region tree → IsFeasibleIn p region point →
        v ≤ℚ value_of p point }
{}

/// A good tree without BOUND leaves leaves no point that keeps the marks.
pub fn tree_leaves_no_point()
    ensures { (p : Program) (region : Region) (tree : List Node) (point : Point) →
        IsGoodTree p None region tree → IsFeasibleIn p region point → ⊥ }
{}

/// A ray leads from a point below every number, also where marks must be kept.
pub fn ray_leads_below()
    ensures { (p : Program) (squares : List Square) (x d : List ℚ) → AreSquaresOf p.pairs squares →
        IsPoint p (bounds p) x → IsRay p d → (t : ℚ) → (lower : Point) × IsFeasible p lower × (value_of p lower <ℚ t) }
{}

/// What a good certificate claims is true of all points.
pub fn good_certificates_are_true()
    ensures { (p : Program) (c : Certificate) → IsGood p c → IsTrueOf p (verdict_of c) }
{}
