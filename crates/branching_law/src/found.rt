//! Earned trees are good, and so is the certificate that a search finds.

ghost use Rattle.std.specs.Prelude.{◌≡◌, ℕ, List, [], length, Contains, Option, Some, None};
ghost use Rattle.rational.specs.Rational.{ℚ};
ghost use Rattle.rational.specs.Order.{◌≤ℚ◌};
ghost use Rattle.rational.specs.Vectors.{IsSemidefinite};
ghost use Rattle.program_law.specs.declared.Square.{Square};
ghost use Rattle.program_law.specs.Program.{Program, IsProgram, bounds};
ghost use Rattle.program_law.specs.Columns.{IsRelaxedPoint, value};
ghost use Rattle.program_law.specs.Verdict.{IsTrueOf};
ghost use Rattle.certificate_law.specs.declared.Node.{Node};
ghost use Rattle.certificate_law.specs.declared.Certificate.{Certificate};
ghost use Rattle.program_law.specs.Squares.{AreSquaresOf};
ghost use Rattle.certificate_law.specs.Nodes.{IsOneTree};
ghost use Rattle.certificate_law.specs.Tree.{IsGoodTree};
ghost use Rattle.certificate_law.specs.Good.{IsGood, verdict_of};
ghost use Rattle.branching_law.specs.declared.Turn.{Turn};
ghost use Rattle.branching_law.specs.Rounding.{under_rounding};
ghost use Rattle.branching_law.specs.Nodes.{Search, IsKept};
ghost use Rattle.branching_law.specs.Search.{IsEarned, points_of};
ghost use Rattle.branching_law.specs.Found.{Reduced, IsReductionOf, IsFoundOf};

/// Squares that sum to Q show that no vector has a negative form.
pub fn squares_make_a_program_convex()
    ensures { (p : Program) (squares : List Square) → IsProgram p → AreSquaresOf p.pairs squares →
        IsSemidefinite (length p.columns) p.pairs }
{}

/// A whole earned tree, below its rounding branches, is good on the program's bounds for each number that isn't above the value of
/// any point of its leaves that keeps the marks; where none does, it is good without a number. The points of its leaves keep the
/// program's rows and bounds. It is one whole tree.
pub fn earned_trees_are_good()
    ensures bounds_values { (aim : Search) (p : Program) (bases : ℕ) (turns : List Turn) (nodes : List Node) (v : ℚ) → IsProgram p →
        IsEarned aim p bases turns nodes [] → ((x : List ℚ) → IsKept p (points_of nodes) x → v ≤ℚ value p x) →
        IsGoodTree p (Some v) (bounds p) (under_rounding turns nodes) }
    ensures leaves_none { (aim : Search) (p : Program) (bases : ℕ) (turns : List Turn) (nodes : List Node) → IsProgram p →
        IsEarned aim p bases turns nodes [] → ((x : List ℚ) → ¬ (IsKept p (points_of nodes) x)) →
        IsGoodTree p None (bounds p) (under_rounding turns nodes) }
    ensures points { (aim : Search) (p : Program) (bases : ℕ) (turns : List Turn) (nodes : List Node) (open_paths : List (List Turn))
        (x : List ℚ) → IsProgram p → IsEarned aim p bases turns nodes open_paths → Contains (points_of nodes) x →
        IsRelaxedPoint p (bounds p) x }
    ensures tree { (aim : Search) (p : Program) (bases : ℕ) (turns : List Turn) (nodes : List Node) →
        IsEarned aim p bases turns nodes [] → IsOneTree (under_rounding turns nodes) }
{}

/// The certificate that is found is good.
pub fn certificates_found_are_good()
    ensures { (p : Program) (reduced : Reduced) (bases boxes : ℕ) (c : Certificate) → IsProgram p → IsReductionOf p.pairs reduced →
        IsFoundOf p reduced bases boxes c → IsGood p c }
{}

/// What the certificate that is found claims is true of all points.
pub fn certificates_found_are_true()
    ensures { (p : Program) (reduced : Reduced) (bases boxes : ℕ) (c : Certificate) → IsProgram p → IsReductionOf p.pairs reduced →
        IsFoundOf p reduced bases boxes c → IsTrueOf p (verdict_of c) }
{}
