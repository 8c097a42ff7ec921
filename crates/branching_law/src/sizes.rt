//! What a certificate asks of its tree, before it is checked and written.

ghost use Rattle.std.specs.Prelude.{◌≡◌, ◌+◌, ℕ, List, [], ◌∷◌, length, position, Some, None};
ghost use Rattle.std.specs.List.{AllByRecursion};
ghost use Rattle.rational.specs.Rational.{ℚ};
ghost use Rattle.program_law.specs.Region.{Region, IsCrossedAt, IsCrossedRegion, is_above};
ghost use Rattle.program_law.specs.Program.{Program, IsProgram, bounds};
ghost use Rattle.certificate_law.specs.declared.Node.{Node};
ghost use Rattle.certificate_law.specs.Nodes.{IsOneTree};
ghost use Rattle.certificate_law.specs.Fits.{FitsNode, HasNoBound};
ghost use Rattle.branching_law.specs.declared.Turn.{Turn};
ghost use Rattle.branching_law.specs.Paths.{IsFirst};
ghost use Rattle.branching_law.specs.Rounding.{AreRoundingTurns, under_rounding};
ghost use Rattle.branching_law.specs.Nodes.{Search};
ghost use Rattle.branching_law.specs.Search.{IsEarned, branches, points_of};
ghost use Rattle.branching_law.specs.Found.{IsIncumbent};
ghost use Rattle.branching_law.specs.Sizes.{HasNodeSizes, HasNumber, IsBranchNumber};

/// The nodes of an earned tree have the program's columns and lengths, and so has the tree below its rounding branches; a whole tree
/// has one node more than twice its branches. So it fits its program where its branch numbers do. Without an incumbent it has no
/// BOUND leaf.
pub fn trees_fit_their_program()
    ensures sizes { (aim : Search) (p : Program) (bases : ℕ) (turns : List Turn) (nodes : List Node) (open_paths : List (List Turn)) →
        IsProgram p → IsEarned aim p bases turns nodes open_paths → AllByRecursion (HasNodeSizes p) nodes }
    ensures rounding_sizes { (p : Program) (turns : List Turn) (nodes : List Node) → AreRoundingTurns p (bounds p) turns →
        AllByRecursion (HasNodeSizes p) nodes → AllByRecursion (HasNodeSizes p) (under_rounding turns nodes) }
    ensures rounding_numbers { (turns : List Turn) (nodes : List Node) → AllByRecursion (λ t. IsBranchNumber t.k) turns →
        AllByRecursion HasNumber nodes → AllByRecursion HasNumber (under_rounding turns nodes) }
    ensures fits { (p : Program) (nodes : List Node) → AllByRecursion (HasNodeSizes p) nodes → AllByRecursion HasNumber nodes →
        AllByRecursion (FitsNode p) nodes }
    ensures count { (nodes : List Node) → IsOneTree nodes → length nodes ≡ branches nodes + branches nodes + 1 }
    ensures no_bound { (aim : Search) (p : Program) (bases : ℕ) (turns : List Turn) (nodes : List Node)
        (open_paths : List (List Turn)) → IsEarned aim p bases turns nodes open_paths → IsIncumbent p (points_of nodes) None →
        HasNoBound (under_rounding turns nodes) }
{}

/// The first column whose low bound passes the test that it is above the high one is the first crossed column; where none passes,
/// the region isn't crossed.
pub fn first_crossed_column_is_tested()
    ensures first { (region : Region) (j : ℕ) → position (λ b. is_above b.low b.high) region ≡ Some j → IsFirst (IsCrossedAt region) j }
    ensures none { (region : Region) → position (λ b. is_above b.low b.high) region ≡ None → IsCrossedRegion region → ⊥ }
{}
