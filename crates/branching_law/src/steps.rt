//! The steps of a search.

ghost use Rattle.std.specs.Prelude.{◌≡◌, ◌⊎◌, ◌+◌, ℕ, ℤ, List, [], ◌∷◌, ◌++◌, length, Option, Some, None};
ghost use Rattle.rational.specs.Rational.{ℚ};
ghost use Rattle.rational.specs.Order.{◌≤ℚ◌, ◌<ℚ◌};
ghost use Rattle.rational.specs.Vectors.{IsSemidefinite};
ghost use Rattle.program_law.specs.Program.{Program, marks};
ghost use Rattle.program_law.specs.Columns.{AreWholeOn, value};
ghost use Rattle.certificate_law.specs.declared.Node.{Node};
ghost use Rattle.branching_law.specs.declared.Turn.{Turn};
ghost use Rattle.branching_law.specs.Paths.{region_of};
ghost use Rattle.branching_law.specs.Rounding.{IsMarked, IsRounding};
ghost use Rattle.branching_law.specs.Nodes.{Search, IsFractionalAt, IsBranch, IsKept, IsBelowKept, IsNotBelowKept, IsTaken};
ghost use Rattle.branching_law.specs.Search.{after, points_with, IsSearchOf, IsEarned, branches, points_of};
ghost use Rattle.branching_law.specs.Found.{IsFirstLeast, IsIncumbent};

/// A search starts at its root, which alone is open. A node that is taken at the path that waits first makes an earned tree
/// again.
pub fn searches_go_on()
    ensures starts { (aim : Search) (p : Program) (bases : ℕ) (turns : List Turn) → IsSemidefinite (length p.columns) p.pairs →
        IsRounding p turns → IsSearchOf aim p bases (region_of p turns) → IsEarned aim p bases turns [] (turns ∷ []) }
    ensures step { (aim : Search) (p : Program) (bases : ℕ) (turns : List Turn) (nodes : List Node) (path : List Turn)
        (rest : List (List Turn)) (n : Node) → IsEarned aim p bases turns nodes (path ∷ rest) →
        IsTaken aim p bases (points_of nodes) (region_of p path) n →
        IsEarned aim p bases turns (nodes ++ n ∷ []) (after n path rest) }
    ensures points { (nodes : List Node) (n : Node) → points_of (nodes ++ n ∷ []) ≡ points_with (points_of nodes) n }
    ensures count { (nodes : List Node) (n : Node) → branches (nodes ++ n ∷ []) ≡ branches nodes + branches (n ∷ []) }
{}

/// What a point more makes of the incumbent, and what the incumbent's value says of all points that keep the marks.
pub fn incumbents_go_on()
    ensures none { (p : Program) → IsIncumbent p [] None }
    ensures stays { (p : Program) (points : List (List ℚ)) (incumbent : Option (List ℚ)) (x : List ℚ) →
        IsIncumbent p points incumbent → (¬ (AreWholeOn (marks p) x)) ⊎ IsNotBelowKept p points (value p x) →
        IsIncumbent p (points ++ x ∷ []) incumbent }
    ensures better { (p : Program) (points : List (List ℚ)) (x : List ℚ) → AreWholeOn (marks p) x →
        IsBelowKept p points (value p x) → IsIncumbent p (points ++ x ∷ []) (Some x) }
    ensures below { (p : Program) (points : List (List ℚ)) (incumbent : Option (List ℚ)) (v : ℚ) → IsIncumbent p points incumbent →
        ((x : List ℚ) → incumbent ≡ Some x → v <ℚ value p x) → IsBelowKept p points v }
    ensures not_below { (p : Program) (points : List (List ℚ)) (x : List ℚ) (v : ℚ) → IsIncumbent p points (Some x) →
        value p x ≤ℚ v → IsNotBelowKept p points v }
    ensures kept { (p : Program) (points : List (List ℚ)) (x : List ℚ) → IsIncumbent p points (Some x) → IsKept p points x }
    ensures least { (p : Program) (points : List (List ℚ)) (x w : List ℚ) → IsIncumbent p points (Some x) → IsKept p points w →
        value p x ≤ℚ value p w }
{}

/// A point keeps the marks exactly where no marked column is fractional there; so where no column is marked, each point does,
/// and a point at which the search branches doesn't.
pub fn points_keep_the_marks()
    ensures kept { (p : Program) (x : List ℚ) → ((j : ℕ) → ¬ (IsFractionalAt p x j)) → AreWholeOn (marks p) x }
    ensures not_kept { (p : Program) (x : List ℚ) (j : ℕ) → IsFractionalAt p x j → ¬ (AreWholeOn (marks p) x) }
    ensures branch { (p : Program) (x : List ℚ) (j : ℕ) (k : ℤ) → IsBranch p x j k → ¬ (AreWholeOn (marks p) x) }
    ensures unmarked { (p : Program) (x : List ℚ) → ¬ (IsMarked p) → AreWholeOn (marks p) x }
{}
