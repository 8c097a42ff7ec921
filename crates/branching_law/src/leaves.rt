//! The leaves of earned trees, and the whole values that they leave to the marked columns.

ghost use Rattle.std.specs.Prelude.{◌≡◌, ◌↔◌, ◌+◌, ◌<◌, ◌≤◌, ℕ, ℤ, pos, ◌+ℤ◌, List, [], ◌∷◌, length, All, AllPairs, Some};
ghost use Rattle.rational.specs.Rational.{ℚ, whole};
ghost use Rattle.rational.specs.Order.{◌≤ℚ◌};
ghost use Rattle.rational.specs.Rounding.{ceiling_of};
ghost use Rattle.program_law.specs.Region.{Region, IsCrossedRegion};
ghost use Rattle.program_law.specs.Program.{Program, IsProgram, bounds, marks};
ghost use Rattle.certificate_law.specs.declared.Node.{Node};
ghost use Rattle.branching_law.specs.declared.Turn.{Turn};
ghost use Rattle.branching_law.specs.Paths.{region_of};
ghost use Rattle.branching_law.specs.Rounding.{IsRounding};
ghost use Rattle.branching_law.specs.Nodes.{Search};
ghost use Rattle.branching_law.specs.Search.{IsEarned, IsSpentTree, branches};
ghost use Rattle.branching_law.specs.Wholes.{HasWholes, AreApart, leaf_paths, AreBounded, wholes_between, choices};

/// No whole values of the marked columns lie in the regions of two leaves of an earned tree, the open ones among them. Where the
/// root's region isn't crossed, some lie in each. There is one leaf more than branches.
pub fn leaves_hold_apart_whole_values()
    ensures apart { (aim : Search) (p : Program) (bases : ℕ) (turns : List Turn) (nodes : List Node) (open_paths : List (List Turn)) →
        IsEarned aim p bases turns nodes open_paths →
        AllPairs (λ a b. AreApart p (region_of p a) (region_of p b)) (leaf_paths (turns ∷ []) nodes) }
    ensures some { (aim : Search) (p : Program) (bases : ℕ) (turns : List Turn) (nodes : List Node) (open_paths : List (List Turn)) →
        IsProgram p → IsEarned aim p bases turns nodes open_paths → (IsCrossedRegion (region_of p turns) → ⊥) →
        All (λ a. HasWholes p (region_of p a)) (leaf_paths (turns ∷ []) nodes) }
    ensures count { (aim : Search) (p : Program) (bases : ℕ) (turns : List Turn) (nodes : List Node) (open_paths : List (List Turn)) →
        IsEarned aim p bases turns nodes open_paths → length (leaf_paths (turns ∷ []) nodes) ≡ branches nodes + 1 }
{}

/// Where the root's region isn't crossed and all marked columns have both bounds, an earned tree has at most as many leaves as
/// there are choices of whole values within the bounds. So a budget of branches can be used up only where it is at least two less
/// than that.
pub fn leaves_are_few()
    ensures leaves { (aim : Search) (p : Program) (bases : ℕ) (turns : List Turn) (nodes : List Node) (open_paths : List (List Turn)) →
        IsProgram p → IsEarned aim p bases turns nodes open_paths → (IsCrossedRegion (region_of p turns) → ⊥) →
        AreBounded p (bounds p) → branches nodes + 1 ≤ choices (marks p) (bounds p) }
    ensures budget { (p : Program) (bases boxes : ℕ) → IsProgram p → IsSpentTree p bases boxes →
        ((turns : List Turn) → IsRounding p turns → (IsCrossedRegion (region_of p turns) → ⊥) → AreBounded p (bounds p)) →
        boxes + 2 ≤ choices (marks p) (bounds p) }
{}

/// The whole numbers within two bounds are the ceiling of the low one and those after it, as many as are counted.
pub fn wholes_are_counted()
    ensures { (l h : ℚ) (z : ℤ) → ((l ≤ℚ whole z) × (whole z ≤ℚ h))
        ↔ ((i : ℕ) × (i < wholes_between (Some l) (Some h)) × (z ≡ ceiling_of l +ℤ pos i)) }
{}
