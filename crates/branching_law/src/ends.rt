//! That a search comes to an end, and to one certificate only.

ghost use Rattle.std.specs.Prelude.{◌≡◌, ◌⊎◌, ◌↔◌, ◌≤◌, ◌+◌, ◌^◌, ℕ, List, Option, length};
ghost use Rattle.rational.specs.Rational.{ℚ};
ghost use Rattle.program_law.specs.declared.Square.{Square};
ghost use Rattle.program_law.specs.Region.{IsCrossedRegion};
ghost use Rattle.program_law.specs.Program.{Program, IsProgram, bounds, marks};
ghost use Rattle.certificate_law.specs.declared.Certificate.{Certificate};
ghost use Rattle.program_law.specs.Squares.{AreSquaresOf};
ghost use Rattle.equational_law.specs.Form.{width, form_of};
ghost use Rattle.quad_solve_law.specs.Sites.{RegionSite};
ghost use Rattle.branching_law.specs.declared.Turn.{Turn};
ghost use Rattle.branching_law.specs.Paths.{region_of};
ghost use Rattle.branching_law.specs.Rounding.{IsMarked, IsRounding};
ghost use Rattle.branching_law.specs.Found.{Convex, Reduced, IsReductionOf, IsIncumbent, IsFoundOf};
ghost use Rattle.branching_law.specs.Reached.{IsReachedPath, IsSpentSite, IsFirstSpentSite};
ghost use Rattle.branching_law.specs.Search.{IsSpentTree};
ghost use Rattle.branching_law.specs.Wholes.{AreBounded, choices};

/// Each program has a rounding. Where squares sum to Q, where the budget of strict steps is at least 2^(2n + m + 1) at each reached
/// path's region that isn't crossed, for the n columns and m equations of its form, and where, unless no column is marked or the root
/// is crossed, all marked columns have both bounds and the budget of branches is at least the number of choices of whole values
/// within them, a certificate is found within the budgets.
pub fn searches_find_a_certificate()
    ensures rounding { (p : Program) → (turns : List Turn) × IsRounding p turns }
    ensures found { (p : Program) (squares : List Square) (bases boxes : ℕ) → IsProgram p → AreSquaresOf p.pairs squares →
        ((path : List Turn) → IsReachedPath p bases path → (IsCrossedRegion (region_of p path) → ⊥) →
        2 ^ (width p (region_of p path) + width p (region_of p path) + length (form_of p (region_of p path)).matrix + 1) ≤ bases) →
        ((turns : List Turn) → IsRounding p turns → (IsCrossedRegion (region_of p turns) → ⊥) → IsMarked p →
        AreBounded p (bounds p) × (choices (marks p) (bounds p) ≤ boxes)) →
        (c : Certificate) × IsFoundOf p (Convex squares) bases boxes c }
{}

/// Under the same premises no budget is ever used up: at no reached site that of strict steps, and that of branches by no earned
/// tree.
pub fn large_budgets_are_never_used_up()
    ensures bases { (p : Program) (bases : ℕ) (path : List Turn) (site : RegionSite) → IsProgram p → IsSpentSite p bases path site →
        2 ^ (width p (region_of p path) + width p (region_of p path) + length (form_of p (region_of p path)).matrix + 1) ≤ bases → ⊥ }
    ensures boxes { (p : Program) (bases boxes : ℕ) → IsProgram p → IsSpentTree p bases boxes →
        ((turns : List Turn) → IsRounding p turns → (IsCrossedRegion (region_of p turns) → ⊥) → IsMarked p →
        AreBounded p (bounds p) × (choices (marks p) (bounds p) ≤ boxes)) → ⊥ }
{}

/// Where squares sum to Q, a search ends in one way, within its budgets: a certificate is found; or the budget of strict steps is used
/// up first at one site of one path; or there is an earned tree with a branch too many. So a certificate is found exactly where neither
/// budget is used up.
pub fn searches_end_in_one_way()
    ensures some { (p : Program) (squares : List Square) (bases boxes : ℕ) → IsProgram p → AreSquaresOf p.pairs squares →
        ((c : Certificate) × IsFoundOf p (Convex squares) bases boxes c)
        ⊎ ((path : List Turn) × (site : RegionSite) × IsFirstSpentSite p bases boxes path site) ⊎ IsSpentTree p bases boxes }
    ensures site { (p : Program) (bases boxes : ℕ) (path other : List Turn) (site place : RegionSite) → IsProgram p →
        IsFirstSpentSite p bases boxes path site → IsFirstSpentSite p bases boxes other place → (path ≡ other) × (site ≡ place) }
    ensures not_both { (p : Program) (bases boxes : ℕ) (path : List Turn) (site : RegionSite) → IsProgram p →
        IsFirstSpentSite p bases boxes path site → IsSpentTree p bases boxes → ⊥ }
    ensures found { (p : Program) (squares : List Square) (bases boxes : ℕ) → IsProgram p → AreSquaresOf p.pairs squares →
        ((c : Certificate) × IsFoundOf p (Convex squares) bases boxes c)
        ↔ (((path : List Turn) (site : RegionSite) → ¬ (IsFirstSpentSite p bases boxes path site)) × (¬ (IsSpentTree p bases boxes))) }
{}

/// Only one certificate is found of a program, whatever the budgets: its rounding, its tree, its incumbent, its point and its ray
/// are determined. Larger budgets keep it.
pub fn one_certificate_is_found()
    ensures certificate { (p : Program) (reduced : Reduced) (bases others boxes more : ℕ) (c d : Certificate) → IsProgram p →
        IsReductionOf p.pairs reduced → IsFoundOf p reduced bases boxes c → IsFoundOf p reduced others more d → c ≡ d }
    ensures more { (p : Program) (reduced : Reduced) (bases others boxes more : ℕ) (c : Certificate) → bases ≤ others →
        boxes ≤ more → IsFoundOf p reduced bases boxes c → IsFoundOf p reduced others more c }
    ensures incumbent { (p : Program) (points : List (List ℚ)) (one other : Option (List ℚ)) → IsIncumbent p points one →
        IsIncumbent p points other → one ≡ other }
{}
