//! What a search's root says of all its nodes, and budgets that are never used up.

ghost use Rattle.std.specs.Prelude.{◌≡◌, ◌+◌, ◌*◌, ◌≤◌, ◌^◌, ℕ, List, [], ◌∷◌, ◌++◌, length, Contains};
ghost use Rattle.rational.specs.Rational.{ℚ};
ghost use Rattle.rational.specs.Vectors.{IsSemidefinite};
ghost use Rattle.program_law.specs.Program.{Program, IsProgram, bounds};
ghost use Rattle.program_law.specs.Columns.{IsRelaxedPoint};
ghost use Rattle.certificate_law.specs.declared.Node.{Node};
ghost use Rattle.certificate_law.specs.Ray.{IsRay};
ghost use Rattle.equational_law.specs.Form.{width, form_of};
ghost use Rattle.equational_law.specs.Solutions.{HasItsBounds};
ghost use Rattle.quad_solve_law.specs.Answer.{IsFalling};
ghost use Rattle.quad_solve_law.specs.Sites.{RegionSite, HasNoRay};
ghost use Rattle.branching_law.specs.declared.Turn.{Turn};
ghost use Rattle.branching_law.specs.Paths.{region_of};
ghost use Rattle.branching_law.specs.Rounding.{IsMarked, AreRoundingTurns};
ghost use Rattle.branching_law.specs.Nodes.{Search, ForBest, ForPoint};
ghost use Rattle.branching_law.specs.Search.{IsEarned};
ghost use Rattle.branching_law.specs.Reached.{IsSpentSite};

/// A search for a point has a marked column, and its root a point, and the program a ray. The root of a search for the best that
/// takes any node has no point, or the program has no ray. Rounding moves bounds, and adds none.
pub fn search_is_told_by_its_root()
    ensures point { (p : Program) (bases : ℕ) (turns : List Turn) (nodes : List Node) (open_paths : List (List Turn)) → IsProgram p →
        IsEarned ForPoint p bases turns nodes open_paths →
        IsMarked p × ((x : List ℚ) × IsRelaxedPoint p (region_of p turns) x) × ((d : List ℚ) × IsRay p d) }
    ensures best { (p : Program) (bases : ℕ) (turns : List Turn) (n : Node) (nodes : List Node) (open_paths : List (List Turn))
        (x d : List ℚ) → IsProgram p → IsEarned ForBest p bases turns (n ∷ nodes) open_paths →
        IsRelaxedPoint p (region_of p turns) x → IsRay p d → ⊥ }
    ensures bounds { (p : Program) (turns : List Turn) → AreRoundingTurns p (bounds p) turns →
        HasItsBounds (region_of p turns) (bounds p) }
{}

/// Each open path of an earned tree goes on from the root. Where the root's form has no ray, no form of a path from there has one;
/// so below its root a search for the best meets no answer that is a ray.
pub fn no_ray_below_a_root_without()
    ensures begins { (aim : Search) (p : Program) (bases : ℕ) (turns : List Turn) (nodes : List Node) (open_paths : List (List Turn))
        (path : List Turn) → IsEarned aim p bases turns nodes open_paths → Contains open_paths path →
        (more : List Turn) × (path ≡ turns ++ more) }
    ensures forms { (p : Program) (turns more : List Turn) → IsProgram p → HasNoRay (form_of p (region_of p turns)) →
        HasNoRay (form_of p (region_of p (turns ++ more))) }
    ensures nodes { (p : Program) (bases : ℕ) (turns path : List Turn) (rest : List (List Turn)) (n : Node) (nodes : List Node) →
        IsProgram p → IsEarned ForBest p bases turns (n ∷ nodes) (path ∷ rest) → HasNoRay (form_of p (region_of p path)) }
    ensures answers { (p : Program) (bases : ℕ) (path : List Turn) (x d : List ℚ) → IsProgram p →
        HasNoRay (form_of p (region_of p path)) → IsFalling p (region_of p path) bases x d → ⊥ }
{}

/// A budget of strict steps can be used up at a reached site only where it is at least two less than 2^(2n + m + 1), for the n
/// columns and m equations of the form there. With C columns and R rows in the program these are at most 2C + 2R and C + 2R; so a
/// budget of 2^(5C + 6R + 1) is always enough.
pub fn large_budgets_are_enough()
    ensures site { (p : Program) (bases : ℕ) (path : List Turn) (site : RegionSite) → IsProgram p → IsSpentSite p bases path site →
        bases + 2 ≤ 2 ^ (width p (region_of p path) + width p (region_of p path) + length (form_of p (region_of p path)).matrix + 1) }
    ensures columns { (p : Program) (path : List Turn) →
        width p (region_of p path) ≤ length p.columns + length p.columns + (length p.rows + length p.rows) }
    ensures equations { (p : Program) (path : List Turn) →
        length (form_of p (region_of p path)).matrix ≤ length p.columns + (length p.rows + length p.rows) }
    ensures always { (p : Program) (path : List Turn) →
        2 ^ (width p (region_of p path) + width p (region_of p path) + length (form_of p (region_of p path)).matrix + 1)
        ≤ 2 ^ (5 * length p.columns + 6 * length p.rows + 1) }
{}
