//! The feasible problem and the ray problem of a form, and how long the chains of its problems are.

ghost use Rattle.std.specs.Prelude.{◌≡◌, ◌+◌, ◌≤◌, ◌^◌, ◌↔◌, ℕ, ℤ, List, [], ◌∷◌, length};
ghost use Rattle.rational.specs.Rational.{ℚ, one_ℚ};
ghost use Rattle.linear_basis_law.specs.Problem as linear;
ghost use Rattle.program_law.specs.Region.{Region, left_of, right_of};
ghost use Rattle.program_law.specs.Program.{Program, IsProgram};
ghost use Rattle.equational_law.specs.Form.{Form, form_of};
ghost use Rattle.equational_law.specs.Solutions.{IsForm, IsSolution, IsFormRay, IsRegionRay, HasItsBounds};
ghost use Rattle.equational_law.specs.Optimal.{IsRefutation};
ghost use Rattle.linear_basis_law.specs.Basis.{Tableau};
ghost use Rattle.linear_simplex_law.specs.Chain.{IsChain, IsSpent};
ghost use Rattle.quad_solve_law.specs.Problems.{feasible_problem, ray_problem, price_problem, falling_form};

/// The solutions of the feasible problem are those of the form, and its Farkas vectors are the refutations of the form; a form
/// never has both.
pub fn feasible_problem_tells_solutions()
    ensures problem { (n : ℕ) (f : Form) → IsForm n f → linear.IsProblem (feasible_problem f) }
    ensures solution { (f : Form) (z : List ℚ) → linear.IsSolution (feasible_problem f) z ↔ IsSolution f z }
    ensures refutation { (n : ℕ) (f : Form) (y : List ℚ) → IsForm n f →
        linear.IsFarkas (feasible_problem f) y ↔ IsRefutation n f y }
    ensures not_both { (n : ℕ) (f : Form) (z y : List ℚ) → IsForm n f → IsSolution f z → IsRefutation n f y → ⊥ }
{}

/// The solutions of the ray problem are the rays of the form, and a Farkas vector shows that there is none.
pub fn ray_problem_tells_rays()
    ensures problem { (n : ℕ) (f : Form) → IsForm n f → linear.IsProblem (ray_problem f) }
    ensures ray { (f : Form) (d : List ℚ) → linear.IsSolution (ray_problem f) d → IsFormRay f d }
    ensures every { (f : Form) (d : List ℚ) → IsFormRay f d → linear.IsSolution (ray_problem f) d }
    ensures none { (n : ℕ) (f : Form) (d y : List ℚ) → IsForm n f → linear.IsFarkas (ray_problem f) y → IsFormRay f d → ⊥ }
    ensures worked { linear.IsSolution (ray_problem falling_form) (one_ℚ ∷ []) }
{}

/// Whether the form of a region has a ray depends only on which bounds the region has, and not on their numbers. So where a
/// region's form has none, neither has that of a region with all its bounds; and the halves of a region have them.
pub fn rays_depend_on_which_bounds_exist()
    ensures none { (p : Program) (region other : Region) → IsProgram p → length region ≡ length p.columns →
        length other ≡ length p.columns →
        HasItsBounds region other → ((d : List ℚ) → ¬ (IsFormRay (form_of p region) d)) → (d : List ℚ) → ¬ (IsFormRay (form_of p other) d) }
    ensures same { (p : Program) (region other : Region) (d : List ℚ) → HasItsBounds region other → HasItsBounds other region →
        IsRegionRay p region d ↔ IsRegionRay p other d }
    ensures left { (region : Region) (j : ℕ) (k : ℤ) → HasItsBounds region (left_of region j k) }
    ensures right { (region : Region) (j : ℕ) (k : ℤ) → HasItsBounds region (right_of region j k) }
{}

/// How many columns and equations each problem of a form has, and so how many bases its chains have at most.
pub fn chains_of_a_form_are_short()
    ensures feasible_columns { (n : ℕ) (f : Form) → IsForm n f → linear.width (feasible_problem f) ≡ n + length f.matrix }
    ensures ray_columns { (n : ℕ) (f : Form) → IsForm n f →
        ((ray_problem f).given ≡ n) × (linear.height (ray_problem f) ≡ length f.matrix + n + 1) }
    ensures price_columns { (n : ℕ) (f : Form) (z : List ℚ) → IsForm n f → IsSolution f z →
        ((price_problem f z).given ≤ n + n) × (linear.height (price_problem f z) ≡ length f.matrix + 1) }
    ensures feasible { (n : ℕ) (f : Form) (chain : List Tableau) → IsForm n f → IsChain (feasible_problem f) chain →
        length chain ≤ 2 ^ (n + n + length f.matrix + 1) }
    ensures ray { (n : ℕ) (f : Form) (chain : List Tableau) → IsForm n f → IsChain (ray_problem f) chain →
        length chain ≤ 2 ^ (n + n + length f.matrix + 1) }
    ensures price { (n : ℕ) (f : Form) (z : List ℚ) (chain : List Tableau) → IsForm n f → IsSolution f z →
        IsChain (price_problem f z) chain →
        length chain ≤ 2 ^ (n + n + length f.matrix + 1) }
    ensures feasible_budget { (n : ℕ) (f : Form) (budget : ℕ) (b : Tableau) → IsForm n f → IsSpent (feasible_problem f) budget b →
        budget + 2 ≤ 2 ^ (n + n + length f.matrix + 1) }
    ensures ray_budget { (n : ℕ) (f : Form) (budget : ℕ) (b : Tableau) → IsForm n f → IsSpent (ray_problem f) budget b →
        budget + 2 ≤ 2 ^ (n + n + length f.matrix + 1) }
    ensures price_budget { (n : ℕ) (f : Form) (z : List ℚ) (budget : ℕ) (b : Tableau) → IsForm n f → IsSolution f z →
        IsSpent (price_problem f z) budget b → budget + 2 ≤ 2 ^ (n + n + length f.matrix + 1) }
{}
