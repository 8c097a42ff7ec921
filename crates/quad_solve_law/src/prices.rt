//! The price problem at a point of a form.

ghost use Rattle.std.specs.Prelude.{◌≤◌, ◌^◌, ◌↔◌, All, AllPairs, Some, ◌≡◌, ℕ, List, [], ◌∷◌, length};
ghost use Rattle.rational.specs.Rational.{ℚ, zero_ℚ, one_ℚ};
ghost use Rattle.rational.specs.Order.{◌<ℚ◌};
ghost use Rattle.rational.specs.Sums.{entry};
ghost use Rattle.rational.specs.Vectors.{IsSymmetric, IsSemidefinite};
ghost use Rattle.linear_basis_law.specs.Problem as linear;
ghost use Rattle.equational_law.specs.Form.{Form};
ghost use Rattle.equational_law.specs.Solutions.{IsForm, IsSolution, IsFormRay};
ghost use Rattle.equational_law.specs.Optimal.{IsOptimality};
ghost use Rattle.quad_solve_law.specs.Problems.{price_problem, direction, last_number, price_multipliers, parabola};
ghost use Rattle.face_descent_law.specs.Small.{HasMultipliers, IsStationary, height};
ghost use Rattle.face_descent_law.specs.Step.{moved};
ghost use Rattle.quad_solve_law.specs.Operations.{price_length};
ghost use Rattle.quad_solve_law.specs.Steps.{LeadsDown, IsPriceStep, HaveSameSupport, curvature};

/// A solution of the price problem at a point gives a direction that leads down from it, and each such direction comes
/// from a solution.
pub fn price_problem_leads_down()
    ensures problem { (n : ℕ) (f : Form) (z : List ℚ) → IsForm n f → linear.IsProblem (price_problem f z) }
    ensures direction { (n : ℕ) (f : Form) (z x : List ℚ) → IsForm n f → IsSolution f z → linear.IsSolution (price_problem f z) x →
        LeadsDown f z (direction f z x) }
    ensures every { (n : ℕ) (f : Form) (z d : List ℚ) → IsForm n f → IsSolution f z → LeadsDown f z d →
        (x : List ℚ) × linear.IsSolution (price_problem f z) x × (direction f z x ≡ d) }
{}

/// A price step goes some way, to a solution of the form with a lesser value. Where the form has no ray, a direction that
/// leads down without curvature lessens some entry; so there is a price step along each direction that leads down, and one
/// only.
pub fn price_step_falls()
    ensures goes { (n : ℕ) (f : Form) (z d : List ℚ) (s : ℚ) → IsForm n f → IsSemidefinite n f.quadratic → LeadsDown f z d →
        IsPriceStep f z d s → zero_ℚ <ℚ s }
    ensures solution { (n : ℕ) (f : Form) (z d : List ℚ) (s : ℚ) → IsForm n f → IsSemidefinite n f.quadratic → IsSolution f z →
        LeadsDown f z d → IsPriceStep f z d s → IsSolution f (moved z d s) }
    ensures falls { (n : ℕ) (f : Form) (z d : List ℚ) (s : ℚ) → IsForm n f → IsSemidefinite n f.quadratic → IsSolution f z →
        LeadsDown f z d → IsPriceStep f z d s → height f (moved z d s) <ℚ height f z }
    ensures lessens { (n : ℕ) (f : Form) (z d : List ℚ) → IsForm n f → IsSemidefinite n f.quadratic → IsSolution f z →
        LeadsDown f z d → curvature f d ≡ zero_ℚ → ¬ (IsFormRay f d) → (j : ℕ) × (entry d j <ℚ zero_ℚ) }
    ensures some { (n : ℕ) (f : Form) (z d : List ℚ) → IsForm n f → IsSemidefinite n f.quadratic → IsSolution f z →
        LeadsDown f z d → ¬ (IsFormRay f d) → (s : ℚ) × IsPriceStep f z d s }
    ensures one { (n : ℕ) (f : Form) (z d : List ℚ) (s t : ℚ) → IsForm n f → IsSemidefinite n f.quadratic → LeadsDown f z d →
        IsPriceStep f z d s → IsPriceStep f z d t → s ≡ t }
    ensures worked { LeadsDown parabola (zero_ℚ ∷ []) (one_ℚ ∷ []) × IsPriceStep parabola (zero_ℚ ∷ []) (one_ℚ ∷ []) one_ℚ }
{}

/// A price step goes as far as the calculation of its length says.
pub fn price_length_is_computed()
    ensures { (n : ℕ) (f : Form) (z d : List ℚ) (s : ℚ) → IsForm n f → IsSemidefinite n f.quadratic → IsSolution f z →
        LeadsDown f z d →
        IsPriceStep f z d s ↔ (price_length (curvature f d) z d ≡ Some s) }
{}

/// A Farkas vector of the price problem has a last entry below 0, and gives the multipliers that show the point optimal.
/// No price problem has both a solution and a Farkas vector; so where it has one, no direction leads down.
pub fn refuted_price_is_optimal()
    ensures below { (n : ℕ) (f : Form) (z w : List ℚ) → IsForm n f → linear.IsFarkas (price_problem f z) w →
        last_number f w <ℚ zero_ℚ }
    ensures optimal { (n : ℕ) (f : Form) (z w : List ℚ) → IsForm n f → linear.IsFarkas (price_problem f z) w →
        IsOptimality n f z (price_multipliers f w) }
    ensures stationary { (n : ℕ) (f : Form) (z w : List ℚ) → IsForm n f → linear.IsFarkas (price_problem f z) w →
        HasMultipliers n f z }
    ensures not_both { (n : ℕ) (f : Form) (z x w : List ℚ) → IsForm n f → linear.IsSolution (price_problem f z) x →
        linear.IsFarkas (price_problem f z) w → ⊥ }
    ensures none { (n : ℕ) (f : Form) (z d w : List ℚ) → IsForm n f → IsSolution f z → linear.IsFarkas (price_problem f z) w →
        LeadsDown f z d → ⊥ }
{}

/// Two stationary solutions with the same support have the same value; so where the values differ, the supports do.
pub fn supports_of_stationary_points_differ()
    ensures value { (n : ℕ) (f : Form) (z w : List ℚ) → IsForm n f → IsSymmetric n f.quadratic → IsSolution f z → IsSolution f w →
        HaveSameSupport z w → IsStationary f z → IsStationary f w → height f z ≡ height f w }
    ensures differ { (n : ℕ) (f : Form) (z w : List ℚ) → IsForm n f → IsSymmetric n f.quadratic → IsSolution f z → IsSolution f w →
        IsStationary f z → IsStationary f w → height f w <ℚ height f z → ¬ (HaveSameSupport z w) }
{}

/// Stationary solutions whose values rise along a list are at most as many as there are sets of columns.
pub fn stationary_points_are_few()
    ensures few { (n : ℕ) (f : Form) (points : List (List ℚ)) → IsForm n f → IsSymmetric n f.quadratic → All (IsSolution f) points →
        All (IsStationary f) points → AllPairs (λ z w. height f z <ℚ height f w) points → length points ≤ 2 ^ n }
{}
