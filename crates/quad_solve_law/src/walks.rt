//! Walks on a form.

ghost use Rattle.std.specs.Prelude.{◌≡◌, ◌<◌, ◌≤◌, ◌+◌, ◌*◌, ◌^◌, ◌⊎◌, ℕ, All, AllPairs, List, [], ◌∷◌, length};
ghost use Rattle.rational.specs.Rational.{ℚ};
ghost use Rattle.rational.specs.Order.{◌<ℚ◌, ◌≤ℚ◌};
ghost use Rattle.rational.specs.Vectors.{IsSemidefinite};
ghost use Rattle.equational_law.specs.Form.{Form};
ghost use Rattle.equational_law.specs.Solutions.{IsForm, IsSolution, IsFormRay};
ghost use Rattle.face_descent_law.specs.Small.{IsStationary, height};
ghost use Rattle.face_descent_law.specs.Step.{AreShrinkSteps, newest_point};
ghost use Rattle.quad_solve_law.specs.Problems.{feasible_problem, price_problem};
ghost use Rattle.quad_solve_law.specs.Steps.{HaveSameSupport};
ghost use Rattle.quad_solve_law.specs.Walk.{HasPricesWithin, IsDecidedWithin, Visit, Way, Start, GoesOn, IsOnWalk, IsRefuted, IsSolved, IsSpentWalk, IsWalk, IsWalkFrom, last_shrinks, price_steps, with_shrinks};

/// A walk starts where a chain of the feasible problem ends, at a solution. Each step from its newest point makes a walk
/// again, and so does a list of shrink steps. Each of its points is the newest of a walk; what a step or a list of shrink steps
/// reaches from such a point is one, too. Where the form has no ray, a point that isn't stationary is left by some step, and so
/// is a stationary one, unless its price problem is refuted.
pub fn walks_go_on()
    ensures starts { (n : ℕ) (f : Form) (z : List ℚ) → IsSolved (feasible_problem f) z →
        IsWalk n f (record { point = z; way = Start } ∷ []) }
    ensures solution { (n : ℕ) (f : Form) (z : List ℚ) → IsForm n f → IsSolved (feasible_problem f) z → IsSolution f z }
    ensures step { (n : ℕ) (f : Form) (x : List ℚ) (v : Visit) (earlier : List Visit) (way : Way) (next : List ℚ) → IsForm n f →
        IsSemidefinite n f.quadratic → IsSolution f x → IsWalkFrom n f x (v ∷ earlier) → GoesOn n f way v.point next →
        IsWalkFrom n f x (record { point = next; way = way } ∷ v ∷ earlier) }
    ensures shrinks { (n : ℕ) (f : Form) (x : List ℚ) (v : Visit) (earlier : List Visit) (points : List (List ℚ)) → IsForm n f →
        IsSemidefinite n f.quadratic → IsSolution f x → IsWalkFrom n f x (v ∷ earlier) → AreShrinkSteps n f v.point points →
        IsWalkFrom n f x (with_shrinks points (v ∷ earlier)) }
    ensures points { (n : ℕ) (f : Form) (walk : List Visit) → IsWalk n f walk → All (λ v. IsOnWalk n f v.point) walk }
    ensures reached { (n : ℕ) (f : Form) (way : Way) (z next : List ℚ) → IsForm n f → IsSemidefinite n f.quadratic →
        IsOnWalk n f z →
        GoesOn n f way z next → IsOnWalk n f next }
    ensures shrunk { (n : ℕ) (f : Form) (z : List ℚ) (points : List (List ℚ)) → IsForm n f → IsSemidefinite n f.quadratic →
        IsOnWalk n f z → AreShrinkSteps n f z points → IsOnWalk n f (newest_point z points) }
    ensures some { (n : ℕ) (f : Form) (z : List ℚ) → IsForm n f → IsSemidefinite n f.quadratic → IsSolution f z →
        ((r : List ℚ) → ¬ (IsFormRay f r)) →
        (IsStationary f z × (y : List ℚ) × IsRefuted (price_problem f z) y) ⊎ ((way : Way) × (next : List ℚ) × GoesOn n f way z next) }
{}

/// The points of a walk from a solution are solutions, and their values never rise. Each is below all earlier stationary
/// points, so the values at stationary points fall strictly, and the supports of any two of them differ as sets.
pub fn walk_values_fall()
    ensures solutions { (n : ℕ) (f : Form) (x : List ℚ) (walk : List Visit) → IsForm n f → IsSemidefinite n f.quadratic →
        IsSolution f x →
        IsWalkFrom n f x walk → All (λ v. IsSolution f v.point) walk }
    ensures values { (n : ℕ) (f : Form) (x : List ℚ) (walk : List Visit) → IsForm n f → IsSemidefinite n f.quadratic →
        IsSolution f x →
        IsWalkFrom n f x walk → AllPairs (λ v u. height f v.point ≤ℚ height f u.point) walk }
    ensures stationary { (n : ℕ) (f : Form) (x : List ℚ) (walk : List Visit) → IsForm n f → IsSemidefinite n f.quadratic →
        IsSolution f x →
        IsWalkFrom n f x walk → AllPairs (λ v u. IsStationary f u.point → height f v.point <ℚ height f u.point) walk }
    ensures supports { (n : ℕ) (f : Form) (x : List ℚ) (walk : List Visit) → IsForm n f → IsSemidefinite n f.quadratic →
        IsSolution f x →
        IsWalkFrom n f x walk →
        AllPairs (λ v u. IsStationary f v.point → IsStationary f u.point → ¬ (HaveSameSupport v.point u.point)) walk }
{}

/// A walk over n columns has fewer price steps than there are sets of columns, and at most n shrink steps between one price
/// step and the next; so its points are few, too. A budget of price steps can be used up only where it is at least two less
/// than the number of sets.
pub fn walks_are_short()
    ensures prices { (n : ℕ) (f : Form) (x : List ℚ) (walk : List Visit) → IsForm n f → IsSemidefinite n f.quadratic →
        IsSolution f x →
        IsWalkFrom n f x walk → price_steps walk < 2 ^ n }
    ensures shrinks { (n : ℕ) (f : Form) (x : List ℚ) (walk : List Visit) → IsForm n f → IsSemidefinite n f.quadratic →
        IsSolution f x →
        IsWalkFrom n f x walk → last_shrinks walk ≤ n }
    ensures points { (n : ℕ) (f : Form) (x : List ℚ) (walk : List Visit) → IsForm n f → IsSemidefinite n f.quadratic →
        IsSolution f x →
        IsWalkFrom n f x walk → length walk ≤ 2 ^ n * (n + 1) }
    ensures budget { (n : ℕ) (f : Form) (budget : ℕ) (z : List ℚ) → IsForm n f → IsSemidefinite n f.quadratic →
        IsSpentWalk n f budget z →
        budget + 2 ≤ 2 ^ n }
{}

/// Where the form has no ray, some walk from a solution ends at a stationary point whose price problem is refuted.
pub fn walks_end()
    ensures { (n : ℕ) (f : Form) (x : List ℚ) → IsForm n f → IsSemidefinite n f.quadratic → IsSolution f x →
        ((r : List ℚ) → ¬ (IsFormRay f r)) →
        (v : Visit) × (earlier : List Visit) × IsWalkFrom n f x (v ∷ earlier) × IsStationary f v.point
        × (y : List ℚ) × IsRefuted (price_problem f v.point) y }
{}

/// Shrink steps are no price steps. On the way they pass no stationary point, so after them the price chains of the walk end
/// within the budget where that of its newest point does.
pub fn shrink_steps_keep_the_budget()
    ensures count { (points : List (List ℚ)) (walk : List Visit) → price_steps (with_shrinks points walk) ≡ price_steps walk }
    ensures prices { (n : ℕ) (f : Form) (budget : ℕ) (v : Visit) (earlier : List Visit) (points : List (List ℚ)) → IsForm n f →
        IsSemidefinite n f.quadratic → IsSolution f v.point → HasPricesWithin f budget (v ∷ earlier) →
        AreShrinkSteps n f v.point points →
        (IsStationary f (newest_point v.point points) → IsDecidedWithin (price_problem f (newest_point v.point points)) budget) →
        HasPricesWithin f budget (with_shrinks points (v ∷ earlier)) }
{}
