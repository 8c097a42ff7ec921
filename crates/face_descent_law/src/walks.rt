//! The laws of lists of shrink steps.

ghost use Rattle.std.specs.Prelude.{◌≡◌, ◌<◌, ◌≤◌, ◌+◌, ◌⊎◌, ℕ, List, [], ◌∷◌, length};
ghost use Rattle.rational.specs.Rational.{ℚ, one_ℚ, zero_ℚ};
ghost use Rattle.rational.specs.Order.{◌<ℚ◌, ◌≤ℚ◌};
ghost use Rattle.rational.specs.Sums.{entry};
ghost use Rattle.rational.specs.Vectors.{IsSemidefinite};
ghost use Rattle.equational_law.specs.Form.{Form};
ghost use Rattle.equational_law.specs.Solutions.{IsForm, IsFormRay, IsSolution};
ghost use Rattle.face_descent_law.specs.Small.{IsStationary, height, support};
ghost use Rattle.face_descent_law.specs.Step.{AreShrinkSteps, IsRefutedStep, IsShrinkStep, IsSolvedStep, newest_point, measure};
ghost use Rattle.face_descent_law.specs.Worked.{n, valley_form};

/// A shrink step goes from a solution to a solution, with a value and a support not above those before it.
/// A full step of a solution is stationary at once; one cut short loses a place of the support, and so does
/// a refuted one, whose value falls. So the measure falls at each. A stationary point has no step; each other has one, where the form has no ray.
pub fn shrink_steps_fall()
    ensures solution { (n : ℕ) (f : Form) (z next : List ℚ) → IsForm n f → IsSemidefinite n f.quadratic → IsSolution f z →
        IsShrinkStep n f z next → IsSolution f next }
    ensures value { (n : ℕ) (f : Form) (z next : List ℚ) → IsForm n f → IsSemidefinite n f.quadratic → IsSolution f z →
        IsShrinkStep n f z next → height f next ≤ℚ height f z }
    ensures support { (n : ℕ) (f : Form) (z next : List ℚ) → IsForm n f → IsSemidefinite n f.quadratic → IsSolution f z →
        IsShrinkStep n f z next → (j : ℕ) → entry z j ≡ zero_ℚ → entry next j ≡ zero_ℚ }
    ensures full { (n : ℕ) (f : Form) (z next : List ℚ) → IsForm n f → IsSemidefinite n f.quadratic → IsSolution f z →
        (h : IsSolvedStep n f z next) → h.step ≡ one_ℚ → IsStationary f next }
    ensures short { (n : ℕ) (f : Form) (z next : List ℚ) → IsForm n f → IsSemidefinite n f.quadratic → IsSolution f z →
        (h : IsSolvedStep n f z next) → ¬ (h.step ≡ one_ℚ) → length (support next) < length (support z) }
    ensures refuted { (n : ℕ) (f : Form) (z next : List ℚ) → IsForm n f → IsSemidefinite n f.quadratic → IsSolution f z →
        IsRefutedStep n f z next → length (support next) < length (support z) }
    ensures falls { (n : ℕ) (f : Form) (z next : List ℚ) → IsForm n f → IsSemidefinite n f.quadratic → IsSolution f z →
        IsRefutedStep n f z next → height f next <ℚ height f z }
    ensures measure { (n : ℕ) (f : Form) (z next : List ℚ) → IsForm n f → IsSemidefinite n f.quadratic → IsSolution f z →
        IsShrinkStep n f z next → measure f next < measure f z }
    ensures stationary { (n : ℕ) (f : Form) (z next : List ℚ) → IsForm n f → IsSemidefinite n f.quadratic → IsSolution f z →
        IsStationary f z → IsShrinkStep n f z next → ⊥ }
    ensures some { (n : ℕ) (f : Form) (z : List ℚ) → IsForm n f → IsSemidefinite n f.quadratic → IsSolution f z →
        ((r : List ℚ) → ¬ (IsFormRay f r)) → IsStationary f z ⊎ ((next : List ℚ) × IsShrinkStep n f z next) }
{}

/// A list of shrink steps from a solution ends at a solution, with a value and a support not above those at
/// its start, and has no more steps than the support there has places. Where the form has no ray, some list
/// ends at a stationary point. A worked one: (x + y - 2)^2 shrinks from (1, 0) to (2, 0), on the first column alone.
pub fn shrink_steps_end()
    ensures solution { (n : ℕ) (f : Form) (z : List ℚ) (points : List (List ℚ)) → IsForm n f → IsSemidefinite n f.quadratic →
        IsSolution f z → AreShrinkSteps n f z points → IsSolution f (newest_point z points) }
    ensures value { (n : ℕ) (f : Form) (z : List ℚ) (points : List (List ℚ)) → IsForm n f → IsSemidefinite n f.quadratic →
        IsSolution f z → AreShrinkSteps n f z points → height f (newest_point z points) ≤ℚ height f z }
    ensures support { (n : ℕ) (f : Form) (z : List ℚ) (points : List (List ℚ)) → IsForm n f → IsSemidefinite n f.quadratic →
        IsSolution f z → AreShrinkSteps n f z points → (j : ℕ) → entry z j ≡ zero_ℚ → entry (newest_point z points) j ≡ zero_ℚ }
    ensures bounded { (n : ℕ) (f : Form) (z : List ℚ) (points : List (List ℚ)) → IsForm n f → IsSemidefinite n f.quadratic →
        IsSolution f z → AreShrinkSteps n f z points → measure f (newest_point z points) + length points ≤ measure f z }
    ensures few { (n : ℕ) (f : Form) (z : List ℚ) (points : List (List ℚ)) → IsForm n f → IsSemidefinite n f.quadratic →
        IsSolution f z → AreShrinkSteps n f z points → length points ≤ length (support z) }
    ensures ends { (n : ℕ) (f : Form) (z : List ℚ) → IsForm n f → IsSemidefinite n f.quadratic → IsSolution f z →
        ((r : List ℚ) → ¬ (IsFormRay f r)) →
        (points : List (List ℚ)) × AreShrinkSteps n f z points × IsStationary f (newest_point z points) }
    ensures worked { AreShrinkSteps 2 valley_form (n 1 ∷ n 0 ∷ []) ((n 2 ∷ n 0 ∷ []) ∷ []) × IsStationary valley_form (n 2 ∷ n 0 ∷ []) }
{}
