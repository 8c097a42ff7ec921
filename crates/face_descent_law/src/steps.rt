//! The laws of a shrink step.

ghost use Rattle.std.specs.Prelude.{◌≡◌, ◌<◌, ◌≤◌, ◌↔◌, ℕ, All, List, [], Option, Some, None, length};
ghost use Rattle.rational.specs.Rational.{ℚ, one_ℚ, zero_ℚ, neg_ℚ, ◌+ℚ◌, ◌*ℚ◌};
ghost use Rattle.rational.specs.Order.{◌<ℚ◌, ◌≤ℚ◌};
ghost use Rattle.rational.specs.Sums.{entry};
ghost use Rattle.rational.specs.Vectors.{IsSemidefinite, dot, rows_dot, zeros};
ghost use Rattle.elimination_law.specs.Answers.{Refutation, Solution};
ghost use Rattle.equational_law.specs.Form.{Form};
ghost use Rattle.equational_law.specs.Solutions.{IsForm, IsFormRay, IsNotNegative, IsSolution};
ghost use Rattle.face_descent_law.specs.Small.{IsStationary, height, slope, small_answer, support};
ghost use Rattle.face_descent_law.specs.Step.{IsCapped, IsNearest, IsShrinkStep, IsTurned, IsWithin, moved, on_support};
ghost use Rattle.face_descent_law.specs.Operations.{nearer, nearest_zero, shrink_ops, turned};

/// Along the direction of a solution the equations hold, the slope is minus the form, and the value does
/// not rise as far as 1; the point at 1 is stationary.
pub fn full_step_is_stationary()
    ensures equations { (n : ℕ) (f : Form) (z x : List ℚ) → IsForm n f → IsSemidefinite n f.quadratic → length z ≡ n →
        small_answer f z ≡ Solution x → rows_dot f.matrix (on_support n z x) ≡ zeros (length f.matrix) }
    ensures slope { (n : ℕ) (f : Form) (z x : List ℚ) → IsForm n f → IsSemidefinite n f.quadratic → length z ≡ n →
        small_answer f z ≡ Solution x →
        dot (on_support n z x) (rows_dot f.quadratic (on_support n z x)) ≡ neg_ℚ (dot (slope f z) (on_support n z x)) }
    ensures value { (n : ℕ) (f : Form) (z x : List ℚ) (s : ℚ) → IsForm n f → IsSemidefinite n f.quadratic → length z ≡ n →
        small_answer f z ≡ Solution x → zero_ℚ ≤ℚ s → s ≤ℚ one_ℚ → height f (moved z (on_support n z x) s) ≤ℚ height f z }
    ensures stationary { (n : ℕ) (f : Form) (z x : List ℚ) → IsForm n f → IsSemidefinite n f.quadratic → length z ≡ n →
        small_answer f z ≡ Solution x → IsStationary f (moved z (on_support n z x) one_ℚ) }
{}

/// Along the direction of a refutation, turned as its number says, the equations hold, Q gives 0, and the
/// slope is below 0: so the value falls. Where the form has no ray some entry falls to 0 on the way.
pub fn refuted_step_falls()
    ensures equations { (n : ℕ) (f : Form) (z w d : List ℚ) (v : ℚ) → IsForm n f → IsSemidefinite n f.quadratic → length z ≡ n →
        small_answer f z ≡ Refutation w v → IsTurned v (on_support n z w) d → rows_dot f.matrix d ≡ zeros (length f.matrix) }
    ensures flat { (n : ℕ) (f : Form) (z w d : List ℚ) (v : ℚ) → IsForm n f → IsSemidefinite n f.quadratic → length z ≡ n →
        small_answer f z ≡ Refutation w v → IsTurned v (on_support n z w) d → rows_dot f.quadratic d ≡ zeros n }
    ensures slope { (n : ℕ) (f : Form) (z w d : List ℚ) (v : ℚ) → IsForm n f → IsSemidefinite n f.quadratic → length z ≡ n →
        small_answer f z ≡ Refutation w v → IsTurned v (on_support n z w) d → dot (slope f z) d <ℚ zero_ℚ }
    ensures value { (n : ℕ) (f : Form) (z w d : List ℚ) (v s : ℚ) → IsForm n f → IsSemidefinite n f.quadratic → length z ≡ n →
        small_answer f z ≡ Refutation w v → IsTurned v (on_support n z w) d →
        height f (moved z d s) ≡ height f z +ℚ s *ℚ dot (slope f z) d }
    ensures falls { (n : ℕ) (f : Form) (z w d : List ℚ) (v s : ℚ) → IsForm n f → IsSemidefinite n f.quadratic → length z ≡ n →
        small_answer f z ≡ Refutation w v → IsTurned v (on_support n z w) d → zero_ℚ <ℚ s → height f (moved z d s) <ℚ height f z }
    ensures zero { (n : ℕ) (f : Form) (z w d : List ℚ) (v : ℚ) → IsForm n f → IsSemidefinite n f.quadratic → length z ≡ n →
        small_answer f z ≡ Refutation w v → IsTurned v (on_support n z w) d → ((r : List ℚ) → ¬ (IsFormRay f r)) →
        (s : ℚ) × IsNearest z d s }
{}

/// A move as far as the nearest zero, or less, keeps a solution a solution, and its zero is reached. There
/// is a nearest zero where some entry of the direction is below 0. Along a direction that is 0 off the
/// support no place comes in, and one is lost at the nearest zero, which is above 0.
pub fn moves_keep_solutions()
    ensures solution { (n : ℕ) (f : Form) (z d : List ℚ) (s : ℚ) → IsForm n f → IsSolution f z → length d ≡ n →
        rows_dot f.matrix d ≡ zeros (length f.matrix) → zero_ℚ ≤ℚ s → IsWithin z d s → IsSolution f (moved z d s) }
    ensures reached { (n : ℕ) (z d : List ℚ) (s : ℚ) → length z ≡ n → length d ≡ n → (h : IsNearest z d s) →
        entry (moved z d s) h.place ≡ zero_ℚ }
    ensures nearest { (z d : List ℚ) (j : ℕ) → entry d j <ℚ zero_ℚ → (s : ℚ) × IsNearest z d s }
    ensures capped { (z d : List ℚ) → (s : ℚ) × IsCapped z d s }
    ensures positive { (z d : List ℚ) (s : ℚ) → All IsNotNegative z → ((j : ℕ) → entry z j ≡ zero_ℚ → entry d j ≡ zero_ℚ) →
        IsNearest z d s → zero_ℚ <ℚ s }
    ensures support { (n : ℕ) (z d : List ℚ) (s : ℚ) → length z ≡ n → length d ≡ n →
        ((j : ℕ) → entry z j ≡ zero_ℚ → entry d j ≡ zero_ℚ) → length (support (moved z d s)) ≤ length (support z) }
    ensures lost { (n : ℕ) (z d : List ℚ) (s : ℚ) → length z ≡ n → length d ≡ n →
        ((j : ℕ) → entry z j ≡ zero_ℚ → entry d j ≡ zero_ℚ) → IsNearest z d s →
        length (support (moved z d s)) < length (support z) }
{}

/// A point has at most one shrink step. The nearest zero, and the smaller of it and 1, are what the calculation of the face
/// computes, and so is the direction of a refutation; at a stationary point it moves by no operation.
pub fn shrink_steps_are_determined()
    ensures one { (n : ℕ) (f : Form) (z one other : List ℚ) → IsShrinkStep n f z one → IsShrinkStep n f z other → one ≡ other }
    ensures nearest { (z d : List ℚ) (s : ℚ) → length z ≡ length d → IsNearest z d s ↔ (nearest_zero z d ≡ Some s) }
    ensures none { (z d : List ℚ) → length z ≡ length d → nearest_zero z d ≡ None → (j : ℕ) → ¬ (entry d j <ℚ zero_ℚ) }
    ensures capped { (z d : List ℚ) (s : ℚ) → length z ≡ length d → IsCapped z d s ↔ (s ≡ nearer one_ℚ (nearest_zero z d)) }
    ensures direction { (v : ℚ) (part d : List ℚ) → IsTurned v part d → d ≡ turned v part }
    ensures still { (n : ℕ) (f : Form) (z : List ℚ) → IsStationary f z → shrink_ops n z (small_answer f z) ≡ [] }
{}
