//! The laws of the small system.

ghost use Rattle.std.specs.Prelude.{◌≡◌, ◌<◌, ◌↔◌, ◌++◌, ℕ, All, List, length};
ghost use Rattle.rational.specs.Rational.{ℚ};
ghost use Rattle.rational.specs.Vectors.{IsSemidefinite, IsSymmetric, add_each, combine, dot, pick, put_at, rows_dot, zeros};
ghost use Rattle.equational_law.specs.Form.{Form};
ghost use Rattle.equational_law.specs.Solutions.{IsForm};
ghost use Rattle.face_descent_law.specs.Small.{HasMultipliers, IsStationary, small_rows, small_width};

/// The small system of a support is symmetric. With d the direction of e, which is 0 off the support, it
/// says `(Q d)_i + (multipliers M)_i = a_i` on the support and `M d = 0`; and then `d · Q d` is `a · e`.
pub fn small_system_says_what_a_step_keeps()
    ensures symmetric { (n : ℕ) (f : Form) (S : List ℕ) → IsForm n f → IsSymmetric n f.quadratic → All (λ k. k < n) S →
        IsSymmetric (small_width f S) (small_rows f S) }
    ensures product { (n : ℕ) (f : Form) (S : List ℕ) (e l : List ℚ) → IsForm n f → All (λ k. k < n) S → length e ≡ length S →
        rows_dot (small_rows f S) (e ++ l) ≡ pick S (add_each (rows_dot f.quadratic (put_at n S e)) (combine n l f.matrix)) ++ rows_dot f.matrix (put_at n S e) }
    ensures places { (n : ℕ) (f : Form) (S : List ℕ) (e l a : List ℚ) → IsForm n f → All (λ k. k < n) S → length e ≡ length S →
        length a ≡ length S → rows_dot (small_rows f S) (e ++ l) ≡ a ++ zeros (length f.matrix) →
        pick S (add_each (rows_dot f.quadratic (put_at n S e)) (combine n l f.matrix)) ≡ a }
    ensures equations { (n : ℕ) (f : Form) (S : List ℕ) (e l a : List ℚ) → IsForm n f → All (λ k. k < n) S → length e ≡ length S →
        length a ≡ length S → rows_dot (small_rows f S) (e ++ l) ≡ a ++ zeros (length f.matrix) →
        rows_dot f.matrix (put_at n S e) ≡ zeros (length f.matrix) }
    ensures form { (n : ℕ) (f : Form) (S : List ℕ) (e l a : List ℚ) → IsForm n f → All (λ k. k < n) S → length e ≡ length S →
        length a ≡ length S → rows_dot (small_rows f S) (e ++ l) ≡ a ++ zeros (length f.matrix) →
        dot (put_at n S e) (rows_dot f.quadratic (put_at n S e)) ≡ dot a e }
{}

/// A point is stationary exactly where some multipliers of the equations give the gradient on its support.
pub fn stationary_is_having_multipliers()
    ensures exactly { (n : ℕ) (f : Form) (z : List ℚ) → IsForm n f → IsSemidefinite n f.quadratic → length z ≡ n →
        IsStationary f z ↔ HasMultipliers n f z }
{}
