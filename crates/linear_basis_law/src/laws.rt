//! What a basis gives.

ghost use Rattle.linear_basis_law.specs.Basis.{HasSameColumns, IsBasis, IsFinal, IsInverseOf, IsStanding, IsZeroCost, Tableau, basic_columns, farkas_of, level, multipliers, point, price, solution_of, unit_basis};
ghost use Rattle.linear_basis_law.specs.Problem.{IsFarkas, IsProblem, IsSolution, Problem, column_of, cost_of, height, width};
ghost use Rattle.rational.specs.Order.{◌≤ℚ◌, ◌<ℚ◌};
ghost use Rattle.rational.specs.Rational.{ℚ, one_ℚ, zero_ℚ};
ghost use Rattle.rational.specs.Sums.{entry};
ghost use Rattle.rational.specs.Vectors.{combine, dot, zeros};
ghost use Rattle.std.specs.Prelude.{◌≡◌, ◌<◌, ◌↔◌, ℕ, All, Contains, List, Some, length, replicate};
ghost use Rattle.linear_basis_law.specs.Operations.{basic_matrix};
ghost use Rattle.elimination_law.specs.Answers.{inverse};

/// The columns of a basis are independent and have one inverse; its point sums them to r. Its multipliers
/// give each of them its cost, so their prices are 0, and no others do: they and the level depend on the
/// columns as a set alone, and not on their order.
pub fn basis_gives_its_columns()
    ensures independent { (p : Problem) (b : Tableau) → IsBasis p b → (z : List ℚ) → length z ≡ height p → combine (height p) z (basic_columns p b) ≡ zeros (height p) → z ≡ zeros (height p) }
    ensures inverse { (m : ℕ) (columns one other : List (List ℚ)) → IsInverseOf m columns one → IsInverseOf m columns other → one ≡ other }
    ensures point { (p : Problem) (b : Tableau) → IsBasis p b → combine (height p) (point p b) (basic_columns p b) ≡ p.right }
    ensures costs { (p : Problem) (b : Tableau) → IsBasis p b → (j : ℕ) → Contains b.columns j → dot (multipliers p b) (column_of p j) ≡ cost_of p j }
    ensures prices { (p : Problem) (b : Tableau) → IsBasis p b → (j : ℕ) → Contains b.columns j → price p b j ≡ zero_ℚ }
    ensures only { (p : Problem) (b : Tableau) → IsBasis p b → (y : List ℚ) → length y ≡ height p → ((j : ℕ) → Contains b.columns j → dot y (column_of p j) ≡ cost_of p j) → y ≡ multipliers p b }
    ensures same { (p : Problem) (b c : Tableau) → IsBasis p b → IsBasis p c → HasSameColumns b c → multipliers p b ≡ multipliers p c }
    ensures level { (p : Problem) (b c : Tableau) → IsBasis p b → IsBasis p c → HasSameColumns b c → level p b ≡ level p c }
{}

/// The elimination of the basic columns gives the inverse of a basis, whatever way led to it; and where it
/// gives one, the columns are a basis with it.
pub fn elimination_gives_the_inverse()
    ensures inverse { (p : Problem) (b : Tableau) → IsBasis p b → inverse (height p) (basic_matrix p b) ≡ Some b.inverse }
    ensures basis { (p : Problem) (b : Tableau) → IsProblem p → length b.columns ≡ height p → All (λ j. j < width p) b.columns → inverse (height p) (basic_matrix p b) ≡ Some b.inverse → IsBasis p b }
{}

/// The unit columns are a standing basis, with r as its point and all multipliers 1.
pub fn units_are_a_basis()
    ensures basis { (p : Problem) → IsBasis p (unit_basis p) }
    ensures standing { (p : Problem) → IsProblem p → IsStanding p (unit_basis p) }
    ensures point { (p : Problem) → point p (unit_basis p) ≡ p.right }
    ensures multipliers { (p : Problem) → multipliers p (unit_basis p) ≡ replicate (height p) one_ℚ }
{}

/// A standing basis has no value below 0. It is zero-cost exactly where its multipliers give 0 of r, and
/// else they give more.
pub fn zero_cost_is_no_cost()
    ensures values { (p : Problem) (b : Tableau) → IsBasis p b → IsStanding p b → (k : ℕ) → k < height p → zero_ℚ ≤ℚ entry (point p b) k }
    ensures exactly { (p : Problem) (b : Tableau) → IsBasis p b → IsStanding p b → IsZeroCost p b ↔ (dot (multipliers p b) p.right ≡ zero_ℚ) }
    ensures costs { (p : Problem) (b : Tableau) → IsBasis p b → IsStanding p b → ¬ (IsZeroCost p b) → zero_ℚ <ℚ dot (multipliers p b) p.right }
{}

/// A zero-cost basis gives a solution, and a final one a Farkas vector, its negated multipliers. No
/// problem has both; so where one standing basis is zero-cost, none is final.
pub fn basis_tells_its_verdict()
    ensures solution { (p : Problem) (b : Tableau) → IsProblem p → IsBasis p b → IsStanding p b → IsZeroCost p b → IsSolution p (solution_of p b) }
    ensures farkas { (p : Problem) (b : Tableau) → IsProblem p → IsBasis p b → IsStanding p b → IsFinal p b → IsFarkas p (farkas_of p b) }
    ensures not_both { (p : Problem) (z y : List ℚ) → IsProblem p → IsSolution p z → IsFarkas p y → ⊥ }
    ensures one { (p : Problem) (b c : Tableau) → IsProblem p → IsBasis p b → IsStanding p b → IsZeroCost p b → IsBasis p c → IsStanding p c → IsFinal p c → ⊥ }
{}
