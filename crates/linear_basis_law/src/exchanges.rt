//! The laws of an exchange, and of the rule that says where a column comes in.

ghost use Rattle.linear_basis_law.specs.Basis.{IsBasis, IsStanding, Tableau, level, multipliers, point, price, tableau_rows};
ghost use Rattle.linear_basis_law.specs.Exchange.{IsLeaving, coordinates, exchanged, quotient_row};
ghost use Rattle.linear_basis_law.specs.Lexicographic.{IsLexBelow};
ghost use Rattle.linear_basis_law.specs.Problem.{IsProblem, Problem, height, width};
ghost use Rattle.rational.specs.Order.{◌<ℚ◌};
ghost use Rattle.rational.specs.Rational.{◌*ℚ◌, ◌-ℚ◌, ◌/ℚ◌, zero_ℚ, neg_ℚ};
ghost use Rattle.rational.specs.Sums.{entry};
ghost use Rattle.rational.specs.Vectors.{add_each, row_at, scale};
ghost use Rattle.std.specs.Prelude.{◌≡◌, ◌≢◌, ◌<◌, ℕ};

/// Column j may come into the place l where its coordinate there is not 0: that is a basis again. In its
/// inverse the row at l is divided by this coordinate, and from each other row the divided one is taken
/// off as often as the coordinate there says.
pub fn exchange_makes_a_basis()
    ensures basis { (p : Problem) (b : Tableau) → IsProblem p → IsBasis p b → (j l : ℕ) → j < width p → l < height p → ¬ (entry (coordinates p b j) l ≡ zero_ℚ) → IsBasis p (exchanged p b j l) }
    ensures row { (p : Problem) (b : Tableau) → IsProblem p → IsBasis p b → (j l : ℕ) → j < width p → l < height p → ¬ (entry (coordinates p b j) l ≡ zero_ℚ) → row_at (exchanged p b j l).inverse l ≡ quotient_row (coordinates p b j) b.inverse l }
    ensures others { (p : Problem) (b : Tableau) → IsProblem p → IsBasis p b → (j l : ℕ) → j < width p → l < height p → ¬ (entry (coordinates p b j) l ≡ zero_ℚ) → (k : ℕ) → k < height p → k ≢ l → row_at (exchanged p b j l).inverse k ≡ add_each (row_at b.inverse k) (scale (neg_ℚ (entry (coordinates p b j) k)) (quotient_row (coordinates p b j) b.inverse l)) }
{}

/// The point moves as the rows do; and the multipliers and the level move along the divided row, by the
/// price of the column that comes in.
pub fn exchange_moves_the_point()
    ensures value { (p : Problem) (b : Tableau) → IsProblem p → IsBasis p b → (j l : ℕ) → j < width p → l < height p → ¬ (entry (coordinates p b j) l ≡ zero_ℚ) → entry (point p (exchanged p b j l)) l ≡ entry (point p b) l /ℚ entry (coordinates p b j) l }
    ensures values { (p : Problem) (b : Tableau) → IsProblem p → IsBasis p b → (j l : ℕ) → j < width p → l < height p → ¬ (entry (coordinates p b j) l ≡ zero_ℚ) → (k : ℕ) → k < height p → k ≢ l → entry (point p (exchanged p b j l)) k ≡ entry (point p b) k -ℚ entry (coordinates p b j) k *ℚ entry (point p (exchanged p b j l)) l }
    ensures multipliers { (p : Problem) (b : Tableau) → IsProblem p → IsBasis p b → (j l : ℕ) → j < width p → l < height p → ¬ (entry (coordinates p b j) l ≡ zero_ℚ) → multipliers p (exchanged p b j l) ≡ add_each (multipliers p b) (scale (price p b j) (quotient_row (coordinates p b j) b.inverse l)) }
    ensures level { (p : Problem) (b : Tableau) → IsProblem p → IsBasis p b → (j l : ℕ) → j < width p → l < height p → ¬ (entry (coordinates p b j) l ≡ zero_ℚ) → level p (exchanged p b j l) ≡ add_each (level p b) (scale (price p b j) (quotient_row (coordinates p b j) (tableau_rows p b) l)) }
{}

/// For a column of M with a price below 0 a place leaves by the lexicographic ratio rule, and only one:
/// two rows never tie.
pub fn one_place_leaves()
    ensures some { (p : Problem) (b : Tableau) → IsBasis p b → (j : ℕ) → j < p.given → price p b j <ℚ zero_ℚ → (l : ℕ) × IsLeaving p b j l }
    ensures one { (p : Problem) (b : Tableau) → IsBasis p b → (j k l : ℕ) → IsLeaving p b j k → IsLeaving p b j l → k ≡ l }
    ensures ties { (p : Problem) (b : Tableau) → IsBasis p b → (j k l : ℕ) → k < height p → l < height p → k ≢ l → zero_ℚ <ℚ entry (coordinates p b j) k → zero_ℚ <ℚ entry (coordinates p b j) l → ¬ (quotient_row (coordinates p b j) (tableau_rows p b) k ≡ quotient_row (coordinates p b j) (tableau_rows p b) l) }
{}

/// The exchange at the place that leaves keeps a standing basis standing, and no other exchange of this
/// column does; and where the column that comes in has a price below 0, the level falls.
pub fn exchange_keeps_standing()
    ensures standing { (p : Problem) (b : Tableau) → IsProblem p → IsBasis p b → (j l : ℕ) → j < width p → IsLeaving p b j l → IsStanding p b → IsStanding p (exchanged p b j l) }
    ensures only { (p : Problem) (b : Tableau) → IsProblem p → IsBasis p b → IsStanding p b → (j l : ℕ) → j < width p → l < height p → ¬ (entry (coordinates p b j) l ≡ zero_ℚ) → IsStanding p (exchanged p b j l) → IsLeaving p b j l }
    ensures falls { (p : Problem) (b : Tableau) → IsProblem p → IsBasis p b → (j l : ℕ) → j < width p → IsLeaving p b j l → IsStanding p b → price p b j <ℚ zero_ℚ → IsLexBelow (level p (exchanged p b j l)) (level p b) }
{}
