//! The answer of a region by its three cases.

ghost use Rattle.std.specs.Prelude.{◌≡◌, ◌≤◌, ◌+◌, ◌^◌, ℕ, List, [], ◌∷◌, length};
ghost use Rattle.rational.specs.Rational.{ℚ};
ghost use Rattle.rational.specs.Order.{◌≤ℚ◌};
ghost use Rattle.rational.specs.Vectors.{IsSemidefinite};
ghost use Rattle.program_law.specs.Region.{Region, IsCrossedRegion};
ghost use Rattle.program_law.specs.Program.{Program, IsProgram, bounds};
ghost use Rattle.program_law.specs.Columns.{IsRelaxedPoint, value};
ghost use Rattle.certificate_law.specs.Leaf.{IsGoodBound, IsGoodFarkas};
ghost use Rattle.equational_law.specs.Form.{width, form_of};
ghost use Rattle.equational_law.specs.Solutions.{IsRegionRay};
ghost use Rattle.quad_solve_law.specs.Answer.{Answer, Ray, Best, IsAnswer, IsBest, IsEmpty, IsFalling, IsFound};
ghost use Rattle.quad_solve_law.specs.Worked.{n, minus, minus_over, over, hill, portfolio, valley, slope};

/// What a region's answer says is true of the region: its multipliers are a good FARKAS leaf; or its point is one of the
/// region, and its direction one along which the values fall without end; or its point is one of the region with the least
/// value, its multipliers are a good BOUND leaf there, and the region has no ray.
pub fn answers_are_true()
    ensures empty { (p : Program) (region : Region) (budget : ℕ) (y : List ℚ) → IsProgram p → length region ≡ length p.columns →
        (IsCrossedRegion region → ⊥) → IsEmpty p region budget y → IsGoodFarkas p region y }
    ensures found { (p : Program) (region : Region) (budget : ℕ) (x : List ℚ) → IsProgram p → length region ≡ length p.columns →
        IsFound p region budget x → IsRelaxedPoint p region x }
    ensures ray { (p : Program) (region : Region) (budget : ℕ) (x d : List ℚ) → IsProgram p → length region ≡ length p.columns →
        IsFalling p region budget x d → IsRegionRay p region d }
    ensures point { (p : Program) (region : Region) (budget : ℕ) (x : List ℚ) (least : ℚ) (y : List ℚ) → IsProgram p →
        length region ≡ length p.columns → IsSemidefinite (length p.columns) p.pairs → IsBest p region budget x least y →
        IsRelaxedPoint p region x }
    ensures bound { (p : Program) (region : Region) (budget : ℕ) (x : List ℚ) (least : ℚ) (y : List ℚ) → IsProgram p →
        length region ≡ length p.columns → IsSemidefinite (length p.columns) p.pairs → IsBest p region budget x least y →
        (IsCrossedRegion region → ⊥) → IsGoodBound p least region x y }
    ensures least { (p : Program) (region : Region) (budget : ℕ) (x : List ℚ) (least : ℚ) (y : List ℚ) → IsProgram p →
        length region ≡ length p.columns → IsSemidefinite (length p.columns) p.pairs → IsBest p region budget x least y →
        (w : List ℚ) → IsRelaxedPoint p region w → least ≤ℚ value p w }
    ensures no_ray { (p : Program) (region : Region) (budget : ℕ) (x : List ℚ) (least : ℚ) (y d : List ℚ) → IsProgram p →
        length region ≡ length p.columns → IsBest p region budget x least y → IsRegionRay p region d → ⊥ }
{}

/// The cases of a region's answer exclude each other, whatever the budgets.
pub fn answers_exclude_each_other()
    ensures found { (p : Program) (region : Region) (one other : ℕ) (x y : List ℚ) → IsProgram p →
        length region ≡ length p.columns →
        IsFound p region one x → IsEmpty p region other y → ⊥ }
    ensures ray { (p : Program) (region : Region) (one other : ℕ) (x d y : List ℚ) → IsProgram p →
        length region ≡ length p.columns →
        IsFalling p region one x d → IsEmpty p region other y → ⊥ }
    ensures best { (p : Program) (region : Region) (one other : ℕ) (x : List ℚ) (least : ℚ) (y u : List ℚ) → IsProgram p →
        length region ≡ length p.columns → IsBest p region one x least y → IsEmpty p region other u → ⊥ }
    ensures both { (p : Program) (region : Region) (one other : ℕ) (x : List ℚ) (least : ℚ) (y w d : List ℚ) → IsProgram p →
        length region ≡ length p.columns → IsBest p region one x least y → IsFalling p region other w d → ⊥ }
{}

/// Where Q is semidefinite, each region has an answer, and only one, whatever the budget; it is within 2^(2n + m + 1), for the n
/// columns and m equations of the region's form. A larger budget keeps an answer.
pub fn regions_have_answers()
    ensures some { (p : Program) (region : Region) → IsProgram p → length region ≡ length p.columns →
        IsSemidefinite (length p.columns) p.pairs →
        (answer : Answer) × IsAnswer p region (2 ^ (width p region + width p region + length (form_of p region).matrix + 1)) answer }
    ensures one { (p : Program) (region : Region) (a b : ℕ) (one other : Answer) → IsProgram p → length region ≡ length p.columns →
        IsSemidefinite (length p.columns) p.pairs → IsAnswer p region a one → IsAnswer p region b other → one ≡ other }
    ensures found { (p : Program) (region : Region) (a b : ℕ) (x y : List ℚ) → IsProgram p → length region ≡ length p.columns →
        IsFound p region a x → IsFound p region b y → x ≡ y }
    ensures more { (p : Program) (region : Region) (budget larger : ℕ) (answer : Answer) → budget ≤ larger →
        IsAnswer p region budget answer → IsAnswer p region larger answer }
{}

/// The answers of worked programs: the hill `x^2 + 4y^2 - 32y + 64` with two rows is least at (2, 3), with 8 there; the
/// portfolio `4a^2 + 2b^2 + c^2` with two rows at (5/13, 9/26, 7/26), with 47/52; the valley `(x + y - 2)^2` at (2, 0), with 0;
/// and the slope `-x` falls without end from 0.
pub fn worked_programs_have_their_answers()
    ensures hill { IsAnswer hill (bounds hill) 6 (Best (n 2 ∷ n 3 ∷ []) (n 8) (n 0 ∷ minus 4 ∷ [])) }
    ensures portfolio { IsAnswer portfolio (bounds portfolio) 6
        (Best (over 5 13 ∷ over 9 26 ∷ over 7 26 ∷ []) (over 47 52) (minus_over 15 13 ∷ over 11 26 ∷ [])) }
    ensures valley { IsAnswer valley (bounds valley) 1 (Best (n 2 ∷ n 0 ∷ []) (n 0) []) }
    ensures slope { IsAnswer slope (bounds slope) 1 (Ray (n 0 ∷ []) (n 1 ∷ [])) }
{}
