// Multipliers of a form's equations go back to leaves of the program.

ghost use Rattle.std.specs.Prelude.{◌≡◌, List, length, map};
ghost use Rattle.rational.specs.Rational.{ℚ, neg_ℚ};
ghost use Rattle.program_law.specs.Region.{Region, IsCrossedRegion};
ghost use Rattle.program_law.specs.Program.{Program, IsProgram};
ghost use Rattle.program_law.specs.Columns.{value};
ghost use Rattle.certificate_law.specs.Leaf.{IsGoodFarkas, IsGoodBound, lower_bound};
ghost use Rattle.equational_law.specs.Form.{width, form_of, point_of, multipliers_of};
ghost use Rattle.equational_law.specs.Solutions.{IsSolution};
ghost use Rattle.equational_law.specs.Optimal.{IsRefutation, IsOptimality};

/// Multipliers that show that the form has no solution, negated and carried back, are a good FARKAS leaf of the region.
pub fn refutation_goes_back()
    ensures { (p : Program) (region : Region) (y : List ℚ) →
        IsProgram p → length region ≡ length p.columns → (IsCrossedRegion region → ⊥) →
        IsRefutation (width p region) (form_of p region) y → IsGoodFarkas p region (multipliers_of p region (map neg_ℚ y)) }
{}

/// Multipliers that show that a solution of the form is optimal, carried back, are a good BOUND leaf of the region at the
/// solution's point, for that point's value; and the leaf says exactly this value.
pub fn optimality_goes_back()
    ensures leaf { (p : Program) (region : Region) (z y : List ℚ) →
        IsProgram p → length region ≡ length p.columns → (IsCrossedRegion region → ⊥) →
        IsSolution (form_of p region) z → IsOptimality (width p region) (form_of p region) z y →
        IsGoodBound p (value p (point_of region z)) region (point_of region z) (multipliers_of p region y) }
    ensures exact { (p : Program) (region : Region) (z y : List ℚ) →
        IsProgram p → length region ≡ length p.columns → (IsCrossedRegion region → ⊥) →
        IsSolution (form_of p region) z → IsOptimality (width p region) (form_of p region) z y →
        lower_bound p region (point_of region z) (multipliers_of p region y) ≡ value p (point_of region z) }
{}
