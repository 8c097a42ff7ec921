//! What the form says of the program: its solutions are the region's points, and its rays the region's directions.

ghost use Rattle.std.specs.Prelude.{◌≡◌, ℕ, List, length};
ghost use Rattle.rational.specs.Rational.{ℚ};
ghost use Rattle.rational.specs.Vectors.{dot, zeros, quadratic, IsSymmetric, IsSemidefinite};
ghost use Rattle.program_law.specs.Region.{Region};
ghost use Rattle.program_law.specs.Program.{Program, IsProgram, bounds};
ghost use Rattle.program_law.specs.Columns.{IsRelaxedPoint, value};
ghost use Rattle.certificate_law.specs.Ray.{IsRay};
ghost use Rattle.equational_law.specs.Standing.{parts, spread, change};
ghost use Rattle.equational_law.specs.Form.{width, form_of, point_of, direction_of};
ghost use Rattle.equational_law.specs.Calculation.{Gives, form_in, form_ops, point_in, point_ops, ray_in, ray_ops};
ghost use Rattle.equational_law.specs.Solutions.{IsForm, IsSolution, IsFormRay, IsRegionRay, HasItsBounds};

/// The way from the file's columns to the form's is the transpose of the way back, and only zeros spread to zeros.
pub fn spread_is_adjoint()
    ensures products { (region : Region) (v z : List ℚ) → dot (spread region v) z ≡ dot v (change region z) }
    ensures zero { (region : Region) (v : List ℚ) → length v ≡ length region →
        spread region v ≡ zeros (parts region) → v ≡ zeros (length region) }
{}

/// The parts of the form fit, and its quadratic matrix is symmetric, and semidefinite where the program's is.
pub fn form_fits()
    ensures shape { (p : Program) (region : Region) → IsProgram p → length region ≡ length p.columns →
        IsForm (width p region) (form_of p region) }
    ensures symmetric { (p : Program) (region : Region) → IsProgram p → length region ≡ length p.columns →
        IsSymmetric (width p region) (form_of p region).quadratic }
    ensures semidefinite { (p : Program) (region : Region) → IsProgram p → length region ≡ length p.columns →
        IsSemidefinite (length p.columns) p.pairs → IsSemidefinite (width p region) (form_of p region).quadratic }
{}

/// Each solution of the form goes back to a relaxed point of the region, with the same value, and each relaxed point of
/// the region comes from a solution.
pub fn solutions_are_points()
    ensures point { (p : Program) (region : Region) (z : List ℚ) → IsProgram p → length region ≡ length p.columns →
        IsSolution (form_of p region) z → IsRelaxedPoint p region (point_of region z) }
    ensures value { (p : Program) (region : Region) (z : List ℚ) → IsProgram p → length region ≡ length p.columns →
        quadratic (form_of p region).quadratic (form_of p region).cost (form_of p region).constant z
        ≡ value p (point_of region z) }
    ensures every { (p : Program) (region : Region) (x : List ℚ) → IsProgram p → IsRelaxedPoint p region x →
        (z : List ℚ) × IsSolution (form_of p region) z × (point_of region z ≡ x) }
{}

/// Each ray of the form gives a direction of the region with `Q d = 0` and `c · d = -1`, and each such direction comes
/// from a ray. A direction of a region is one of each region with no other bounds than its own, whatever their numbers;
/// so where the region has all bounds of the program, it is a ray of the program.
pub fn rays_are_directions()
    ensures direction { (p : Program) (region : Region) (d : List ℚ) → IsProgram p → length region ≡ length p.columns →
        IsFormRay (form_of p region) d → IsRegionRay p region (direction_of region d) }
    ensures every { (p : Program) (region : Region) (d : List ℚ) → IsProgram p → length region ≡ length p.columns →
        IsRegionRay p region d → (z : List ℚ) × IsFormRay (form_of p region) z × (direction_of region z ≡ d) }
    ensures fewer { (p : Program) (region other : Region) (d : List ℚ) → HasItsBounds region other →
        IsRegionRay p other d → IsRegionRay p region d }
    ensures ray { (p : Program) (region : Region) (d : List ℚ) → HasItsBounds (bounds p) region →
        IsRegionRay p region d → IsRay p d }
{}

/// The calculation of the form answers the form, or the first of its operations that is past; and so do those of the point
/// of a solution and of the direction of a ray.
pub fn calculations_answer()
    ensures form { (top : ℕ) (p : Program) (region : Region) →
        Gives top (form_ops p region) (form_of p region) (form_in top p region) }
    ensures point { (top : ℕ) (region : Region) (z : List ℚ) →
        Gives top (point_ops region z) (point_of region z) (point_in top region z) }
    ensures ray { (top : ℕ) (region : Region) (d : List ℚ) →
        Gives top (ray_ops region d) (direction_of region d) (ray_in top region d) }
{}
