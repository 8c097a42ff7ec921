//! Paths and their regions.

ghost use Rattle.std.specs.Prelude.{◌≡◌, List, [], ◌∷◌, ◌++◌, length};
ghost use Rattle.rational.specs.Rational.{ℚ};
ghost use Rattle.program_law.specs.Region.{Region};
ghost use Rattle.program_law.specs.Columns.{AllWithin};
ghost use Rattle.equational_law.specs.Solutions.{HasItsBounds};
ghost use Rattle.branching_law.specs.declared.Turn.{Turn};
ghost use Rattle.branching_law.specs.Paths.{behind, region_behind};

/// A further turn cuts the region behind a path once more, and a further path goes on from that region. A region behind turns has as
/// many columns and all bounds of the first one, and lies inside it.
pub fn turns_cut_a_region()
    ensures last { (region : Region) (path : List Turn) (t : Turn) →
        region_behind region (path ++ t ∷ []) ≡ behind (region_behind region path) t }
    ensures more { (region : Region) (path more : List Turn) →
        region_behind region (path ++ more) ≡ region_behind (region_behind region path) more }
    ensures columns { (region : Region) (path : List Turn) → length (region_behind region path) ≡ length region }
    ensures bounds { (region : Region) (path : List Turn) → HasItsBounds region (region_behind region path) }
    ensures inside { (region : Region) (path : List Turn) (x : List ℚ) → AllWithin (region_behind region path) x → AllWithin region x }
{}
