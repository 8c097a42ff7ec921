//! The laws of the reduction. Each is the contract of a function that does nothing.

ghost use Rattle.convexity.specs.declared.Curvature.{Curvature};
ghost use Rattle.convexity.specs.declared.Curvature.TheVariants.{Negative};
ghost use Rattle.symmetric_half.specs.Half.{IsSymmetric};
ghost use Rattle.convexity.specs.Meaning.{HasWidth, IsCurvatureOf};
ghost use Rattle.convexity.specs.Reduction.{curvature_of};
ghost use Rattle.convexity.specs.ReductionCalculation.{squares_of};
ghost use Rattle.convexity.specs.ReductionOperations.{squares_ops};
ghost use Rattle.frac_core.specs.declared.fractions.Refused.{Refused};
ghost use Rattle.frac_core.specs.Operations.{IsWithin, IsFirstPast};
ghost use Rattle.frac_core.specs.Parts.{max_part};
ghost use Rattle.rational.specs.Vectors.{form};
ghost use Rattle.rational.specs.Order.{◌<ℚ◌};
ghost use Rattle.rational.specs.Rational.{ℚ, zero_ℚ};
ghost use Rattle.std.specs.List.{All};
ghost use Rattle.std.specs.Prelude.{◌≡◌, List, length, Ok, Err};

/// The reduction of a symmetric matrix ends with squares of positive weights that sum to it, or with a vector that has a negative
/// form; and with a vector wherever some vector has a negative form.
pub fn reduction_tells_the_curvature()
    ensures right { (q : List (List ℚ)) → IsSymmetric q → IsCurvatureOf q (curvature_of q) }
    ensures width { (q : List (List ℚ)) → IsSymmetric q → HasWidth (length q) (curvature_of q) }
    ensures negative { (q : List (List ℚ)) (u : List ℚ) → IsSymmetric q → form q u u <ℚ zero_ℚ → (v : List ℚ) × (curvature_of q ≡ Negative v) }
{}

/// The calculation ends with the exact answer where the result of each operation of the list fits, and else with the first whose
/// result doesn't.
pub fn reduction_ends_with_its_first_refusal()
    ensures exact { (q : List (List ℚ)) (c : Curvature) → IsSymmetric q → squares_of q ≡ Ok c → c ≡ curvature_of q }
    ensures within { (q : List (List ℚ)) (c : Curvature) → IsSymmetric q → squares_of q ≡ Ok c → All (IsWithin max_part) (squares_ops q) }
    ensures refused { (q : List (List ℚ)) (r : Refused) → IsSymmetric q → squares_of q ≡ Err r → IsFirstPast max_part (squares_ops q) r }
{}
