//! The law of the lexicographic order.

ghost use Rattle.linear_basis_law.specs.Lexicographic.{IsLexBelow, IsLexPositive};
ghost use Rattle.rational.specs.Order.{◌<ℚ◌};
ghost use Rattle.rational.specs.Rational.{ℚ, zero_ℚ, one_ℚ, neg_ℚ};
ghost use Rattle.rational.specs.Vectors.{add_each, scale, zeros};
ghost use Rattle.std.specs.Prelude.{◌≡◌, ◌≢◌, ◌⊎◌, ◌↔◌, ◌<◌, ℕ, List, length};

/// The lexicographic order: sums and positive multiples of positive lists are positive; a list is 0, or
/// positive, or its negation is, and only one of these; the order is strict and total, and one list is
/// below another exactly where the difference is positive; and among finitely many different lists one
/// is least.
pub fn lists_are_in_order()
    ensures sum { (u v : List ℚ) → length u ≡ length v → IsLexPositive u → IsLexPositive v → IsLexPositive (add_each u v) }
    ensures multiple { (s : ℚ) (u : List ℚ) → zero_ℚ <ℚ s → IsLexPositive u → IsLexPositive (scale s u) }
    ensures sign { (u : List ℚ) → IsLexPositive u ⊎ (u ≡ zeros (length u)) ⊎ IsLexPositive (scale (neg_ℚ one_ℚ) u) }
    ensures not_zero { (u : List ℚ) (n : ℕ) → IsLexPositive u → ¬ (u ≡ zeros n) }
    ensures not_negated { (u : List ℚ) → IsLexPositive u → ¬ (IsLexPositive (scale (neg_ℚ one_ℚ) u)) }
    ensures difference { (u v : List ℚ) → length u ≡ length v → IsLexBelow u v ↔ IsLexPositive (add_each v (scale (neg_ℚ one_ℚ) u)) }
    ensures strict { (u : List ℚ) → ¬ (IsLexBelow u u) }
    ensures chained { (u v w : List ℚ) → IsLexBelow u v → IsLexBelow v w → IsLexBelow u w }
    ensures total { (u v : List ℚ) → length u ≡ length v → IsLexBelow u v ⊎ (u ≡ v) ⊎ IsLexBelow v u }
    ensures least { (q : ℕ → List ℚ) (c w : ℕ) → 0 < c → ((k : ℕ) → length (q k) ≡ w) → ((k l : ℕ) → k ≢ l → ¬ (q k ≡ q l)) → (l : ℕ) × (l < c) × ((k : ℕ) → k < c → k ≢ l → IsLexBelow (q l) (q k)) }
{}
