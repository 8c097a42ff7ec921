//! The laws of chains.

ghost use Rattle.linear_basis_law.specs.Basis.{HasSameColumns, IsBasis, IsFinal, IsStanding, IsZeroCost, Tableau, level};
ghost use Rattle.linear_basis_law.specs.Exchange.{IsLeaving, exchanged};
ghost use Rattle.linear_basis_law.specs.Lexicographic.{IsLexBelow};
ghost use Rattle.linear_basis_law.specs.Problem.{IsFarkas, IsProblem, IsSolution, Problem, width};
ghost use Rattle.linear_basis_law.specs.Basis.{farkas_of, solution_of};
ghost use Rattle.linear_simplex_law.specs.Chain.{EndsWithin, IsChain, IsEntering, IsSpent, IsStrictStep};
ghost use Rattle.std.specs.Prelude.{◌≡◌, ◌+◌, ◌≤◌, ◌^◌, ℕ, List, ◌∷◌, length, All, AllPairs};

/// Each list in a chain is a standing basis, and none but the last is zero-cost.
pub fn chain_holds_standing_bases()
    ensures bases { (p : Problem) (chain : List Tableau) → IsChain p chain → All (IsBasis p) chain }
    ensures standing { (p : Problem) (chain : List Tableau) → IsProblem p → IsChain p chain → All (IsStanding p) chain }
    ensures costs { (p : Problem) (last : Tableau) (earlier : List Tableau) → IsChain p (last ∷ earlier) → All (λ b. ¬ (IsZeroCost p b)) earlier }
{}

/// The levels of a chain fall strictly; so no two of its bases have the same columns, whatever their order.
pub fn bases_of_a_chain_differ()
    ensures levels { (p : Problem) (chain : List Tableau) → IsChain p chain → AllPairs (λ b c. IsLexBelow (level p b) (level p c)) chain }
    ensures columns { (p : Problem) (chain : List Tableau) → IsChain p chain → AllPairs (λ b c. ¬ (HasSameColumns b c)) chain }
{}

/// From a standing basis that is neither zero-cost nor final a strict step goes on: the first column of M
/// with a price below 0 comes in where the lexicographic ratio rule says.
pub fn chain_goes_on()
    ensures enters { (p : Problem) (b : Tableau) → ¬ (IsZeroCost p b) → ¬ (IsFinal p b) → (j : ℕ) × IsEntering p b j }
    ensures rule { (p : Problem) (b : Tableau) (j l : ℕ) → IsProblem p → IsBasis p b → IsStanding p b → ¬ (IsZeroCost p b) → IsEntering p b j → IsLeaving p b j l → IsStrictStep p b (exchanged p b j l) }
    ensures some { (p : Problem) (b : Tableau) → IsProblem p → IsBasis p b → IsStanding p b → ¬ (IsZeroCost p b) → ¬ (IsFinal p b) → (c : Tableau) × IsStrictStep p b c }
{}

/// From a standing basis there is at most one strict step, the exchange by the lexicographic ratio rule; so
/// a problem has at most one chain of each length, and each chain goes on from the shorter ones.
pub fn chains_are_determined()
    ensures rule { (p : Problem) (b c : Tableau) → IsProblem p → IsBasis p b → IsStanding p b → IsStrictStep p b c → (j : ℕ) × (l : ℕ) × IsLeaving p b j l × (c ≡ exchanged p b j l) }
    ensures step { (p : Problem) (b c d : Tableau) → IsProblem p → IsBasis p b → IsStanding p b → IsStrictStep p b c → IsStrictStep p b d → c ≡ d }
    ensures chain { (p : Problem) (one other : List Tableau) → IsProblem p → IsChain p one → IsChain p other → length one ≡ length other → one ≡ other }
{}

/// A chain has at most as many bases as there are sets of columns. So a budget can be used up only where
/// it is at least two less.
pub fn chains_are_short()
    ensures bases { (p : Problem) (chain : List Tableau) → IsChain p chain → length chain ≤ 2 ^ width p }
    ensures budget { (p : Problem) (budget : ℕ) (b : Tableau) → IsProblem p → IsSpent p budget b → budget + 2 ≤ 2 ^ width p }
{}

/// A chain that ends at a zero-cost basis gives a solution, one that ends at a final basis a Farkas vector;
/// and no problem has chains of both kinds.
pub fn chains_tell_one_verdict()
    ensures solution { (p : Problem) (budget : ℕ) (b : Tableau) → IsProblem p → EndsWithin p budget b → IsZeroCost p b → IsSolution p (solution_of p b) }
    ensures farkas { (p : Problem) (budget : ℕ) (b : Tableau) → IsProblem p → EndsWithin p budget b → IsFinal p b → IsFarkas p (farkas_of p b) }
    ensures one { (p : Problem) (first second : ℕ) (b c : Tableau) → IsProblem p → EndsWithin p first b → IsZeroCost p b → EndsWithin p second c → IsFinal p c → ⊥ }
{}
