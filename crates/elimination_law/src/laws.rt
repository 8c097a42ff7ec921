//! The laws of the elimination. Each is the contract of a function that does nothing.

ghost use Rattle.elimination_law.specs.Elimination.{Line, eliminated};
ghost use Rattle.elimination_law.specs.Answers.{Solution, inverse, invert_rows, lines_of, row_of_pivot, solve_rows, solved};
ghost use Rattle.elimination_law.specs.Calculation.{eliminated_in, ended};
ghost use Rattle.elimination_law.specs.Meaning.{Depends, IsCombined, IsFree, IsInverse, IsInverseOrDepends, IsRight, Refutes, Shaped, Solves};
ghost use Rattle.elimination_law.specs.Operations.{elimination_ops, first_past};
ghost use Rattle.elimination_law.specs.Tails.{line_without, without};
ghost use Rattle.frac_core.specs.Calculated.{exact_of};
ghost use Rattle.frac_core.specs.declared.fractions.Refused.{Refused};
ghost use Rattle.rational.specs.Rational.{ℚ, zero_ℚ, Fits};
ghost use Rattle.rational.specs.Sums.{entry};
ghost use Rattle.rational.specs.Vectors.{HasColumns, dot, rows_dot, zeros};
ghost use Rattle.std.specs.List.{All, Contains};
ghost use Rattle.std.specs.Prelude.{◌≡◌, ◌<◌, ◌≤◌, ◌↔◌, ℕ, suc, List, length, map, take, drop, option_map, None, Some, Ok, Err};

/// The calculation ends with the first operation of the list whose result has a part above the
/// greatest, and with the exact lines where there is none.
pub fn elimination_ends_with_its_first_refusal()
    ensures calculation { (top n w : ℕ) (rows : List (List ℚ)) → HasColumns w rows → eliminated_in top n (lines_of rows) ≡ ended (first_past top (elimination_ops n (lines_of rows))) (eliminated n (lines_of rows)) }
    ensures exact { (top n w : ℕ) (rows : List (List ℚ)) (ls : List Line) → HasColumns w rows → eliminated_in top n (lines_of rows) ≡ Ok ls → ls ≡ eliminated n (lines_of rows) }
    ensures refused { (top n w : ℕ) (rows : List (List ℚ)) (r : Refused) → HasColumns w rows → eliminated_in top n (lines_of rows) ≡ Err r → Contains (elimination_ops n (lines_of rows)) r × ¬ (Fits top (exact_of r.op r.left r.right)) }
    ensures found { (top : ℕ) (ops : List Refused) (r : Refused) → first_past top ops ≡ Some r → Contains ops r × ¬ (Fits top (exact_of r.op r.left r.right)) }
    ensures missing { (top : ℕ) (ops : List Refused) → first_past top ops ≡ None → All (λ r. Fits top (exact_of r.op r.left r.right)) ops }
{}

/// Each row of an elimination is its own combination of the given rows; the rows give 0 of the same
/// vectors as the given ones; and for every right side v, `M z = v` has the solutions that the rows
/// at the end have.
pub fn elimination_combines_rows()
    ensures combined { (n : ℕ) (M : List (List ℚ)) (r : List ℚ) → HasColumns n M → length r ≡ length M → All (λ l. IsCombined n M r l.entries) (eliminated n (lines_of (solve_rows M r))) }
    ensures kernel { (n w : ℕ) (rows : List (List ℚ)) (v : List ℚ) → HasColumns w rows → All (λ row. dot row v ≡ zero_ℚ) rows ↔ All (λ l. dot l.entries v ≡ zero_ℚ) (eliminated n (lines_of rows)) }
    ensures solutions { (n : ℕ) (M : List (List ℚ)) (r z v : List ℚ) → HasColumns n M → length r ≡ length M → length z ≡ n → length v ≡ length M → (rows_dot M z ≡ v) ↔ All (λ l. dot (take n l.entries) z ≡ dot (drop (suc n) l.entries) v) (eliminated n (lines_of (solve_rows M r))) }
{}

/// The rows at the end are 1 at each pivot, 0 in the other rows of its column, and 0 in the
/// eliminated columns of the rows that are not used.
pub fn elimination_has_pivots()
    ensures { (n w : ℕ) (rows : List (List ℚ)) → HasColumns w rows → All (Shaped w n (eliminated n (lines_of rows))) (eliminated n (lines_of rows)) }
{}

/// The answer of an elimination is right: a solution solves, and a refutation shows that nothing
/// does. So it refutes exactly where there is no solution.
pub fn elimination_solves()
    ensures right { (n : ℕ) (M : List (List ℚ)) (r : List ℚ) → HasColumns n M → length r ≡ length M → IsRight n M r (solved n M r) }
    ensures refuted { (n : ℕ) (M : List (List ℚ)) (r w z : List ℚ) (v : ℚ) → HasColumns n M → Refutes n M r w v → Solves n M r z → ⊥ }
{}

/// The inverse is one, and where there is none the columns are dependent. So there is none exactly
/// where they are.
pub fn elimination_inverts()
    ensures right { (n : ℕ) (M : List (List ℚ)) → HasColumns n M → length M ≡ n → IsInverseOrDepends n M (inverse n M) }
    ensures exactly { (n : ℕ) (M N : List (List ℚ)) (z : List ℚ) → IsInverse n M N → Depends n M z → ⊥ }
{}

/// The columns with a pivot are independent; where a column has none, the columns are dependent;
/// and a solution is 0 in the columns that have none.
pub fn pivot_columns_are_independent()
    ensures independent { (n : ℕ) (M : List (List ℚ)) (r : List ℚ) → HasColumns n M → length r ≡ length M → (z : List ℚ) → length z ≡ n → rows_dot M z ≡ zeros (length M) → ((c : ℕ) → c < n → IsFree n M r c → entry z c ≡ zero_ℚ) → z ≡ zeros n }
    ensures dependent { (n : ℕ) (M : List (List ℚ)) (r : List ℚ) → HasColumns n M → length r ≡ length M → (c : ℕ) → c < n → IsFree n M r c → (z : List ℚ) × Depends n M z }
    ensures solution { (n : ℕ) (M : List (List ℚ)) (r z : List ℚ) → solved n M r ≡ Solution z → (c : ℕ) → c < n → IsFree n M r c → entry z c ≡ zero_ℚ }
{}

/// A column beside the eliminated ones acts on no other column: left out before or after, the lines
/// are the same, and the operations are among those with that column. So the elimination of
/// `[M | I]` is that of `[M | r | I]` without r.
pub fn columns_beside_act_alone()
    ensures lines { (n w i : ℕ) (rows : List (List ℚ)) → n ≤ i → HasColumns w rows → eliminated n (lines_of (map (without i) rows)) ≡ map (line_without i) (eliminated n (lines_of rows)) }
    ensures operations { (n w i : ℕ) (rows : List (List ℚ)) (r : Refused) → n ≤ i → HasColumns w rows → Contains (elimination_ops n (lines_of (map (without i) rows))) r → Contains (elimination_ops n (lines_of rows)) r }
    ensures invert_lines { (n : ℕ) (M : List (List ℚ)) (r : List ℚ) → HasColumns n M → length r ≡ length M → eliminated n (lines_of (invert_rows M)) ≡ map (line_without n) (eliminated n (lines_of (solve_rows M r))) }
    ensures invert_pivots { (n : ℕ) (M : List (List ℚ)) (r : List ℚ) (c : ℕ) → HasColumns n M → length r ≡ length M → row_of_pivot c (eliminated n (lines_of (invert_rows M))) ≡ option_map (without n) (row_of_pivot c (eliminated n (lines_of (solve_rows M r)))) }
    ensures invert_operations { (n : ℕ) (M : List (List ℚ)) (r : List ℚ) (op : Refused) → HasColumns n M → length r ≡ length M → Contains (elimination_ops n (lines_of (invert_rows M))) op → Contains (elimination_ops n (lines_of (solve_rows M r))) op }
{}
