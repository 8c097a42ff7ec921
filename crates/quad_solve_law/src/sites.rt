//! The sites of a region's calculation.

ghost use Rattle.std.specs.Prelude.{◌≡◌, ◌⊎◌, ◌≤◌, ◌+◌, ◌^◌, ℕ, All, List, Ok, Err, length};
ghost use Rattle.rational.specs.Rational.{ℚ};
ghost use Rattle.rational.specs.Vectors.{IsSemidefinite};
ghost use Rattle.frac_core.specs.Parts.{max_part};
ghost use Rattle.frac_core.specs.declared.fractions.Refused.{Refused};
ghost use Rattle.frac_core.specs.Operations.{IsFirstPast, IsWithin};
ghost use Rattle.program_law.specs.Region.{Region};
ghost use Rattle.program_law.specs.Program.{Program, IsProgram};
ghost use Rattle.cert_check_law.specs.declared.Event.{Event};
ghost use Rattle.cert_check_law.specs.declared.Event.TheVariants.{Past};
ghost use Rattle.cert_check_law.specs.Value.{value_of};
ghost use Rattle.equational_law.specs.Form.{width, form_of};
ghost use Rattle.quad_solve_law.specs.Answer.{Answer, IsAnswer};
ghost use Rattle.quad_solve_law.specs.Operations.{value_ops};
ghost use Rattle.quad_solve_law.specs.Sites.{IsFirstSpent, IsReached, IsSpentAt, RegionSite};

/// A budget can be used up at a reached site only where it is at least two less than 2^(2n + m + 1), for the n columns and m
/// equations of the region's form.
pub fn large_budgets_are_enough()
    ensures { (p : Program) (region : Region) (budget : ℕ) (site : RegionSite) → IsProgram p → length region ≡ length p.columns →
        IsSemidefinite (length p.columns) p.pairs → IsReached p region site → IsSpentAt p region budget site →
        budget + 2 ≤ 2 ^ (width p region + width p region + length (form_of p region).matrix + 1) }
{}

/// Where Q is semidefinite, a region has an answer within a budget, or a first site at which the budget is used up; never both, and
/// only one such site.
pub fn budgets_are_used_up_at_one_site_first()
    ensures one { (p : Program) (region : Region) (budget : ℕ) (one other : RegionSite) → IsProgram p → length region ≡ length p.columns →
        IsSemidefinite (length p.columns) p.pairs → IsFirstSpent p region budget one → IsFirstSpent p region budget other → one ≡ other }
    ensures not_both { (p : Program) (region : Region) (budget : ℕ) (site : RegionSite) (answer : Answer) → IsProgram p →
        length region ≡ length p.columns → IsSemidefinite (length p.columns) p.pairs → IsFirstSpent p region budget site →
        IsAnswer p region budget answer → ⊥ }
    ensures some { (p : Program) (region : Region) (budget : ℕ) → IsProgram p → length region ≡ length p.columns →
        IsSemidefinite (length p.columns) p.pairs →
        ((answer : Answer) × IsAnswer p region budget answer) ⊎ ((site : RegionSite) × IsFirstSpent p region budget site) }
{}

/// The calculation of a point's value ends with the first of its operations that is past, where there is one; nothing else
/// ends it.
pub fn value_ends_with_its_first_refusal()
    ensures value { (p : Program) (x : List ℚ) (v : ℚ) → value_of p x ≡ Ok v → All (IsWithin max_part) (value_ops p x) }
    ensures refusal { (p : Program) (x : List ℚ) (e : Event) → value_of p x ≡ Err e →
        (r : Refused) × (e ≡ Past r) × IsFirstPast max_part (value_ops p x) r }
{}
