//! Rounding, and the trees below it.

ghost use Rattle.std.specs.Prelude.{◌≡◌, ◌+◌, ◌≤◌, ℕ, ℤ, List, [], ◌∷◌, ◌++◌, length, Option};
ghost use Rattle.rational.specs.Rational.{ℚ};
ghost use Rattle.program_law.specs.Region.{Region, IsCrossedRegion, bounds_at};
ghost use Rattle.program_law.specs.Program.{Program, bounds};
ghost use Rattle.certificate_law.specs.declared.Node.{Node};
ghost use Rattle.certificate_law.specs.Nodes.{IsOneTree};
ghost use Rattle.certificate_law.specs.Tree.{IsGoodTree};
ghost use Rattle.branching_law.specs.declared.Turn.{Turn};
ghost use Rattle.branching_law.specs.Paths.{region_behind, region_of, below, above};
ghost use Rattle.branching_law.specs.Rounding.{IsMarkedAt, IsFractional, HasFractionalBound, IsBroken, IsRoundingTurn, AreRoundingTurns, IsRounding, IsRoundingTo, under_rounding};
ghost use Rattle.branching_law.specs.Search.{branches};

/// A turn that is due goes on with rounding. A program has at most one rounding; it has at most two turns for each column.
pub fn rounding_is_determined()
    ensures step { (p : Program) (region : Region) (turns : List Turn) (t : Turn) → AreRoundingTurns p region turns →
        IsRoundingTurn p (region_behind region turns) t → AreRoundingTurns p region (turns ++ t ∷ []) }
    ensures one { (p : Program) (turns others : List Turn) → IsRounding p turns → IsRounding p others → turns ≡ others }
    ensures few { (p : Program) (turns : List Turn) → AreRoundingTurns p (bounds p) turns →
        length turns ≤ length p.columns + length p.columns }
{}

/// One turn of rounding's loop. It starts before the first column. A low bound that isn't whole is raised, and is whole then; after
/// it a high one that isn't is lowered, and the column is done; so is one without such bounds. Rounding has ended where all columns
/// are done, or the region is crossed.
pub fn rounding_goes_on()
    ensures starts { (p : Program) → IsRoundingTo p [] 0 }
    ensures low { (p : Program) (turns : List Turn) (j : ℕ) (k : ℤ) → IsRoundingTo p turns j → IsMarkedAt p j →
        (IsCrossedRegion (region_of p turns) → ⊥) → IsBroken (bounds_at (region_of p turns) j).low k →
        IsRoundingTo p (turns ++ above j k ∷ []) j
        × (¬ (IsFractional (bounds_at (region_of p (turns ++ above j k ∷ [])) j).low)) }
    ensures high { (p : Program) (turns : List Turn) (j : ℕ) (k : ℤ) → IsRoundingTo p turns j → IsMarkedAt p j →
        (IsCrossedRegion (region_of p turns) → ⊥) → ¬ (IsFractional (bounds_at (region_of p turns) j).low) →
        IsBroken (bounds_at (region_of p turns) j).high k → IsRoundingTo p (turns ++ below j k ∷ []) (j + 1) }
    ensures next { (p : Program) (turns : List Turn) (j : ℕ) → IsRoundingTo p turns j →
        ¬ (HasFractionalBound p (region_of p turns) j) → IsRoundingTo p turns (j + 1) }
    ensures ends { (p : Program) (turns : List Turn) → IsRoundingTo p turns (length p.columns) → IsRounding p turns }
    ensures crossed { (p : Program) (turns : List Turn) (j : ℕ) → IsRoundingTo p turns j → IsCrossedRegion (region_of p turns) →
        IsRounding p turns }
{}

/// Below the rounding branches of a program a good tree is good on the program's bounds, and one whole tree is one. Each turn of
/// rounding is a branch more.
pub fn trees_stand_under_rounding()
    ensures good { (p : Program) (v : Option ℚ) (turns : List Turn) (nodes : List Node) → AreRoundingTurns p (bounds p) turns →
        IsGoodTree p v (region_of p turns) nodes → IsGoodTree p v (bounds p) (under_rounding turns nodes) }
    ensures tree { (turns : List Turn) (nodes : List Node) → IsOneTree nodes → IsOneTree (under_rounding turns nodes) }
    ensures count { (turns : List Turn) (nodes : List Node) → branches (under_rounding turns nodes) ≡ length turns + branches nodes }
{}
