//! That a search within two budgets has one ending.

ghost use Rattle.std.specs.Prelude.{◌≡◌, ◌⊎◌, ℕ};
ghost use Rattle.program_law.specs.Program.{Program, IsProgram};
ghost use Rattle.certificate_law.specs.declared.Certificate.{Certificate};
ghost use Rattle.branching_law.specs.Found.{Reduced};
ghost use Rattle.branching.specs.declared.stops.DecideStop.{DecideStop};
ghost use Rattle.branching.specs.Decided.{IsFound, IsReducedBy};
ghost use Rattle.branching.specs.Stops.{IsOfBudget, IsDecideStopOf};

/// Where no operation of the squares' calculation is past, a program has within two budgets a certificate, and only one, or a stop for
/// want of a budget, and only one; never both. So what is said of a program is determined, want of memory and operations that are past
/// aside.
pub fn programs_have_one_ending()
    ensures some { (p : Program) (bases boxes : ℕ) (reduced : Reduced) → IsProgram p → IsReducedBy p reduced →
        ((c : Certificate) × IsFound p bases boxes c) ⊎ ((stop : DecideStop) × IsOfBudget stop × IsDecideStopOf p bases boxes stop) }
    ensures certificate { (p : Program) (bases boxes : ℕ) (c d : Certificate) → IsProgram p → IsFound p bases boxes c →
        IsFound p bases boxes d → c ≡ d }
    ensures stop { (p : Program) (bases boxes : ℕ) (one other : DecideStop) → IsProgram p → IsOfBudget one → IsOfBudget other →
        IsDecideStopOf p bases boxes one → IsDecideStopOf p bases boxes other → one ≡ other }
    ensures not_both { (p : Program) (bases boxes : ℕ) (c : Certificate) (stop : DecideStop) → IsProgram p → IsFound p bases boxes c →
        IsOfBudget stop → IsDecideStopOf p bases boxes stop → ⊥ }
{}
