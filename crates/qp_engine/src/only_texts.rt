//! That one text is due.

ghost use Rattle.program_law.specs.Program.{IsProgram, Program};
ghost use Rattle.qp_engine.specs.Due.{IsDue};
ghost use Rattle.qp_engine.specs.OnlyTexts.{IsPastDue, IsPastOf};
ghost use Rattle.qp_answers.specs.Said.{Said};
ghost use Rattle.qp_engine.specs.Solving.{IsSolveDue};
ghost use Rattle.qp_words.specs.declared.order.Order.{Order};
ghost use Rattle.std.specs.Prelude.{◌≡◌, ◌⊎◌, ℕ, List};

/// Of a program, and so of an order and its input, only one status with one text is due, unless a text is withheld for an operation of the
/// search that is past.
pub fn one_text_is_due()
    ensures program { (p : Program) (bases boxes : ℕ) (one other : Said) → IsProgram p → IsSolveDue p bases boxes one →
        IsSolveDue p bases boxes other → (one ≡ other) ⊎ IsPastDue p bases boxes one ⊎ IsPastDue p bases boxes other }
    ensures input { (order : Order) (input : List ℕ) (one other : Said) → IsDue order input one → IsDue order input other →
        (one ≡ other) ⊎ IsPastOf order input one ⊎ IsPastOf order input other }
{}
