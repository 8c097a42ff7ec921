//! Laws of what is due.

ghost use Rattle.cert_grammar.specs.Text.{certificate_text};
ghost use Rattle.certificate_law.specs.declared.Certificate.{Certificate};
ghost use Rattle.cert_check_law.specs.Check.{answer, checked};
ghost use Rattle.cert_check_law.specs.declared.Checked.TheVariants.{Accepted};
ghost use Rattle.mps_grammar.specs.Reading.{Spot, read_of, rest_of};
ghost use Rattle.mps_reader.specs.Appended.{EndsInLineFeed};
ghost use Rattle.program_law.specs.Program.{IsProgram, Program};
ghost use Rattle.qp_engine.specs.Due.{IsDue, longest};
ghost use Rattle.qp_answers.specs.Answers.{answer_due};
ghost use Rattle.qp_engine.specs.Enough.{AreManyBases, AreManyBoxes, HasRoom};
ghost use Rattle.qp_answers.specs.Said.{Said};
ghost use Rattle.qp_engine.specs.Sampling.{IsSampleDue, IsSampled, sample};
ghost use Rattle.qp_answers.specs.Outcomes.{IsReadable};
ghost use Rattle.qp_engine.specs.Solving.{IsSolved, IsSolveDue};
ghost use Rattle.qp_answers.specs.declared.status.Status.TheVariants as statuses;
ghost use Rattle.qp_words.specs.declared.order.Order.{Order};
ghost use Rattle.qp_words.specs.declared.order.Task.TheVariants.{Check, Solve};
ghost use Rattle.std.specs.Prelude.{◌≡◌, ◌≤◌, ◌↔◌, ◌++◌, ℕ, List, None, Ok, length};

/// A program is decided, and nothing else is due: where no operation of its squares is past, nor one at a site that a search reaches,
/// the budget of strict steps is at least 2^(2n + m + 1) for the form of each reached region, and all marked columns have both bounds
/// with no more choices of whole numbers within them than the budget of branches.
pub fn large_budgets_decide_a_program()
    ensures { (p : Program) (bases boxes : ℕ) (s : Said) → IsProgram p → HasRoom p bases → AreManyBases p bases → AreManyBoxes p boxes →
        IsSolveDue p bases boxes s → IsSolved p bases boxes s }
{}

/// Behind the file of its program, the text of a certificate is accepted by `check`, and nothing else is due: where the file ends in a
/// line feed with nothing but blank lines and comments behind the program, the text is read as the certificate, no event of the
/// checking calculation comes on it, and both together aren't too long.
pub fn written_certificates_are_accepted()
    ensures { (order : Order) (input : List ℕ) (p : Program) (behind : Spot) (c : Certificate) (s : Said) → order.task ≡ Check →
        EndsInLineFeed input → read_of input ≡ Ok (p, behind) → rest_of input behind ≡ None →
        IsReadable p c → answer (checked p c) ≡ Accepted → length (input ++ certificate_text p c) ≤ longest →
        IsDue order (input ++ certificate_text p c) s ↔ (s ≡ answer_due Accepted) }
{}

/// What `solve` prints of a file that it decides is accepted by `check` behind that file, and nothing else is due: where the file ends in
/// a line feed, and both together aren't too long.
pub fn solutions_are_accepted()
    ensures { (solve check : Order) (input : List ℕ) (solved s : Said) → solve.task ≡ Solve → check.task ≡ Check →
        EndsInLineFeed input → IsDue solve input solved → solved.status ≡ statuses.Done →
        length (input ++ solved.text) ≤ longest →
        IsDue check (input ++ solved.text) s ↔ (s ≡ answer_due Accepted) }
{}

/// A sample is decided, and nothing else is due, under the same premises on its own program.
pub fn large_budgets_decide_a_sample()
    ensures { (order : Order) (s : Said) → HasRoom (sample order) order.bases → AreManyBases (sample order) order.bases →
        AreManyBoxes (sample order) order.boxes → IsSampleDue order s → IsSampled order s }
{}
