//! The calculation that checks a certificate, and the laws that join it to good certificates.
#![tactic(auto)]

ghost use Rattle.std.specs.Prelude.{◌≡◌, All, List, Ok};
ghost use Rattle.rational.specs.Rational.{ℚ};
ghost use Rattle.frac_core.specs.Dot as fractions;
ghost use Rattle.frac_core.specs.Parts.{max_part};
ghost use Rattle.program_law.specs.Program.{Program, IsProgram};
ghost use Rattle.program_law.specs.Verdict.{IsTrueOf};
ghost use Rattle.certificate_law.specs.declared.Certificate.{Certificate};
ghost use Rattle.certificate_law.specs.Good.{IsGood, verdict_of};
ghost use Rattle.cert_check_law.specs.Chain.{answered, NoTestFails};
ghost use Rattle.cert_check_law.specs.Dot.{dot_of};
ghost use Rattle.cert_check_law.specs.Check.{checked};
ghost use Rattle.cert_check_law.specs.Entries.{Holds, EndsAs};
ghost use Rattle.cert_check_law.specs.CheckList.{check_list};
ghost use Rattle.certificate_law.specs.Fits.{Fits};

use frac_core::Refused;

/// What ends a calculation before its end: an operation whose result doesn't fit, or a test that fails.
#[derive(Clone, Copy)]
pub enum Event {
    Past(Refused),
    Failed { rule: u8, place: u32 },
}

/// The answer of a check.
#[derive(Clone, Copy)]
pub enum Checked {
    Accepted,
    Rejected { rule: u8, place: u32 },
    Past(Refused),
}

/// The calculation ends with the event of the first entry of its list that is past or doesn't hold, and without an event where
/// there is none.
pub fn check_ends_with_its_first_event()
    ensures { (p : Program) (c : Certificate) → EndsAs (check_list p c) (checked p c) }
{}

/// All tests of the list hold where the certificate is good, and nowhere else, whichever of its operations are past.
pub fn tests_hold_where_good()
    ensures good { (p : Program) (c : Certificate) → IsProgram p → Fits p c → IsGood p c → All Holds (check_list p c) }
    ensures no_other { (p : Program) (c : Certificate) → IsProgram p → Fits p c → All Holds (check_list p c) → IsGood p c }
{}

/// The products of vectors in it are those of fractions.
pub fn products_are_those_of_fractions()
    ensures { (xs ys : List ℚ) → answered (fractions.dot_of max_part xs ys) ≡ dot_of xs ys }
{}

/// A calculation without an event belongs to a good certificate.
pub fn no_event_is_good()
    ensures { (p : Program) (c : Certificate) → IsProgram p → Fits p c → checked p c ≡ Ok tt → IsGood p c }
{}

/// The tests of a good certificate all hold: its first event, if there is one, is a past operation.
pub fn good_fails_no_test()
    ensures { (p : Program) (c : Certificate) → IsProgram p → Fits p c → IsGood p c → NoTestFails (checked p c) }
{}

/// A calculation without an event belongs to a certificate whose verdict is true of all points.
pub fn no_event_is_true()
    ensures { (p : Program) (c : Certificate) → IsProgram p → Fits p c → checked p c ≡ Ok tt → IsTrueOf p (verdict_of c) }
{}
