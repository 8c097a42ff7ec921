//! The check of a certificate line by line: what each line leaves of it, and the law that all lines together leave what the checking
//! calculation finds.
#![tactic(auto)]

ghost use Rattle.std.specs.Prelude.{◌≡◌};
ghost use Rattle.program_law.specs.Program.{Program};
ghost use Rattle.certificate_law.specs.declared.Certificate.{Certificate};
ghost use Rattle.certificate_law.specs.Fits.{Fits};
ghost use Rattle.cert_check_law.specs.Check.{checked};
ghost use Rattle.cert_text_law.specs.CertificateItems.{certificate_items};
ghost use Rattle.check_progress.specs.Progress.{start, after_all, found};

/// The lines of a certificate, one after another, leave what its checking calculation finds.
#[tactic(auto, using(crate::proofs::LineByLine::line_by_line))]
pub fn lines_leave_the_calculation()
    ensures { (p : Program) (c : Certificate) → Fits p c →
        found (after_all p (start p) (certificate_items c)) ≡ checked p c }
{}
