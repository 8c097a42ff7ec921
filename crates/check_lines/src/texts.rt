// The check of a text.

ghost use Rattle.std.specs.Prelude.{◌≡◌, ◌≤◌, ◌^◌, Ok, length};
ghost use Rattle.certificate_law.specs.declared.Certificate.{Certificate};
ghost use Rattle.certificate_law.specs.Good.{IsGood, verdict_of};
ghost use Rattle.program_law.specs.Verdict.{IsTrueOf};
ghost use Rattle.cert_text_law.specs.Reading.{read_of};
ghost use Rattle.check_lines.specs.Texts.{IsTextAnswer};

use crate::checks::Checking;
use cert_check_law::Checked;
use cert_grammar::CertStop;
use cert_lines::CertLines;
use check_nodes::answer;
use program_data::Program;
use std::alloc::Global;

/// The lines are taken one after another.
fn text_checked(alloc: Global, p: &Program, text: &[u8], line: u32) -> Result<Checked, CertStop>
    requires text { length text.now ≤ 2 ^ 30 }
    requires line { line ≤ 2 ^ 31 }
    ensures { IsTextAnswer p.now (read_of p.now line text.now) result }
{
    let mut checking = Checking::start(alloc, p)?;
    let mut lines = CertLines::start(p, text, line);
    'lines: while let Some(item) = lines.next()? {
        checking.put(p, item)?;
    }
    Ok(answer(checking.found()))
}

/// Checks the certificate of a text line by line, and keeps none of its tree. `line` is the number of the text's first line. The answer is
/// that of `check` on the certificate that the text says. All memory is taken at the start.
///
/// # Errors
/// `Fault` with the first line at which the text leaves the grammar and how, whatever was found before that line; or `Memory`.
#[tactic(auto, using(crate::proofs::TextFound::text_accepted))]
pub fn check_text(alloc: Global, p: &Program, text: &[u8], line: u32) -> Result<Checked, CertStop>
    requires text { length text.now ≤ 2 ^ 30 }
    requires line { line ≤ 2 ^ 31 }
    ensures exact { IsTextAnswer p.now (read_of p.now line text.now) result }
    ensures accepted { result ≡ Ok Checked.Accepted → (c : Certificate) × (read_of p.now line text.now ≡ Ok c) × IsGood p.now c × IsTrueOf p.now (verdict_of c) }
{
    let _columns = p.columns();
    text_checked(alloc, p, text, line)
}
