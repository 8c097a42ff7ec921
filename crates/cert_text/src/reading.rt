// The certificate of a text.

ghost use Rattle.std.specs.Prelude.{◌≡◌, ◌≤◌, ◌^◌, length, IfOk};
ghost use Rattle.cert_text_law.specs.Told.{blank};
ghost use Rattle.cert_text.specs.Drafts.{told};
ghost use Rattle.cert_text.specs.Filled.{Fills};
ghost use Rattle.cert_text_law.specs.Reading.{read_of, Reads};
ghost use Rattle.cert_grammar.specs.Text.{certificate_text};
ghost use Rattle.cert_grammar.specs.Writable.{IsWritable};

use crate::draft::Draft;
use cert_grammar::CertStop;
use cert_lines::CertLines;
use certificate_law::Certificate;
use program_data::Program;
use std::alloc::Global;

/// What the lines of a text tell is put into a draft, up to END with nothing behind it.
fn put_lines(
    alloc: Global,
    p: &Program,
    text: &[u8],
    line: u32,
    draft: &mut Draft,
) -> Result<(), CertStop>
    requires text { length text.now ≤ 2 ^ 30 }
    requires line { line ≤ 2 ^ 31 }
    requires draft { told draft.old ≡ blank (length p.now.columns) }
    ensures { Fills (read_of p.now line text.now) draft.new result }
{
    let columns = p.columns();
    let rows = p.rows();
    let mut lines = CertLines::start(p, text, line);
    'lines: while let Some(item) = lines.next()? {
        draft.put(alloc, columns, rows, item)?;
    }
    Ok(())
}

/// The certificate of a text for a program. `line` is the number of the text's first line. The text is the one that
/// `write_certificate` writes of it, and its lengths, columns and signs are those of a certificate of the program.
///
/// # Errors
/// `Fault` with the first line at which the text leaves the grammar and how, or `Memory`.
pub fn read_certificate(
    alloc: Global,
    p: &Program,
    text: &[u8],
    line: u32,
) -> Result<Certificate, CertStop>
    requires text { length text.now ≤ 2 ^ 30 }
    requires line { line ≤ 2 ^ 31 }
    ensures exact { Reads (read_of p.now line text.now) result }
    ensures text { IfOk result (λ c. certificate_text p.now c ≡ text.now) }
    ensures writable { IfOk result (λ c. IsWritable p.now c) }
{
    let mut draft = Draft::start(alloc, p.columns())?;
    put_lines(alloc, p, text, line, &mut draft)?;
    let certificate = draft.finish()?;
    Ok(certificate)
}
