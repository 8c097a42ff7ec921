//! The text that is to be written, and the status that comes with it.

ghost use Rattle.std.specs.Prelude.{◌≡◌, ◌++◌, IfOk, string_bytes};
ghost use Rattle.qp_answers.specs.Said.{said, HasText};
ghost use Rattle.qp_answers.specs.Answers.{usage_due, file_due, answer_due, certificate_word};
ghost use Rattle.qp_answers.specs.declared.status.Status.TheVariants as statuses;

use crate::status::Status;
use crate::withheld::check_text;
use cert_check_law::Checked;
use cert_text::CertKind;
use frac_core::Memory;
use std::alloc::Global;
use std::marker::Model;

/// A text, and how a run that writes it ends.
#[derive(Drop)]
pub struct Answer {
    text: Vec<u8>,
    status: Status,
}

impl Model for Answer {
    ghost use Rattle.qp_answers.specs.Said.{Said, HasText};

    ghost Value = { Said };

    ghost view = { λ a. record { status = a.status; text = a.text.items } };

    ghost invariant = { λ a. HasText a.status };
}

impl Answer {
    pub fn of(status: Status, text: Vec<u8>) -> Answer
        requires { HasText status }
        ensures { result ≡ said status text.items }
    {
        Answer { text, status }
    }

    pub fn text(&self) -> &[u8]
        ensures { result.now ≡ self.now.text }
    {
        &self.text
    }

    pub fn status(&self) -> Status
        ensures status { result ≡ self.now.status }
        ensures has_text { HasText result }
    {
        self.status
    }
}

/// The answer to words that aren't taken.
pub fn usage(alloc: Global) -> Result<Answer, Memory>
    ensures { IfOk result (λ a. a ≡ usage_due) }
{
    let text = String::from_str(
        alloc,
        "usage: qp solve|check|write|sample [--bases N] [--boxes N] [--kind K] [--number N]\n",
    )?;
    Ok(Answer::of(Status::Usage, text.into_bytes()))
}

/// The answer to an input that isn't taken, by the line and the kind of its fault.
pub fn refused(alloc: Global, line: usize, kind: &str) -> Result<Answer, Memory>
    ensures { IfOk result (λ a. a ≡ file_due line kind.now) }
{
    let text = format!(in alloc; "FILE {line} {kind}\n")?;
    Ok(Answer::of(Status::FileRefused, text.into_bytes()))
}

/// The printed word of a certificate's fault.
pub fn certificate_word(kind: CertKind) -> &'static str
    ensures { result.now ≡ certificate_word kind }
{
    match kind {
        CertKind::CertEnd => "CertEnd",
        CertKind::CertAfter => "CertAfter",
        CertKind::CertLine => "CertLine",
        CertKind::CertName => "CertName",
        CertKind::CertPast => "CertPast",
        CertKind::CertNumber => "CertNumber",
        CertKind::CertOrder => "CertOrder",
        CertKind::CertMany => "CertMany",
    }
}

/// The answer of a check.
pub fn told(alloc: Global, checked: Checked) -> Result<Answer, Memory>
    ensures { IfOk result (λ a. a ≡ answer_due checked) }
{
    match checked {
        Checked::Accepted => {
            let text = String::from_str(alloc, "ACCEPTED\n")?;
            Ok(Answer::of(Status::Done, text.into_bytes()))
        }
        Checked::Rejected { rule, place } => {
            let text = format!(in alloc; "REJECTED {rule} {place}\n")?;
            Ok(Answer::of(Status::Rejected, text.into_bytes()))
        }
        Checked::Past(refused) => {
            let text = check_text(alloc, refused)?;
            Ok(Answer::of(Status::Withheld, text))
        }
    }
}
