//! How a program is decided, and what is written for it.

ghost use Rattle.std.specs.Prelude.{◌≡◌, ◌≤◌, IfOk};
ghost use Rattle.certificate_law.specs.Good.{IsGood};
ghost use Rattle.cert_grammar.specs.Writable.{IsWritable};
ghost use Rattle.branching_law.specs.Search.{most_boxes};
ghost use Rattle.cert_check_law.specs.Check.{answer, checked};
ghost use Rattle.qp_answers.specs.Outcomes.{told_by, IsFoundDue};
ghost use Rattle.qp_engine.specs.Solving.{IsSolveDue};
ghost use Rattle.qp_engine.specs.Runs.{HasSolved, IsVerdict};

use branching::{Limits, decide};
use cert_check::check;
use cert_check_law::{Checked, good_fails_no_test};
use cert_text::write_certificate;
use certificate_law::Certificate;
use frac_core::{Memory, Refused};
use program_data::Program;
use qp_answers::{Answer, Status, check_text, show_numbers, stopped};
use qp_words::Order;
use std::alloc::Global;

/// The budgets of an order.
pub(crate) fn limits_of(order: Order) -> Limits
    ensures bases { result.bases ≡ order.bases }
    ensures boxes { result.boxes ≡ order.boxes }
{
    Limits {
        bases: order.bases,
        boxes: order.boxes,
    }
}

/// What the check of a good certificate withholds its verdict for; None where it is accepted.
pub(crate) fn check_withheld(
    alloc: Global,
    program: &Program,
    certificate: &Certificate,
) -> Result<Option<Refused>, Memory>
    requires fits { IsWritable program.now certificate.now }
    requires good { IsGood program.now certificate.now }
    ensures { IfOk result (λ refused. answer (checked program.now certificate.now) ≡ told_by refused) }
{
    good_fails_no_test();
    let _rows = program.rows();
    match check(alloc, program, certificate)? {
        Checked::Accepted => Ok(None),
        Checked::Past(refused) => Ok(Some(refused)),
        Checked::Rejected { .. } => unreachable!(),
    }
}

/// The answer that is a found certificate. It is checked before it is written; where the check is withheld, its text follows.
#[tactic(auto, using(crate::proofs::Solved::solved_by))]
fn found(alloc: Global, program: &Program, certificate: &Certificate) -> Result<Answer, Memory>
    requires fits { IsWritable program.now certificate.now }
    requires good { IsGood program.now certificate.now }
    ensures due { IfOk result (IsFoundDue program.now certificate.now) }
    ensures holds { IfOk result (λ a. a.status ≡ Status.Done → HasSolved program.now a.text) }
    ensures verdict { IfOk result (λ a. IsVerdict a.status) }
{
    match check_withheld(alloc, program, certificate)? {
        None => {
            let mut text = Vec::new(alloc);
            write_certificate(program, certificate, &mut text)?;
            Ok(Answer::of(Status::Done, text))
        }
        Some(refused) => {
            let mut text = check_text(alloc, refused)?;
            write_certificate(program, certificate, &mut text)?;
            Ok(Answer::of(Status::Withheld, text))
        }
    }
}

/// The answer to a program that is to be decided within budgets.
pub(crate) fn solved(alloc: Global, program: &Program, limits: Limits) -> Result<Answer, Memory>
    requires { limits.boxes ≤ most_boxes }
    ensures due { IfOk result (IsSolveDue program.now limits.bases limits.boxes) }
    ensures holds { IfOk result (λ a. a.status ≡ Status.Done → HasSolved program.now a.text) }
    ensures verdict { IfOk result (λ a. IsVerdict a.status) }
{
    match decide(alloc, program, limits) {
        Ok(certificate) => {
            show_numbers(program, &certificate);
            found(alloc, program, &certificate)
        }
        Err(stop) => stopped(alloc, program, limits.bases, &stop),
    }
}
