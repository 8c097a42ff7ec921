//! Samples: programs that are made, decided and checked.

ghost use Rattle.std.specs.Prelude.{◌≡◌, ◌++◌, IfOk};
ghost use Rattle.certificate_law.specs.Good.{IsGood, verdict_of};
ghost use Rattle.cert_grammar.specs.Writable.{IsWritable};
ghost use Rattle.program_law.specs.Verdict.{IsTrueOf};
ghost use Rattle.qp_engine.specs.Sampling.{sample, sample_text, IsSampleDue, IsShownDue, HasSampled};
ghost use Rattle.qp_engine.specs.Runs.{IsVerdict};
ghost use Rattle.qp_words.specs.Orders.{IsInRange};

use crate::solving::{check_withheld, limits_of};
use branching::decide;
use certificate_law::Certificate;
use frac_core::{Frac, Memory};
use program_data::Program;
use qp_answers::{Answer, Status, check_text, stopped};
use qp_words::Order;
use sample_make::laws::true_verdicts_are_optimal;
use std::alloc::Global;

/// The lines of a sample, whose least value this is.
fn sample_text(
    alloc: Global,
    order: Order,
    program: &Program,
    value: Frac,
) -> Result<Vec<u8>, Memory>
    ensures { IfOk result (λ v. v.items ≡ sample_text order program.now value) }
{
    let Order { kind, number, .. } = order;
    let rows = program.rows();
    let columns = program.columns();
    let text = format!(in alloc;
        "SAMPLE {kind} {number}\nROWS {rows}\nCOLUMNS {columns}\nOPTIMAL\nVALUE {value}\n"
    )?;
    Ok(text.into_bytes())
}

/// The answer to a sample of which a certificate is found, and checked.
#[tactic(auto, using(crate::proofs::Shown::past_shown))]
fn shown(
    alloc: Global,
    order: Order,
    program: &Program,
    certificate: &Certificate,
) -> Result<Answer, Memory>
    requires sample { program.now ≡ sample order }
    requires fits { IsWritable program.now certificate.now }
    requires good { IsGood program.now certificate.now }
    ensures due { IfOk result (IsShownDue order certificate.now) }
    ensures holds { IfOk result (λ a. a.status ≡ Status.Done → HasSampled order a.text) }
    ensures verdict { IfOk result (λ a. IsVerdict a.status) }
{
    if let Some(refused) = check_withheld(alloc, program, certificate)? {
        let text = check_text(alloc, refused)?;
        return Ok(Answer::of(Status::Withheld, text));
    }
    true_verdicts_are_optimal();
    match certificate {
        Certificate::Optimal(_, value, _, _) => {
            let text = sample_text(alloc, order, program, *value)?;
            Ok(Answer::of(Status::Done, text))
        }
        _ => unreachable!(),
    }
}

/// The answer to a sample, by its program.
fn decided(alloc: Global, order: Order, program: &Program) -> Result<Answer, Memory>
    requires range { IsInRange order }
    requires sample { program.now ≡ sample order }
    ensures due { IfOk result (IsSampleDue order) }
    ensures holds { IfOk result (λ a. a.status ≡ Status.Done → HasSampled order a.text) }
    ensures verdict { IfOk result (λ a. IsVerdict a.status) }
{
    let _columns = program.columns();
    let limits = limits_of(order);
    match decide(alloc, program, limits) {
        Ok(certificate) => shown(alloc, order, program, &certificate),
        Err(stop) => stopped(alloc, program, limits.bases, &stop),
    }
}

/// The answer to the order of a sample.
pub(crate) fn sampled(alloc: Global, order: Order) -> Result<Answer, Memory>
    requires { IsInRange order }
    ensures due { IfOk result (IsSampleDue order) }
    ensures holds { IfOk result (λ a. a.status ≡ Status.Done → HasSampled order a.text) }
    ensures verdict { IfOk result (λ a. IsVerdict a.status) }
{
    let program = sample_make::sample(alloc, order.kind, order.number)?;
    decided(alloc, order, &program)
}
