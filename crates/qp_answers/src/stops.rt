//! The text of a search that stops.

ghost use Rattle.std.specs.Prelude.{◌≡◌, IfOk};
ghost use Rattle.branching.specs.Stops.{HasPathIn};
ghost use Rattle.qp_answers.specs.Outcomes.{IsStopDue};

use crate::answers::Answer;
use crate::paths::path_text;
use crate::status::Status;
use crate::withheld::{bases_text, boxes_text, past_text};
use branching::DecideStop;
use frac_core::Memory;
use program_data::Program;
use std::alloc::Global;

/// The answer to a program of which no certificate is found within the budgets, of which this is the one of strict steps: the text of
/// the verdict that is withheld.
///
/// # Errors
///
/// Memory, also where that is why the search stopped.
pub fn stopped(
    alloc: Global,
    program: &Program,
    bases: u64,
    stop: &DecideStop,
) -> Result<Answer, Memory>
    requires { HasPathIn program.now stop.now }
    ensures due { IfOk result (IsStopDue program.now bases stop.now) }
    ensures withheld { IfOk result (λ a. a.status ≡ Status.Withheld) }
{
    match stop {
        DecideStop::Bases(path, site) => {
            let lines = path_text(alloc, program, path)?;
            let text = bases_text(alloc, bases, &lines, site)?;
            Ok(Answer::of(Status::Withheld, text))
        }
        DecideStop::Past(path, site, refused) => {
            let lines = path_text(alloc, program, path)?;
            let text = past_text(alloc, &lines, site, *refused)?;
            Ok(Answer::of(Status::Withheld, text))
        }
        DecideStop::Boxes(boxes) => {
            let text = boxes_text(alloc, *boxes)?;
            Ok(Answer::of(Status::Withheld, text))
        }
        DecideStop::Memory => Err(Memory),
    }
}
