// Reading a program from a text.

ghost use Rattle.std.specs.Prelude.{◌≡◌, ◌≤◌, ◌^◌, true, length, IfOk};
ghost use Rattle.std.specs.List.{list_any};
ghost use Rattle.mps_grammar.specs.Told.{is_columns};
ghost use Rattle.mps_grammar.specs.Programs.{end_fault};
ghost use Rattle.mps_grammar.specs.Reading.{finished, read_of};
ghost use Rattle.mps_lines.specs.Reading.{IsPlaceIn, spot_of};
ghost use Rattle.mps_assembly.specs.Sound.{IsSound};
ghost use Rattle.mps_reader.specs.Reading.{Reads};

use mps_assembly::finish;
use mps_lines::{Place, ReadStop, told};
use mps_notes::Draft;
use program_data::Program;
use std::alloc::Global;

/// The program of what is told, and the place behind its lines.
fn finished(alloc: Global, draft: &Draft, place: Place) -> Result<(Program, Place), ReadStop>
    requires sound { IsSound draft.now }
    requires columns { list_any is_columns draft.now.sections ≡ true }
    ensures reads { Reads (finished draft.now (spot_of place) (end_fault draft.now)) result }
    ensures place { IfOk result (λ r. r.1 ≡ place) }
{
    let program = finish(alloc, draft)?;
    Ok((program, place))
}

/// The program that the lines of a text up to ENDATA stand for, and the place behind them.
///
/// # Errors
/// The fault of the first line that has one, or else the fault that all of them make together; or `Memory`.
pub fn read(alloc: Global, text: &[u8]) -> Result<(Program, Place), ReadStop>
    requires { length text.now ≤ 2 ^ 30 }
    ensures reads { Reads (read_of text.now) result }
    ensures place { IfOk result (λ r. IsPlaceIn text.now r.1) }
{
    let (draft, place) = told(alloc, text)?;
    finished(alloc, &draft, place)
}
