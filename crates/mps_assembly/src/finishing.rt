// From what the lines of a file tell to its program.

ghost use Rattle.std.specs.Prelude.{◌≡◌, ◌<◌, ◌≤◌, [], true, None, Some, IsSome, length, IfOk, OnOk};
ghost use Rattle.std.specs.List.{list_any};
ghost use Rattle.program_law.specs.Program.{most_rows};
ghost use Rattle.named_things.specs.Named.{names_of};
ghost use Rattle.mps_grammar.specs.Told.{is_columns, program_rows, objective_in};
ghost use Rattle.mps_grammar.specs.Programs.{first_line, is_range_past, end_fault, program_of};
ghost use Rattle.named_things.specs.Names.{name_at};
ghost use Rattle.mps_assembly.specs.Assembled.{assembled};
ghost use Rattle.mps_assembly.specs.Built.{rows_built};
ghost use Rattle.mps_tables.specs.ByRow.{rights_of};
ghost use Rattle.mps_assembly.specs.Finishing.{Finishes};
ghost use Rattle.mps_assembly.specs.Sound.{IsSound};

use crate::building::{add_columns, add_rows, objective_row};
use crate::naming::name_of;
use crate::numbers::{set_entries, set_pairs};
use frac_core::{Frac, Memory, Vector};
use mps_grammar::FaultKind;
use mps_lines::ReadStop;
use mps_notes::Draft;
use mps_tables::{not_symmetric, range_past, right_sides};
use program_data::Program;
use std::alloc::Global;

/// The fault that all lines make together, and its line.
fn end_fault(
    alloc: Global,
    draft: &Draft,
    rights: &Vector<Frac>,
) -> Result<Option<(u32, FaultKind)>, Memory>
    requires { rights.now ≡ rights_of (names_of draft.now.rows) draft.now.sides }
    ensures { IfOk result (λ fault. fault ≡ end_fault draft.now) }
{
    if let Some(line) = range_past(draft, rights) {
        return Ok(Some((line, FaultKind::RangePast)));
    }
    match not_symmetric(alloc, draft)? {
        Some(line) => Ok(Some((line, FaultKind::NotSymmetric))),
        None => Ok(None),
    }
}

/// The program with no rows and no columns.
fn start(alloc: Global, draft: &Draft, objective: usize) -> Result<Program, Memory>
    requires within { objective < length draft.now.rows }
    requires objective { objective_in draft.now.rows ≡ Some (name_at (names_of draft.now.rows) objective) }
    ensures { IfOk result (λ program. program ≡ rows_built draft.now 0) }
{
    let name = name_of(alloc, draft.row_name(objective))?;
    Program::start(alloc, name)
}

/// Gives a program with no rows and no columns those of the file, and its constant.
fn shape(
    alloc: Global,
    draft: &Draft,
    rights: &Vector<Frac>,
    objective: usize,
    program: &mut Program,
) -> Result<(), Memory>
    requires few { length (program_rows draft.now.rows) ≤ most_rows }
    requires within { objective < length draft.now.rows }
    requires objective { objective_in draft.now.rows ≡ Some (name_at (names_of draft.now.rows) objective) }
    requires rights { rights.now ≡ rights_of (names_of draft.now.rows) draft.now.sides }
    requires held { first_line (is_range_past draft.now) draft.now.ranges ≡ None }
    requires program { program.old ≡ rows_built draft.now 0 }
    ensures { OnOk result (program.new ≡ assembled draft.now [] []) }
{
    add_rows(alloc, draft, rights, program)?;
    add_columns(alloc, draft, program)?;
    program.set_constant(-rights.at(objective));
    Ok(())
}

/// The program with all rows and columns, and no numbers yet.
fn shaped(alloc: Global, draft: &Draft, rights: &Vector<Frac>) -> Result<Program, Memory>
    requires few { length (program_rows draft.now.rows) ≤ most_rows }
    requires objective { IsSome (objective_in draft.now.rows) }
    requires rights { rights.now ≡ rights_of (names_of draft.now.rows) draft.now.sides }
    requires held { first_line (is_range_past draft.now) draft.now.ranges ≡ None }
    ensures { IfOk result (λ program. program ≡ assembled draft.now [] []) }
{
    let objective = objective_row(draft);
    let mut program = start(alloc, draft, objective)?;
    shape(alloc, draft, rights, objective, &mut program)?;
    Ok(program)
}

/// The program of what is told.
fn program_of(alloc: Global, draft: &Draft, rights: &Vector<Frac>) -> Result<Program, Memory>
    requires sound { IsSound draft.now }
    requires columns { list_any is_columns draft.now.sections ≡ true }
    requires rights { rights.now ≡ rights_of (names_of draft.now.rows) draft.now.sides }
    requires held { end_fault draft.now ≡ None }
    ensures { IfOk result (λ program. program ≡ program_of draft.now) }
{
    let mut program = shaped(alloc, draft, rights)?;
    set_entries(&mut program, draft);
    set_pairs(&mut program, draft);
    Ok(program)
}

/// The program that the lines of a file up to ENDATA stand for, from what they tell.
///
/// What is told is sound, as it is where no line has a fault, and COLUMNS has begun.
///
/// # Errors
/// `RangePast` or `NotSymmetric` where all lines together have that fault, with the first line that shows it; else `Memory`.
pub fn finish(alloc: Global, draft: &Draft) -> Result<Program, ReadStop>
    requires sound { IsSound draft.now }
    requires columns { list_any is_columns draft.now.sections ≡ true }
    ensures { Finishes draft.now result }
{
    let Ok(rights) = right_sides(alloc, draft) else {
        return Err(ReadStop::Memory);
    };
    let Ok(fault) = end_fault(alloc, draft, &rights) else {
        return Err(ReadStop::Memory);
    };
    if let Some((line, kind)) = fault {
        return Err(ReadStop::Fault { line, kind });
    }
    match program_of(alloc, draft, &rights) {
        Ok(program) => Ok(program),
        Err(_) => Err(ReadStop::Memory),
    }
}
