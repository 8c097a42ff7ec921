// A data line of any section.

ghost use Rattle.std.specs.Prelude.{◌≡◌, ◌<◌, ◌+◌, ◌^◌, true, length};
ghost use Rattle.std.specs.List.{list_all};
ghost use Rattle.mps_fields.specs.Words.{is_word};
ghost use Rattle.mps_notes.specs.Notes.{IsSound};
ghost use Rattle.mps_sections.specs.Steps.{sides_section, TakesData};

use crate::bounds::take_bounds;
use crate::columns::take_columns;
use crate::quadratic::take_pairs;
use crate::row_lines::take_rows;
use crate::sides::take_sides;
use crate::stop::LineStop;
use mps_grammar::FaultKind;
use mps_notes::Notes;
use mps_tokens::{Parts, Section};
use std::alloc::Global;

/// A data line of RHS or of RANGES.
fn take_sides_of(
    alloc: Global,
    notes: &mut Notes,
    ranges: bool,
    fields: &Parts<'_>,
) -> Result<(), LineStop>
    requires sound { IsSound notes.old }
    requires few { notes.old.lines + 1 < 2 ^ 32 }
    ensures { TakesData notes.old (sides_section ranges) fields.now notes.new result }
{
    let line = notes.lines + 1;
    if ranges {
        take_sides(alloc, &notes.rows, &mut notes.ranges, line, fields)
    } else {
        take_sides(alloc, &notes.rows, &mut notes.sides, line, fields)
    }
}

/// A data line of a section: what it tells is kept, where it has no fault.
///
/// # Errors
/// The line's fault; else `Memory`. What is kept is used no more then.
pub fn take_data(
    alloc: Global,
    notes: &mut Notes,
    section: Section,
    fields: &Parts<'_>,
) -> Result<(), LineStop>
    requires sound { IsSound notes.old }
    requires few { notes.old.lines + 1 < 2 ^ 32 }
    requires some { 0 < length fields.now }
    requires words { list_all is_word fields.now ≡ true }
    ensures { TakesData notes.old section fields.now notes.new result }
{
    match section {
        Section::Rows => take_rows(alloc, notes, fields),
        Section::Columns => take_columns(alloc, notes, fields),
        Section::Rhs => take_sides_of(alloc, notes, false, fields),
        Section::Ranges => take_sides_of(alloc, notes, true, fields),
        Section::Bounds => take_bounds(alloc, notes, fields),
        Section::QuadObj | Section::QMatrix | Section::DMatrix => {
            take_pairs(notes, section, fields)
        }
        Section::Name | Section::EndData | Section::ObjSense => {
            Err(LineStop::Fault(FaultKind::SectionOrder))
        }
    }
}
