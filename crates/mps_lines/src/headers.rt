// Headers.

ghost use Rattle.std.specs.Prelude.{◌≡◌};
ghost use Rattle.std.specs.List.{list_any};
ghost use Rattle.mps_grammar.specs.Told.{is_columns, is_quadratic};
ghost use Rattle.mps_grammar.specs.Faults.{may_begin, is_sense};
ghost use Rattle.mps_notes.specs.Notes.{IsSound};
ghost use Rattle.mps_lines.specs.Steps.{TakesHeader, is_end_section, is_like};

use mps_grammar::FaultKind;
use mps_notes::Notes;
use mps_sections::LineStop;
use mps_tokens::{Section, section_of};

fn is_columns(section: Section) -> bool
    ensures { result ≡ is_columns section }
{
    matches!(section, Section::Columns)
}

fn is_quadratic(section: Section) -> bool
    ensures { result ≡ is_quadratic section }
{
    matches!(
        section,
        Section::QuadObj | Section::QMatrix | Section::DMatrix
    )
}

fn is_sense(section: Section) -> bool
    ensures { result ≡ is_sense section }
{
    matches!(section, Section::ObjSense)
}

fn is_end(section: Section) -> bool
    ensures { result ≡ is_end_section section }
{
    matches!(section, Section::EndData)
}

/// Whether the other is this section, or both are quadratic ones.
fn is_like(section: Section, other: Section) -> bool
    ensures { result ≡ is_like section other }
{
    match section {
        Section::Rows => matches!(other, Section::Rows),
        Section::Columns => is_columns(other),
        Section::Rhs => matches!(other, Section::Rhs),
        Section::Ranges => matches!(other, Section::Ranges),
        Section::Bounds => matches!(other, Section::Bounds),
        Section::QuadObj | Section::QMatrix | Section::DMatrix => is_quadratic(other),
        Section::Name | Section::EndData | Section::ObjSense => false,
    }
}

/// Whether a section like this one was begun.
fn has(begun: &[Section], section: Section) -> bool
    ensures { result ≡ list_any (is_like section) begun.now }
{
    begun.iter().any(|other| is_like(section, *other))
}

/// Whether a section may begin after these.
fn may_begin(begun: &[Section], section: Section) -> bool
    ensures { result ≡ may_begin begun.now section }
{
    match section {
        Section::Name => begun.is_empty(),
        Section::Rows => !has(begun, Section::Rows),
        Section::Columns => has(begun, Section::Rows) && !has(begun, Section::Columns),
        Section::Rhs
        | Section::Ranges
        | Section::Bounds
        | Section::QuadObj
        | Section::QMatrix
        | Section::DMatrix => has(begun, Section::Columns) && !has(begun, section),
        Section::EndData => has(begun, Section::Columns),
        Section::ObjSense => false,
    }
}

/// A header with this word. Answers whether it is ENDATA.
pub(crate) fn take_header(notes: &mut Notes, word: &[u8]) -> Result<bool, LineStop>
    requires { IsSound notes.old }
    ensures { TakesHeader notes.old word.now notes.new result }
{
    let Some(section) = section_of(word) else {
        return Err(LineStop::Fault(FaultKind::UnknownSection));
    };
    if is_sense(section) {
        return Err(LineStop::Fault(FaultKind::MaxSense));
    }
    if !may_begin(&notes.sections, section) {
        return Err(LineStop::Fault(FaultKind::SectionOrder));
    }
    if is_columns(section) && !notes.rows.has_objective() {
        return Err(LineStop::Fault(FaultKind::NoObjective));
    }
    if notes.sections.insert(0, section).is_err() {
        return Err(LineStop::Memory);
    }
    Ok(is_end(section))
}
