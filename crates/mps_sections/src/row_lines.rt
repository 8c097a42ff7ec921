// Lines of ROWS.

ghost use Rattle.std.specs.Prelude.{◌≡◌, ◌<◌, true, length};
ghost use Rattle.std.specs.List.{list_all};
ghost use Rattle.std.specs.Str.{bytes_eq};
ghost use Rattle.program_law.specs.Program.{marker};
ghost use Rattle.mps_tokens.specs.declared.words.Section.TheVariants as sections;
ghost use Rattle.mps_fields.specs.Words.{is_word};
ghost use Rattle.mps_notes.specs.Notes.{IsSound};
ghost use Rattle.mps_sections.specs.Steps.{TakesData, TakesNamed};

use crate::stop::LineStop;
use mps_fields::{is_long, row_name};
use mps_grammar::FaultKind;
use mps_notes::Notes;
use mps_tokens::{Parts, RowKind, row_kind_of};
use std::alloc::Global;

/// Whether a name is the marker of stretches.
fn is_marker_name(name: &[u8]) -> bool
    ensures { result ≡ bytes_eq name.now marker }
{
    name == b"'MARKER'".as_slice()
}

/// A row of this kind.
fn take_named(alloc: Global, notes: &mut Notes, kind: RowKind, name: &[u8]) -> Result<(), LineStop>
    requires sound { IsSound notes.old }
    requires word { is_word name.now ≡ true }
    ensures { TakesNamed notes.old kind name.now notes.new result }
{
    if is_marker_name(name) {
        return Err(LineStop::Fault(FaultKind::Marker));
    }
    if is_long(name) {
        return Err(LineStop::Fault(FaultKind::NameLong));
    }
    if notes.rows.names().find(name).is_some() {
        return Err(LineStop::Fault(FaultKind::NameTwice));
    }
    if notes.rows.is_full(kind) {
        return Err(LineStop::Fault(FaultKind::TooMany));
    }
    notes.rows.push(alloc, name, kind)?;
    Ok(())
}

/// A line of ROWS.
pub(crate) fn take_rows(
    alloc: Global,
    notes: &mut Notes,
    fields: &Parts<'_>,
) -> Result<(), LineStop>
    requires sound { IsSound notes.old }
    requires some { 0 < length fields.now }
    requires words { list_all is_word fields.now ≡ true }
    ensures { TakesData notes.old sections.Rows fields.now notes.new result }
{
    let Some(kind) = row_kind_of(fields.get(0)) else {
        return Err(LineStop::Fault(FaultKind::RowKind));
    };
    let Some(name) = row_name(fields) else {
        return Err(LineStop::Fault(FaultKind::Fields));
    };
    take_named(alloc, notes, kind, name)
}
