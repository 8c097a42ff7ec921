// One line after the other.

ghost use Rattle.std.specs.Prelude.{◌≡◌, ◌<◌, ◌+◌, ◌^◌, true, take, length, List, ℕ};
ghost use Rattle.std.specs.List.{list_all};
ghost use Rattle.mps_tokens.specs.Lines.{without_return};
ghost use Rattle.mps_tokens.specs.FieldsOf.{fields_of};
ghost use Rattle.mps_grammar.specs.Faults.{is_beyond};
ghost use Rattle.mps_fields.specs.Words.{is_word};
ghost use Rattle.mps_notes.specs.Notes.{IsSound};
ghost use Rattle.mps_lines.specs.Steps.{TakesIndented, TakesContent, TakesShown, TakesLine};

use crate::headers::take_header;
use mps_fields::{is_comment, is_indented, is_plain};
use mps_grammar::FaultKind;
use mps_notes::Notes;
use mps_sections::{LineStop, take_data};
use mps_tokens::Parts;
use std::alloc::Global;

/// A data line, which stands in the section that was begun last.
fn take_indented(alloc: Global, notes: &mut Notes, fields: &Parts<'_>) -> Result<(), LineStop>
    requires sound { IsSound notes.old }
    requires few { notes.old.lines + 1 < 2 ^ 32 }
    requires some { 0 < length fields.now }
    requires words { list_all is_word fields.now ≡ true }
    ensures { TakesIndented notes.old fields.now notes.new result }
{
    match notes.sections.first().copied() {
        Some(section) => take_data(alloc, notes, section, fields),
        None => Err(LineStop::Fault(FaultKind::SectionOrder)),
    }
}

/// What is told by a header or a data line. Answers whether it is ENDATA.
fn take_content(
    alloc: Global,
    notes: &mut Notes,
    line: &[u8],
    fields: &Parts<'_>,
) -> Result<bool, LineStop>
    requires sound { IsSound notes.old }
    requires few { notes.old.lines + 1 < 2 ^ 32 }
    requires fields { fields.now ≡ take 6 (fields_of line.now) }
    requires some { 0 < length fields.now }
    requires words { list_all is_word fields.now ≡ true }
    ensures { TakesContent notes.old line.now notes.new result }
{
    if is_indented(line) {
        take_indented(alloc, notes, fields)?;
        Ok(false)
    } else {
        take_header(notes, fields.get(0))
    }
}

/// What is told by a line within reach. Answers whether it is ENDATA.
fn take_shown(alloc: Global, notes: &mut Notes, line: &[u8]) -> Result<bool, LineStop>
    requires sound { IsSound notes.old }
    requires few { notes.old.lines + 1 < 2 ^ 32 }
    ensures { TakesShown notes.old line.now notes.new result }
{
    if is_comment(line) {
        return Ok(false);
    }
    if !is_plain(line) {
        return Err(LineStop::Fault(FaultKind::NotAscii));
    }
    let fields = Parts::of(line);
    if fields.len() == 0 {
        return Ok(false);
    }
    take_content(alloc, notes, line, &fields)
}

/// The next line, of which `beyond` says whether it has a byte too far into the text. Answers whether it is ENDATA.
pub(crate) fn take_line(
    alloc: Global,
    notes: &mut Notes,
    line: &[u8],
    beyond: bool,
) -> Result<bool, LineStop>
    requires sound { IsSound notes.old }
    requires few { notes.old.lines + 1 < 2 ^ 32 }
    ensures { (at : ℕ) (raw : List ℕ) → line.now ≡ without_return raw → beyond ≡ is_beyond at raw → TakesLine notes.old at raw notes.new result }
{
    if beyond {
        return Err(LineStop::Fault(FaultKind::TextLong));
    }
    let ended = take_shown(alloc, notes, line)?;
    notes.lines += 1;
    Ok(ended)
}
