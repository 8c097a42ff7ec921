// Lines of COLUMNS.

ghost use Rattle.std.specs.Prelude.{◌≡◌, ◌+◌, ◌<◌, ◌≤◌, ◌^◌, List, true, false, length, IfOk};
ghost use Rattle.std.specs.List.{list_all};
ghost use Rattle.program_law.specs.Places.{place_of};
ghost use Rattle.program_law.specs.Program.{IsName, most_columns};
ghost use Rattle.mps_tokens.specs.declared.words.Section.TheVariants as sections;
ghost use Rattle.mps_tokens.specs.Numbers.{number_of};
ghost use Rattle.mps_grammar.specs.Fields.{Pair, is_marker};
ghost use Rattle.named_things.specs.Named.{names_of};
ghost use Rattle.mps_grammar.specs.Faults.{is_wrong_stretch};
ghost use Rattle.mps_fields.specs.Words.{is_word};
ghost use Rattle.mps_fields.specs.Resolved.{AreItems};
ghost use Rattle.mps_notes.specs.Placed.{AreWithin};
ghost use Rattle.mps_notes.specs.Notes.{IsSound};
ghost use Rattle.mps_sections.specs.Steps.{TakesData, TakesItems, PlacesColumn};

use crate::stop::LineStop;
use mps_fields::{
    Items, entries_of, has_long, is_long, is_marker_line, is_stretch_begin, is_stretch_end, resolve,
};
use mps_grammar::FaultKind;
use mps_notes::{Notes, gives_twice, put_items, row_places};
use mps_tokens::Parts;
use named_things::Named;
use program_law::MOST_COLUMNS;
use std::alloc::Global;

/// Whether a marker's word is neither of the two, or begins a stretch in one, or ends one outside.
fn is_wrong(begun: bool, word: &[u8]) -> bool
    ensures { result ≡ is_wrong_stretch begun word.now }
{
    if is_stretch_begin(word) {
        begun
    } else if is_stretch_end(word) {
        !begun
    } else {
        true
    }
}

/// A marker line.
fn take_marker(notes: &mut Notes, fields: &Parts<'_>) -> Result<(), LineStop>
    requires sound { IsSound notes.old }
    requires marker { is_marker fields.now ≡ true }
    ensures { TakesData notes.old sections.Columns fields.now notes.new result }
{
    let word = fields.get(2);
    if is_wrong(notes.begun, word) {
        return Err(LineStop::Fault(FaultKind::Marker));
    }
    if is_long(fields.get(0)) {
        return Err(LineStop::Fault(FaultKind::NameLong));
    }
    notes.begun = is_stretch_begin(word);
    Ok(())
}

/// The place of a column, which is put last where it wasn't found.
fn place_column(
    alloc: Global,
    columns: &mut Named<bool>,
    name: &[u8],
    marked: bool,
    found: Option<usize>,
) -> Result<usize, LineStop>
    requires found { found ≡ place_of (names_of columns.old) name.now }
    requires few { length columns.old ≤ most_columns }
    ensures column { PlacesColumn columns.old columns.new name.now marked result }
    ensures within { IfOk result (λ j. j < most_columns) }
{
    if let Some(place) = found {
        return Ok(place);
    }
    let place = columns.len();
    if place >= MOST_COLUMNS {
        return Err(LineStop::Fault(FaultKind::TooMany));
    }
    let name = Vec::from_slice(alloc, name)?;
    columns.push(name, marked)?;
    Ok(place)
}

/// The items of a line of entries for a column with this name.
fn take_items(alloc: Global, notes: &mut Notes, name: &[u8], items: &Items) -> Result<(), LineStop>
    requires sound { IsSound notes.old }
    requires few { notes.old.lines + 1 < 2 ^ 32 }
    requires name { IsName name.now }
    requires items { AreWithin (length notes.old.rows) items.now }
    ensures { (pairs : List Pair) → AreItems (names_of notes.old.rows) number_of pairs items.now.first items.now.second →
        TakesItems notes.old name.now pairs notes.new result }
{
    let places = row_places(&notes.rows, items);
    let found = notes.columns.find(name);
    if gives_twice(&notes.entries, found, &places) {
        return Err(LineStop::Fault(FaultKind::EntryTwice));
    }
    let column = place_column(alloc, &mut notes.columns, name, notes.begun, found)?;
    put_items(&mut notes.entries, notes.lines + 1, column, items, &places)?;
    Ok(())
}

/// A line of entries.
fn take_entries(alloc: Global, notes: &mut Notes, fields: &Parts<'_>) -> Result<(), LineStop>
    requires sound { IsSound notes.old }
    requires few { notes.old.lines + 1 < 2 ^ 32 }
    requires words { list_all is_word fields.now ≡ true }
    requires no_marker { is_marker fields.now ≡ false }
    ensures { TakesData notes.old sections.Columns fields.now notes.new result }
{
    let Some(entries) = entries_of(fields) else {
        return Err(LineStop::Fault(FaultKind::Fields));
    };
    if has_long(&entries) {
        return Err(LineStop::Fault(FaultKind::NameLong));
    }
    match resolve(notes.rows.names(), false, &entries.pairs) {
        Ok(items) => take_items(alloc, notes, entries.head, &items),
        Err(kind) => Err(LineStop::Fault(kind)),
    }
}

/// A line of COLUMNS.
pub(crate) fn take_columns(
    alloc: Global,
    notes: &mut Notes,
    fields: &Parts<'_>,
) -> Result<(), LineStop>
    requires sound { IsSound notes.old }
    requires few { notes.old.lines + 1 < 2 ^ 32 }
    requires words { list_all is_word fields.now ≡ true }
    ensures { TakesData notes.old sections.Columns fields.now notes.new result }
{
    if is_marker_line(fields) {
        take_marker(notes, fields)
    } else {
        take_entries(alloc, notes, fields)
    }
}
