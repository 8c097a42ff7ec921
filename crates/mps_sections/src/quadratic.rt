// Lines of QUADOBJ, QMATRIX and DMATRIX.

ghost use Rattle.std.specs.Prelude.{◌≡◌, ◌<◌, ◌+◌, ◌^◌, ℕ, List, Some, true, length};
ghost use Rattle.program_law.specs.Places.{place_of};
ghost use Rattle.mps_grammar.specs.Fields.{Pair};
ghost use Rattle.named_things.specs.Named.{names_of};
ghost use Rattle.mps_grammar.specs.Told.{quadratic_number, is_quadratic};
ghost use Rattle.mps_fields.specs.Resolved.{AreItems};
ghost use Rattle.mps_notes.specs.Placed.{AreWithin};
ghost use Rattle.mps_notes.specs.Notes.{IsSound};
ghost use Rattle.mps_sections.specs.Steps.{TakesData, TakesPairItems, is_half};

use crate::stop::LineStop;
use mps_fields::{Items, entries_of, has_long, resolve};
use mps_grammar::FaultKind;
use mps_notes::{Notes, column_places, gives_once, gives_pair_twice, put_items};
use mps_tokens::{Parts, Section};

/// Whether the section gives the entries of D, where Q is 2D.
fn gives_half(section: Section) -> bool
    ensures { result ≡ is_half section }
{
    matches!(section, Section::DMatrix)
}

/// The items of a line of a quadratic section, for a column.
fn take_items(
    notes: &mut Notes,
    section: Section,
    column: usize,
    items: &Items,
) -> Result<(), LineStop>
    requires sound { IsSound notes.old }
    requires few { notes.old.lines + 1 < 2 ^ 32 }
    requires column { column < length notes.old.columns }
    requires items { AreWithin (length notes.old.columns) items.now }
    ensures { (name : List ℕ) (pairs : List Pair) → place_of (names_of notes.old.columns) name ≡ Some column →
        AreItems (names_of notes.old.columns) (quadratic_number section) pairs items.now.first items.now.second →
        TakesPairItems notes.old section name pairs notes.new result }
{
    if gives_pair_twice(&notes.pairs, gives_once(section), column, items) {
        return Err(LineStop::Fault(FaultKind::EntryTwice));
    }
    let places = column_places(items);
    put_items(&mut notes.pairs, notes.lines + 1, column, items, &places)?;
    Ok(())
}

/// A line of a quadratic section.
pub(crate) fn take_pairs(
    notes: &mut Notes,
    section: Section,
    fields: &Parts<'_>,
) -> Result<(), LineStop>
    requires sound { IsSound notes.old }
    requires few { notes.old.lines + 1 < 2 ^ 32 }
    requires quadratic { is_quadratic section ≡ true }
    ensures { TakesData notes.old section fields.now notes.new result }
{
    let Some(entries) = entries_of(fields) else {
        return Err(LineStop::Fault(FaultKind::Fields));
    };
    if has_long(&entries) {
        return Err(LineStop::Fault(FaultKind::NameLong));
    }
    let Some(column) = notes.columns.find(entries.head) else {
        return Err(LineStop::Fault(FaultKind::NameUnknown));
    };
    match resolve(&notes.columns, gives_half(section), &entries.pairs) {
        Ok(items) => take_items(notes, section, column, &items),
        Err(kind) => Err(LineStop::Fault(kind)),
    }
}
