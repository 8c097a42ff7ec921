// Lines of RHS and RANGES.

ghost use Rattle.std.specs.Prelude.{◌≡◌, List, length};
ghost use Rattle.mps_tokens.specs.Numbers.{number_of};
ghost use Rattle.mps_grammar.specs.Fields.{Pair, sides_in};
ghost use Rattle.named_things.specs.Named.{names_of};
ghost use Rattle.mps_grammar.specs.Told.{Told, used_names};
ghost use Rattle.mps_grammar.specs.Faults.{side_tests};
ghost use Rattle.named_things.specs.Names.{Differ};
ghost use Rattle.mps_fields.specs.Resolved.{AreItems};
ghost use Rattle.mps_notes.specs.Told.{tellings_of, AreEntries, text_in};
ghost use Rattle.mps_notes.specs.Notes.{no_column};
ghost use Rattle.mps_notes.specs.Placed.{AreWithin};
ghost use Rattle.mps_sections.specs.Steps.{Judged, SidesDone, TakesSideItems};

use crate::stop::LineStop;
use mps_fields::{Items, has_long, resolve, sides_of};
use mps_grammar::FaultKind;
use mps_notes::{Rows, Sides, gives_twice, is_used, name_set, put_items, row_places};
use mps_tokens::Parts;
use std::alloc::Global;

/// The items of a line of this set.
fn take_items(
    alloc: Global,
    rows: &Rows,
    sides: &mut Sides,
    line: u32,
    set: &[u8],
    items: &Items,
) -> Result<(), LineStop>
    requires rows { Differ (names_of rows.now) }
    requires entries { AreEntries no_column (names_of rows.now) (used_names rows.now) sides.old.numbers }
    requires items { AreWithin (length rows.now) items.now }
    ensures { (pairs : List Pair) → AreItems (names_of rows.now) number_of pairs items.now.first items.now.second →
        TakesSideItems rows.now sides.old line set.now pairs sides.new result }
{
    let places = row_places(rows, items);
    let used = is_used(&sides.set, set);
    if used && gives_twice(&sides.numbers, Some(0), &places) {
        return Err(LineStop::Fault(FaultKind::EntryTwice));
    }
    name_set(alloc, &mut sides.set, set)?;
    if used {
        put_items(&mut sides.numbers, line, 0, items, &places)?;
    }
    Ok(())
}

/// A line of RHS or RANGES with this number.
pub(crate) fn take_sides(
    alloc: Global,
    rows: &Rows,
    sides: &mut Sides,
    line: u32,
    fields: &Parts<'_>,
) -> Result<(), LineStop>
    requires rows { Differ (names_of rows.now) }
    requires entries { AreEntries no_column (names_of rows.now) (used_names rows.now) sides.old.numbers }
    ensures { (told : Told) → told.rows ≡ rows.now →
        Judged (side_tests told (text_in sides.old.set) (tellings_of no_column (names_of rows.now) sides.old.numbers) (sides_in fields.now))
        (λ done. SidesDone rows.now sides.old sides.new line (sides_in fields.now)) result }
{
    let Some(entries) = sides_of(fields) else {
        return Err(LineStop::Fault(FaultKind::Fields));
    };
    if has_long(&entries) {
        return Err(LineStop::Fault(FaultKind::NameLong));
    }
    match resolve(rows.names(), false, &entries.pairs) {
        Ok(items) => take_items(alloc, rows, sides, line, entries.head, &items),
        Err(kind) => Err(LineStop::Fault(kind)),
    }
}
