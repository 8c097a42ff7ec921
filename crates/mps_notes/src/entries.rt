// Whether numbers were given before, and putting them.

ghost use Rattle.std.specs.Prelude.{◌≡◌, ◌<◌, ◌++◌, length, IfSome, OnOk};
ghost use Rattle.program_law.specs.Program.{most_columns};
ghost use Rattle.mps_notes.specs.Entries.{most_places};
ghost use Rattle.mps_notes.specs.Twice.{given_at, same_place, twice_at, pair_given, pair_twice};
ghost use Rattle.mps_notes.specs.Placed.{AreWithin, row_places_of, column_places_of, entry_at, items_entries};

use crate::numbers::{Entry, Numbers};
use crate::rows::Rows;
use frac_core::Memory;
use mps_fields::{Item, Items};

/// The places of a line's items among what may be given, where they are used.
#[derive(Clone, Copy)]
pub struct Places {
    pub first: Option<usize>,
    pub second: Option<usize>,
}

/// The places of rows among the objective and the rows of the program.
pub fn row_places(rows: &Rows, items: &Items) -> Places
    requires { AreWithin (length rows.now) items.now }
    ensures places { result ≡ row_places_of rows.now items.now }
    ensures first { IfSome result.first (λ k. k < most_places) }
    ensures second { IfSome result.second (λ k. k < most_places) }
{
    let first = rows.place(items.first.place);
    let second = match items.second {
        Some(item) => rows.place(item.place),
        None => None,
    };
    Places { first, second }
}

/// The places of columns.
pub fn column_places(items: &Items) -> Places
    ensures { result ≡ column_places_of items.now }
{
    let second = match items.second {
        Some(item) => Some(item.place),
        None => None,
    };
    let first = Some(items.first.place);
    Places { first, second }
}

/// Whether a number was given for a column and a place.
fn is_given(numbers: &Numbers, column: Option<usize>, place: Option<usize>) -> bool
    requires column { IfSome column (λ k. k < most_columns) }
    requires place { IfSome place (λ k. k < most_places) }
    ensures { result ≡ given_at numbers.now column place }
{
    match (column, place) {
        (Some(column), Some(place)) => numbers.is_given(column, place),
        _ => false,
    }
}

/// Whether two places are one.
fn is_same(first: Option<usize>, second: Option<usize>) -> bool
    ensures { result ≡ same_place first second }
{
    match (first, second) {
        (Some(first), Some(second)) => first == second,
        _ => false,
    }
}

/// Whether a line gives a number that was given before, by an earlier line or earlier on this one.
pub fn gives_twice(numbers: &Numbers, column: Option<usize>, places: &Places) -> bool
    requires column { IfSome column (λ k. k < most_columns) }
    requires first { IfSome places.now.first (λ k. k < most_places) }
    requires second { IfSome places.now.second (λ k. k < most_places) }
    ensures { result ≡ twice_at numbers.now column places.now.first places.now.second }
{
    is_given(numbers, column, places.first)
        || is_given(numbers, column, places.second)
        || is_same(places.first, places.second)
}

/// Whether a pair was given, where `once` says that its order isn't looked at.
fn is_pair_given(numbers: &Numbers, once: bool, one: usize, other: usize) -> bool
    requires one { one < most_columns }
    requires other { other < most_columns }
    ensures { result ≡ pair_given numbers.now once one other }
{
    numbers.is_given(one, other) || once && numbers.is_given(other, one)
}

/// Whether a line gives a pair that was given before, by an earlier line or earlier on this one.
pub fn gives_pair_twice(numbers: &Numbers, once: bool, column: usize, items: &Items) -> bool
    requires column { column < most_columns }
    requires items { AreWithin most_columns items.now }
    ensures { result ≡ pair_twice numbers.now once column items.now.first.place (column_places_of items.now).second }
{
    let first = items.first.place;
    let again = match items.second {
        Some(item) => item.place == first || is_pair_given(numbers, once, column, item.place),
        None => false,
    };
    is_pair_given(numbers, once, column, first) || again
}

/// The entry of an item.
fn entry_of(line: u32, column: usize, item: Item, place: Option<usize>) -> Entry
    ensures { result ≡ entry_at line column item place }
{
    Entry {
        line,
        column,
        row: item.place,
        place,
        value: item.value,
    }
}

/// Puts the items of a line.
pub fn put_items(
    numbers: &mut Numbers,
    line: u32,
    column: usize,
    items: &Items,
    places: &Places,
) -> Result<(), Memory>
    requires column { column < most_columns }
    requires first { IfSome places.now.first (λ k. k < most_places) }
    requires second { IfSome places.now.second (λ k. k < most_places) }
    ensures { OnOk result (numbers.new ≡ numbers.old ++ items_entries line column items.now places.now) }
{
    let first = entry_of(line, column, items.first, places.first);
    numbers.push(first)?;
    if let Some(item) = items.second {
        let second = entry_of(line, column, item, places.second);
        numbers.push(second)?;
    }
    Ok(())
}
