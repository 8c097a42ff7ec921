// Names and numbers of a line's pairs.

ghost use Rattle.std.specs.Prelude.{◌≡◌, ◌∷◌, []};
ghost use Rattle.named_things.specs.Named.{names_of};
ghost use Rattle.mps_grammar.specs.Faults.{is_long, has_long};
ghost use Rattle.mps_fields.specs.Views.{viewed_pair, viewed_pairs, viewed_entries};
ghost use Rattle.mps_fields.specs.Resolved.{number_in, kind_for, both_of, Resolves};

use crate::fields::{Entries, Pair, Pairs};
use frac_core::{Frac, Tried};
use mps_grammar::FaultKind;
use mps_tokens::{NumberFault, number};
use named_things::Named;
use program_law::LONGEST_NAME;

/// Whether a name is too long.
pub fn is_long(name: &[u8]) -> bool
    ensures { result ≡ is_long name.now }
{
    name.len() > LONGEST_NAME
}

/// Whether a name among a line's column or set and its pairs is too long.
pub fn has_long(entries: &Entries<'_>) -> bool
    ensures { result ≡ has_long (viewed_entries entries.now) }
{
    let second = match entries.pairs.second {
        Some(pair) => is_long(pair.name),
        None => false,
    };
    is_long(entries.head) || is_long(entries.pairs.first.name) || second
}

/// What a spelling stands for, or twice that.
fn number_of(twice: bool, spelling: &[u8]) -> Result<Frac, NumberFault>
    ensures { result ≡ number_in twice spelling.now }
{
    let value = number(spelling)?;
    if !twice {
        return Ok(value);
    }
    match value + value {
        Tried::Is(value) => Ok(value),
        Tried::Past(_) => Err(NumberFault::Past),
    }
}

/// The fault that a number's is.
pub fn kind_of(fault: NumberFault) -> FaultKind
    ensures { result ≡ kind_for fault }
{
    match fault {
        NumberFault::NotNumber => FaultKind::NumberText,
        NumberFault::Past => FaultKind::NumberPast,
    }
}

/// Two numbers, where both are.
fn both(
    first: Result<Frac, NumberFault>,
    second: Result<Frac, NumberFault>,
) -> Result<(Frac, Frac), NumberFault>
    ensures { result ≡ both_of first second }
{
    match (first, second) {
        (Ok(first), Ok(second)) => Ok((first, second)),
        (Err(NumberFault::NotNumber), _) | (_, Err(NumberFault::NotNumber)) => Err(
            NumberFault::NotNumber,
        ),
        _ => Err(NumberFault::Past),
    }
}

/// The place of a name, and the number beside it.
#[derive(Clone, Copy)]
pub struct Item {
    pub place: usize,
    pub value: Frac,
}

/// An item, and maybe another one.
#[derive(Clone, Copy)]
pub struct Items {
    pub first: Item,
    pub second: Option<Item>,
}

/// The items of two pairs.
fn resolve_two<T: Copy + Drop>(
    names: &Named<T>,
    twice: bool,
    first: Pair<'_>,
    second: Pair<'_>,
) -> Result<Items, FaultKind>
    ensures { Resolves (names_of names.now) (number_in twice) (viewed_pair first.entry ∷ viewed_pair second.entry ∷ []) result }
{
    let Some(first_place) = names.find(first.name) else {
        return Err(FaultKind::NameUnknown);
    };
    let Some(second_place) = names.find(second.name) else {
        return Err(FaultKind::NameUnknown);
    };
    match both(
        number_of(twice, first.number),
        number_of(twice, second.number),
    ) {
        Ok((first_value, second_value)) => Ok(Items {
            first: Item {
                place: first_place,
                value: first_value,
            },
            second: Some(Item {
                place: second_place,
                value: second_value,
            }),
        }),
        Err(fault) => Err(kind_of(fault)),
    }
}

/// The item of one pair.
fn resolve_one<T: Copy + Drop>(
    names: &Named<T>,
    twice: bool,
    pair: Pair<'_>,
) -> Result<Items, FaultKind>
    ensures { Resolves (names_of names.now) (number_in twice) (viewed_pair pair.entry ∷ []) result }
{
    let Some(place) = names.find(pair.name) else {
        return Err(FaultKind::NameUnknown);
    };
    match number_of(twice, pair.number) {
        Ok(value) => Ok(Items {
            first: Item { place, value },
            second: None,
        }),
        Err(fault) => Err(kind_of(fault)),
    }
}

/// The items of a line's pairs, whose names are looked up and whose numbers are read, or twice that.
///
/// # Errors
/// `NameUnknown` where a name isn't there; else `NumberText` where a spelling is no number; else `NumberPast`.
pub fn resolve<T: Copy + Drop>(
    names: &Named<T>,
    twice: bool,
    pairs: &Pairs<'_>,
) -> Result<Items, FaultKind>
    ensures { Resolves (names_of names.now) (number_in twice) (viewed_pairs pairs.now) result }
{
    match pairs.second {
        Some(second) => resolve_two(names, twice, pairs.first, second),
        None => resolve_one(names, twice, pairs.first),
    }
}
