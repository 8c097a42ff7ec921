// The forms of data lines.

ghost use Rattle.std.specs.Prelude.{◌≡◌, ◌∷◌, [], true, false, Some, None, MatchOption};
ghost use Rattle.mps_grammar.specs.Fields.{row_name_in, is_marker, begins_stretch, ends_stretch, entries_in, sides_in, bounded_in};
ghost use Rattle.mps_fields.specs.Views.{viewed_pair, viewed_entries, viewed_bounded};

use mps_tokens::Parts;

/// A name, and the spelling of a number.
#[derive(Clone, Copy)]
pub struct Pair<'a> {
    pub name: &'a [u8],
    pub number: &'a [u8],
}

/// A pair, and maybe another one.
#[derive(Clone, Copy)]
pub struct Pairs<'a> {
    pub first: Pair<'a>,
    pub second: Option<Pair<'a>>,
}

/// A column or the name of a set, and its pairs.
#[derive(Clone, Copy)]
pub struct Entries<'a> {
    pub head: &'a [u8],
    pub pairs: Pairs<'a>,
}

/// What stands behind a bound's kind.
#[derive(Clone, Copy)]
pub struct Bounded<'a> {
    pub set: &'a [u8],
    pub column: &'a [u8],
    pub number: Option<&'a [u8]>,
}

/// The name of a row, where there are two fields.
pub fn row_name<'a>(fields: &Parts<'a>) -> Option<&'a [u8]>
    ensures { MatchOption result (row_name_in fields.now ≡ None) (λ name. row_name_in fields.now ≡ Some name.now) }
{
    if fields.len() == 2 {
        Some(fields.get(1))
    } else {
        None
    }
}

/// Whether the line is a marker line.
pub fn is_marker_line(fields: &Parts<'_>) -> bool
    ensures { result ≡ is_marker fields.now }
{
    fields.len() == 3 && fields.get(1) == b"'MARKER'".as_slice()
}

/// Whether a marker's word begins a stretch of marked columns.
pub fn is_stretch_begin(word: &[u8]) -> bool
    ensures { result ≡ begins_stretch word.now }
{
    word == b"'INTORG'".as_slice()
}

/// Whether a marker's word ends a stretch.
pub fn is_stretch_end(word: &[u8]) -> bool
    ensures { result ≡ ends_stretch word.now }
{
    word == b"'INTEND'".as_slice()
}

/// A head with one pair.
fn with_one<'a>(head: &'a [u8], name: &'a [u8], number: &'a [u8]) -> Entries<'a>
    ensures { viewed_entries result ≡ (head.now, (name.now, number.now) ∷ []) }
{
    Entries {
        head,
        pairs: Pairs {
            first: Pair { name, number },
            second: None,
        },
    }
}

/// A head, and two pairs from a field on.
fn with_two<'a>(head: &'a [u8], first: Pair<'a>, second: Pair<'a>) -> Entries<'a>
    ensures { viewed_entries result ≡ (head.now, viewed_pair first.entry ∷ viewed_pair second.entry ∷ []) }
{
    Entries {
        head,
        pairs: Pairs {
            first,
            second: Some(second),
        },
    }
}

fn pair_of<'a>(name: &'a [u8], number: &'a [u8]) -> Pair<'a>
    ensures { viewed_pair result ≡ (name.now, number.now) }
{
    Pair { name, number }
}

/// A column and its pairs, where there are three or five fields.
pub fn entries_of<'a>(fields: &Parts<'a>) -> Option<Entries<'a>>
    ensures { MatchOption result (entries_in fields.now ≡ None) (λ e. entries_in fields.now ≡ Some (viewed_entries e)) }
{
    match fields.len() {
        3 => Some(with_one(fields.get(0), fields.get(1), fields.get(2))),
        5 => Some(with_two(
            fields.get(0),
            pair_of(fields.get(1), fields.get(2)),
            pair_of(fields.get(3), fields.get(4)),
        )),
        _ => None,
    }
}

/// The name of a set and its pairs; a missing name is empty.
pub fn sides_of<'a>(fields: &Parts<'a>) -> Option<Entries<'a>>
    ensures { MatchOption result (sides_in fields.now ≡ None) (λ e. sides_in fields.now ≡ Some (viewed_entries e)) }
{
    match fields.len() {
        2 => Some(with_one(&[], fields.get(0), fields.get(1))),
        3 => Some(with_one(fields.get(0), fields.get(1), fields.get(2))),
        4 => Some(with_two(
            &[],
            pair_of(fields.get(0), fields.get(1)),
            pair_of(fields.get(2), fields.get(3)),
        )),
        5 => Some(with_two(
            fields.get(0),
            pair_of(fields.get(1), fields.get(2)),
            pair_of(fields.get(3), fields.get(4)),
        )),
        _ => None,
    }
}

/// What stands behind a kind of bound that has a number.
fn numbered<'a>(fields: &Parts<'a>) -> Option<Bounded<'a>>
    ensures { MatchOption result (bounded_in true fields.now ≡ None) (λ b. bounded_in true fields.now ≡ Some (viewed_bounded b)) }
{
    match fields.len() {
        3 => Some(Bounded {
            set: &[],
            column: fields.get(1),
            number: Some(fields.get(2)),
        }),
        4 => Some(Bounded {
            set: fields.get(1),
            column: fields.get(2),
            number: Some(fields.get(3)),
        }),
        _ => None,
    }
}

/// What stands behind a kind of bound that needs no number.
fn unnumbered<'a>(fields: &Parts<'a>) -> Option<Bounded<'a>>
    ensures { MatchOption result (bounded_in false fields.now ≡ None) (λ b. bounded_in false fields.now ≡ Some (viewed_bounded b)) }
{
    match fields.len() {
        2 => Some(Bounded {
            set: &[],
            column: fields.get(1),
            number: None,
        }),
        3 => Some(Bounded {
            set: fields.get(1),
            column: fields.get(2),
            number: None,
        }),
        4 => Some(Bounded {
            set: fields.get(1),
            column: fields.get(2),
            number: Some(fields.get(3)),
        }),
        _ => None,
    }
}

/// What stands behind a bound's kind, which needs a number or doesn't.
pub fn bounded_of<'a>(needed: bool, fields: &Parts<'a>) -> Option<Bounded<'a>>
    ensures { MatchOption result (bounded_in needed fields.now ≡ None) (λ b. bounded_in needed fields.now ≡ Some (viewed_bounded b)) }
{
    if needed {
        numbered(fields)
    } else {
        unnumbered(fields)
    }
}
