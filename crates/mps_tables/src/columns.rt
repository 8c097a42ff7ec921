// Columns whose bounds are being told.

ghost use Rattle.std.specs.Prelude.{◌≡◌, ◌∷◌, [], Bool, List, ℕ, IfOk};
ghost use Rattle.named_things.specs.Named.{names_of};
ghost use Rattle.mps_grammar.specs.Told.{BoundTelling};
ghost use Rattle.named_things.specs.Names.{Differ};
ghost use Rattle.mps_grammar.specs.Programs.{sets_low, with_bound};
ghost use Rattle.mps_tables.specs.Bounding.{bounding_of, boundings_of, low_left};

use frac_core::{Frac, Memory};
use mps_notes::Draft;
use mps_tokens::BoundKind;
use program_law::Column;
use std::alloc::Global;

/// A column whose bounds are being told, and whether one of them set the low bound.
#[derive(Clone, Copy)]
pub struct Bounding {
    pub column: Column,
    pub low_is_set: bool,
}

/// Whether a bound of this kind sets the low bound.
fn sets_low(kind: BoundKind) -> bool
    ensures { result ≡ sets_low kind }
{
    match kind {
        BoundKind::Lower
        | BoundKind::Fixed
        | BoundKind::Free
        | BoundKind::MinusInfinity
        | BoundKind::Binary
        | BoundKind::LowerInteger => true,
        BoundKind::Upper | BoundKind::PlusInfinity | BoundKind::UpperInteger => false,
    }
}

/// The low bound that a high bound leaves: a negative one takes it away, unless a bound set it before.
fn left_low(before: &Bounding, high: Frac) -> Option<Frac>
    ensures { result ≡ low_left before.now.low_is_set high before.now.column.low }
{
    if high.is_negative() && !before.low_is_set {
        None
    } else {
        before.column.low
    }
}

/// The low bound after one bound more.
fn low_with(before: &Bounding, kind: BoundKind, value: Frac) -> Option<Frac>
    ensures { (mark : Bool) (earlier : List BoundTelling) → before.now ≡ bounding_of mark earlier →
        result ≡ (with_bound earlier kind value before.now.column).low }
{
    match kind {
        BoundKind::Upper | BoundKind::UpperInteger => left_low(before, value),
        BoundKind::Lower | BoundKind::Fixed | BoundKind::LowerInteger => Some(value),
        BoundKind::Free | BoundKind::MinusInfinity => None,
        BoundKind::PlusInfinity => before.column.low,
        BoundKind::Binary => Some(Frac::whole(0)),
    }
}

/// The high bound after one bound more.
fn high_with(before: &Bounding, kind: BoundKind, value: Frac) -> Option<Frac>
    ensures { (earlier : List BoundTelling) → result ≡ (with_bound earlier kind value before.now.column).high }
{
    match kind {
        BoundKind::Upper | BoundKind::Fixed | BoundKind::UpperInteger => Some(value),
        BoundKind::Lower | BoundKind::MinusInfinity | BoundKind::LowerInteger => before.column.high,
        BoundKind::Free | BoundKind::PlusInfinity => None,
        BoundKind::Binary => Some(Frac::whole(1)),
    }
}

/// The mark after one bound more.
fn whole_with(before: &Bounding, kind: BoundKind, value: Frac) -> bool
    ensures { (earlier : List BoundTelling) → result ≡ (with_bound earlier kind value before.now.column).whole }
{
    match kind {
        BoundKind::Binary | BoundKind::LowerInteger | BoundKind::UpperInteger => true,
        BoundKind::Upper
        | BoundKind::Lower
        | BoundKind::Fixed
        | BoundKind::Free
        | BoundKind::MinusInfinity
        | BoundKind::PlusInfinity => before.column.whole,
    }
}

/// A column with one bound more, after the earlier ones.
pub(crate) fn bounded(before: &Bounding, kind: BoundKind, value: Frac) -> Bounding
    ensures { (mark : Bool) (earlier : List BoundTelling) (name : List ℕ) →
        before.now ≡ bounding_of mark earlier →
        result ≡ bounding_of mark (record { kind = kind; column = name; value = value } ∷ earlier) }
{
    let low = low_with(before, kind, value);
    let high = high_with(before, kind, value);
    let whole = whole_with(before, kind, value);
    let column = Column { low, high, whole };
    Bounding {
        column,
        low_is_set: sets_low(kind) || before.low_is_set,
    }
}

/// The columns before any bound is told.
fn unbounded_columns(alloc: Global, draft: &Draft) -> Result<Vec<Bounding>, Memory>
    ensures columns { IfOk result (λ columns. columns.items ≡ boundings_of draft.now.columns []) }
    ensures differ { Differ (names_of draft.now.columns) }
{
    let mut columns = Vec::with_capacity(alloc, draft.columns())?;
    for column in 0..draft.columns() {
        let at_first = Column {
            low: Some(Frac::whole(0)),
            high: None,
            whole: draft.column_mark(column),
        };
        columns.push(Bounding {
            column: at_first,
            low_is_set: false,
        })?;
    }
    Ok(columns)
}

/// The columns with their bounds.
pub fn bounded_columns(alloc: Global, draft: &Draft) -> Result<Vec<Bounding>, Memory>
    ensures { IfOk result (λ columns. columns.items ≡ boundings_of draft.now.columns draft.now.bounds) }
{
    let mut columns = unbounded_columns(alloc, draft)?;
    let bounds = draft.bounds();
    for bound in bounds {
        let column = &mut columns[bound.column];
        *column = bounded(column, bound.kind, bound.value);
    }
    Ok(columns)
}
