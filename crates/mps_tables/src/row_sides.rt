// The sides of rows.

ghost use Rattle.std.specs.Prelude.{◌≡◌, Some, true, IfSome};
ghost use Rattle.frac_core.specs.Parts.{max_part};
ghost use Rattle.rational.specs.Rational.{◌+ℚ◌, ◌-ℚ◌, held};
ghost use Rattle.program_law.specs.Program.{IsRow};
ghost use Rattle.mps_grammar.specs.Told.{binds};
ghost use Rattle.mps_grammar.specs.Programs.{size, range_side, plain_sides, ranged_sides, makes_past};
ghost use Rattle.mps_tables.specs.Ranged.{sides_if_held};

use frac_core::{Frac, Tried};
use mps_tokens::RowKind;
use program_law::Row;

/// The size of a number.
fn size(q: Frac) -> Frac
    ensures { result ≡ size q }
{
    if q.is_negative() { -q } else { q }
}

/// A sum, where it fits.
fn above(b: Frac, size: Frac) -> Option<Frac>
    ensures { result ≡ held max_part (b +ℚ size) }
{
    match b + size {
        Tried::Is(side) => Some(side),
        Tried::Past(_) => None,
    }
}

/// A difference, where it fits.
fn below(b: Frac, size: Frac) -> Option<Frac>
    ensures { result ≡ held max_part (b -ℚ size) }
{
    match b - size {
        Tried::Is(side) => Some(side),
        Tried::Past(_) => None,
    }
}

/// The side that a range makes beside a right side, where it fits.
fn range_side(kind: RowKind, right: Frac, range: Frac) -> Option<Frac>
    ensures { result ≡ held max_part (range_side kind right range) }
{
    match kind {
        RowKind::Objective => Some(right),
        RowKind::AtMost => below(right, size(range)),
        RowKind::AtLeast => above(right, size(range)),
        RowKind::Equal => {
            if range.is_negative() {
                below(right, size(range))
            } else {
                above(right, size(range))
            }
        }
    }
}

/// Whether a range makes a side that doesn't fit.
pub(crate) fn makes_past(kind: RowKind, right: Frac, range: Frac) -> bool
    ensures { result ≡ makes_past (Some kind) right range }
{
    range_side(kind, right, range).is_none()
}

/// The sides of a row without a range.
fn plain_sides(kind: RowKind, right: Frac) -> Row
    ensures { result ≡ plain_sides kind right }
{
    match kind {
        RowKind::Objective => Row {
            low: None,
            high: None,
        },
        RowKind::AtMost => Row {
            low: None,
            high: Some(right),
        },
        RowKind::AtLeast => Row {
            low: Some(right),
            high: None,
        },
        RowKind::Equal => Row {
            low: Some(right),
            high: Some(right),
        },
    }
}

/// The sides of a row with a range that makes this side.
fn sides_beside(kind: RowKind, right: Frac, range: Frac, side: Frac) -> Row
    requires { side ≡ range_side kind right range }
    ensures { result ≡ ranged_sides kind right range }
{
    let (low, high) = match kind {
        RowKind::Objective => (None, None),
        RowKind::AtMost => (Some(side), Some(right)),
        RowKind::AtLeast => (Some(right), Some(side)),
        RowKind::Equal => {
            if range.is_negative() {
                (Some(side), Some(right))
            } else {
                (Some(right), Some(side))
            }
        }
    };
    Row { low, high }
}

/// The sides of a row, where they fit.
pub fn sides(kind: RowKind, right: Frac, range: Option<Frac>) -> Option<Row>
    ensures sides { result ≡ sides_if_held kind right range }
    ensures good { binds kind ≡ true → IfSome result (λ row. IsRow row) }
{
    let Some(range) = range else {
        let row = plain_sides(kind, right);
        return Some(row);
    };
    let Some(side) = range_side(kind, right, range) else {
        return None;
    };
    let _num = range.num();
    let _den = range.den();
    let row = sides_beside(kind, right, range, side);
    Some(row)
}
