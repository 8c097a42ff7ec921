// BOUNDS.

ghost use Rattle.std.specs.Prelude.{◌≡◌, ◌++◌, ◌∷◌, [], ◌||◌, codes, true, OnOk, IfOk};
ghost use Rattle.mps_writer_law.specs.Lines.{lines_text, behind, has_lines, data_line};
ghost use Rattle.mps_writer_law.specs.Canonical.{bound_line, low_lines, both_lines, bound_lines, bounds_lines};

use crate::parts::column_name;
use frac_core::{Frac, Memory};
use mps_line_writer::{Field, push_in_section};
use program_data::Program;
use program_law::Row;

/// Puts the line of a bound last that has no number.
fn push_word_bound<'a>(
    out: &mut Vec<u8>,
    begun: bool,
    kind: &'a [u8],
    name: &'a [u8],
) -> Result<bool, Memory>
    ensures ok { OnOk result (out.new.items ≡ out.old.items ++ lines_text (behind begun (codes "BOUNDS") (data_line (kind.now ∷ codes "BND" ∷ name.now ∷ []) ∷ []))) }
    ensures begun { IfOk result (λ b. b ≡ true) }
{
    let fields = [Field::Word(kind), Field::Word(b"BND"), Field::Word(name)];
    push_in_section(out, begun, b"BOUNDS", &fields)
}

/// Puts the line of a bound last that has a number.
fn push_bound<'a>(
    out: &mut Vec<u8>,
    begun: bool,
    kind: &'a [u8],
    name: &'a [u8],
    value: Frac,
) -> Result<bool, Memory>
    ensures ok { OnOk result (out.new.items ≡ out.old.items ++ lines_text (behind begun (codes "BOUNDS") (bound_line kind.now name.now value ∷ []))) }
    ensures begun { IfOk result (λ b. b ≡ true) }
{
    let fields = [
        Field::Word(kind),
        Field::Word(b"BND"),
        Field::Word(name),
        Field::Number(value),
    ];
    push_in_section(out, begun, b"BOUNDS", &fields)
}

/// Puts the line of a low bound last, where it needs one beside this high bound.
fn push_low(
    out: &mut Vec<u8>,
    begun: bool,
    name: &[u8],
    low: Frac,
    high: Frac,
) -> Result<bool, Memory>
    ensures ok { OnOk result (out.new.items ≡ out.old.items ++ lines_text (behind begun (codes "BOUNDS") (low_lines name.now low high))) }
    ensures begun { IfOk result (λ b. b ≡ (begun || has_lines (low_lines name.now low high))) }
{
    if low.is_zero() && !high.is_negative() {
        return Ok(begun);
    }
    push_bound(out, begun, b"LO", name, low)
}

/// Puts the lines of a column with two bounds last.
fn push_both(
    out: &mut Vec<u8>,
    begun: bool,
    name: &[u8],
    low: Frac,
    high: Frac,
) -> Result<bool, Memory>
    ensures ok { OnOk result (out.new.items ≡ out.old.items ++ lines_text (behind begun (codes "BOUNDS") (both_lines name.now low high))) }
    ensures begun { IfOk result (λ b. b ≡ true) }
{
    if low == high {
        return push_bound(out, begun, b"FX", name, low);
    }
    let begun = push_low(out, begun, name, low, high)?;
    push_bound(out, begun, b"UP", name, high)
}

/// Puts the lines of a column that has no low bound last.
fn push_lowless(out: &mut Vec<u8>, begun: bool, name: &[u8], high: Frac) -> Result<bool, Memory>
    ensures ok { OnOk result (out.new.items ≡ out.old.items ++ lines_text (behind begun (codes "BOUNDS") (data_line (codes "MI" ∷ codes "BND" ∷ name.now ∷ []) ∷ bound_line (codes "UP") name.now high ∷ []))) }
    ensures begun { IfOk result (λ b. b ≡ true) }
{
    let begun = push_word_bound(out, begun, b"MI", name)?;
    push_bound(out, begun, b"UP", name, high)
}

/// Puts the lines of a column's bounds last, and answers whether the section is begun.
fn push_bounds_of(out: &mut Vec<u8>, begun: bool, name: &[u8], bounds: Row) -> Result<bool, Memory>
    ensures ok { OnOk result (out.new.items ≡ out.old.items ++ lines_text (behind begun (codes "BOUNDS") (bound_lines name.now bounds.low bounds.high))) }
    ensures begun { IfOk result (λ b. b ≡ (begun || has_lines (bound_lines name.now bounds.low bounds.high))) }
{
    match (bounds.low, bounds.high) {
        (None, None) => push_word_bound(out, begun, b"FR", name),
        (None, Some(high)) => push_lowless(out, begun, name, high),
        (Some(low), None) if low.is_zero() => Ok(begun),
        (Some(low), None) => push_bound(out, begun, b"LO", name, low),
        (Some(low), Some(high)) => push_both(out, begun, name, low, high),
    }
}

/// Puts the section of the bounds last.
pub(crate) fn push_bounds(p: &Program, out: &mut Vec<u8>) -> Result<(), Memory>
    ensures { OnOk result (out.new.items ≡ out.old.items ++ lines_text (bounds_lines p.now)) }
{
    let mut begun = false;
    for j in 0..p.columns() {
        begun = push_bounds_of(out, begun, column_name(p, j), p.bounds(j))?;
    }
    Ok(())
}
