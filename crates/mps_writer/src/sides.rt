// RHS and RANGES.

ghost use Rattle.std.specs.Prelude.{◌≡◌, ◌<◌, ◌++◌, ◌∷◌, [], ◌||◌, codes, length, IfSome, OnOk, IfOk};
ghost use Rattle.program_law.specs.Program.{IsRow};
ghost use Rattle.mps_writer_law.specs.Lines.{lines_text, behind, has_lines, unless_zero};
ghost use Rattle.mps_writer_law.specs.Canonical.{right_side, width, range_lines, right_sides_lines, ranges_lines};

use crate::parts::row_name;
use frac_core::{Frac, Memory, Tried};
use mps_line_writer::{Field, push_in_section};
use program_data::Program;
use program_law::Row;

/// The right side that a row is written with.
fn right_side(sides: Row) -> Frac
    ensures { result ≡ right_side sides.low sides.high }
{
    match (sides.low, sides.high) {
        (Some(low), _) => low,
        (None, Some(high)) => high,
        (None, None) => Frac::whole(0),
    }
}

/// Puts the line of a right side last, unless it is 0, and answers whether the section is begun.
fn push_right_side(out: &mut Vec<u8>, begun: bool, name: &[u8], value: Frac) -> Result<bool, Memory>
    ensures ok { OnOk result (out.new.items ≡ out.old.items ++ lines_text (behind begun (codes "RHS") (unless_zero (codes "RHS" ∷ name.now ∷ []) value))) }
    ensures begun { IfOk result (λ b. b ≡ (begun || has_lines (unless_zero (codes "RHS" ∷ name.now ∷ []) value))) }
{
    if value.is_zero() {
        return Ok(begun);
    }
    let fields = [Field::Word(b"RHS"), Field::Word(name), Field::Number(value)];
    push_in_section(out, begun, b"RHS", &fields)
}

/// Puts the section of the right sides last.
pub(crate) fn push_right_sides(p: &Program, out: &mut Vec<u8>) -> Result<(), Memory>
    ensures { OnOk result (out.new.items ≡ out.old.items ++ lines_text (right_sides_lines p.now)) }
{
    let mut begun = push_right_side(out, false, p.objective_name(), -p.constant())?;
    for i in 0..p.rows() {
        begun = push_right_side(out, begun, row_name(p, i), right_side(p.row(i)))?;
    }
    Ok(())
}

/// The difference of two sides that differ.
fn width(sides: Row) -> Option<Frac>
    requires { IsRow sides }
    ensures { result ≡ width sides.low sides.high }
{
    let (Some(low), Some(high)) = (sides.low, sides.high) else {
        return None;
    };
    if low == high {
        return None;
    }
    match high - low {
        Tried::Is(width) => Some(width),
        Tried::Past(_) => unreachable!(),
    }
}

/// Puts the line of a row's range last, where it has one, and answers whether the section is begun.
fn push_range(
    out: &mut Vec<u8>,
    begun: bool,
    name: &[u8],
    width: Option<Frac>,
) -> Result<bool, Memory>
    ensures ok { OnOk result (out.new.items ≡ out.old.items ++ lines_text (behind begun (codes "RANGES") (range_lines name.now width))) }
    ensures begun { IfOk result (λ b. b ≡ (begun || has_lines (range_lines name.now width))) }
{
    let Some(width) = width else {
        return Ok(begun);
    };
    let fields = [Field::Word(b"RNG"), Field::Word(name), Field::Number(width)];
    push_in_section(out, begun, b"RANGES", &fields)
}

/// Puts the section of the ranges last.
pub(crate) fn push_ranges(p: &Program, out: &mut Vec<u8>) -> Result<(), Memory>
    ensures { OnOk result (out.new.items ≡ out.old.items ++ lines_text (ranges_lines p.now)) }
{
    let mut begun = false;
    for i in 0..p.rows() {
        begun = push_range(out, begun, row_name(p, i), width(p.row(i)))?;
    }
    Ok(())
}
