// QUADOBJ.

ghost use Rattle.std.specs.Prelude.{◌≡◌, ◌<◌, ◌++◌, ◌||◌, codes, length, OnOk, IfOk};
ghost use Rattle.mps_writer_law.specs.Lines.{lines_text, behind, has_lines};
ghost use Rattle.mps_writer_law.specs.Canonical.{pair_lines, row_pair_lines, pairs_lines};

use crate::parts::column_name;
use frac_core::Memory;
use mps_line_writer::{Field, push_in_section};
use program_data::Program;

/// Puts the line of an entry of Q last, unless it is 0, and answers whether the section is begun.
fn push_pair(p: &Program, j: u32, k: u32, out: &mut Vec<u8>, begun: bool) -> Result<bool, Memory>
    requires j { j < length p.now.columns }
    requires k { k < length p.now.columns }
    ensures ok { OnOk result (out.new.items ≡ out.old.items ++ lines_text (behind begun (codes "QUADOBJ") (pair_lines p.now j k))) }
    ensures begun { IfOk result (λ b. b ≡ (begun || has_lines (pair_lines p.now j k))) }
{
    let value = p.pair(j, k);
    if value.is_zero() {
        return Ok(begun);
    }
    let fields = [
        Field::Word(column_name(p, j)),
        Field::Word(column_name(p, k)),
        Field::Number(value),
    ];
    push_in_section(out, begun, b"QUADOBJ", &fields)
}

/// Puts the lines of a row of Q last, from the diagonal on, and answers whether the section is begun.
fn push_row_pairs(p: &Program, j: u32, out: &mut Vec<u8>, mut begun: bool) -> Result<bool, Memory>
    requires { j < length p.now.columns }
    ensures ok { OnOk result (out.new.items ≡ out.old.items ++ lines_text (behind begun (codes "QUADOBJ") (row_pair_lines p.now j))) }
    ensures begun { IfOk result (λ b. b ≡ (begun || has_lines (row_pair_lines p.now j))) }
{
    for d in 0..p.columns() - j {
        begun = push_pair(p, j, j + d, out, begun)?;
    }
    Ok(begun)
}

/// Puts the section of the entries of Q last.
pub(crate) fn push_pairs(p: &Program, out: &mut Vec<u8>) -> Result<(), Memory>
    ensures { OnOk result (out.new.items ≡ out.old.items ++ lines_text (pairs_lines p.now)) }
{
    let mut begun = false;
    for j in 0..p.columns() {
        begun = push_row_pairs(p, j, out, begun)?;
    }
    Ok(())
}
