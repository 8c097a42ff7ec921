// ROWS.

ghost use Rattle.std.specs.Prelude.{◌≡◌, ◌<◌, ◌++◌, length, OnOk};
ghost use Rattle.mps_writer_law.specs.Lines.{lines_text};
ghost use Rattle.mps_writer_law.specs.Canonical.{kind_word, row_line, rows_lines};
ghost use Rattle.mps_tokens.specs.Written.{ended};

use crate::parts::row_name;
use frac_core::Memory;
use mps_line_writer::{Field, push_line, push_word};
use program_data::Program;
use program_law::Row;

/// The word of a row's kind.
fn kind_word(sides: Row) -> &'static [u8]
    ensures { result.now ≡ kind_word sides.low sides.high }
{
    match (sides.low, sides.high) {
        (Some(low), Some(high)) => { if low == high { b"E" } else { b"G" } }
        (None, Some(_)) => b"L",
        _ => b"G",
    }
}

/// Puts a row's line last.
fn push_row(p: &Program, i: u32, out: &mut Vec<u8>) -> Result<(), Memory>
    requires { i < length p.now.rows }
    ensures { OnOk result (out.new.items ≡ out.old.items ++ ended (row_line p.now i)) }
{
    let kind = kind_word(p.row(i));
    push_line(out, &[Field::Word(kind), Field::Word(row_name(p, i))])
}

/// Puts the section of the rows last.
pub(crate) fn push_rows(p: &Program, out: &mut Vec<u8>) -> Result<(), Memory>
    ensures { OnOk result (out.new.items ≡ out.old.items ++ lines_text (rows_lines p.now)) }
{
    push_word(out, b"ROWS")?;
    push_line(out, &[Field::Word(b"N"), Field::Word(p.objective_name())])?;
    for i in 0..p.rows() {
        push_row(p, i, out)?;
    }
    Ok(())
}
