// COLUMNS.

ghost use Rattle.std.specs.Prelude.{◌≡◌, ◌<◌, ◌≤◌, ◌++◌, length, OnOk};
ghost use Rattle.mps_tokens.specs.Written.{ended};
ghost use Rattle.mps_writer_law.specs.Lines.{lines_text, each};
ghost use Rattle.mps_writer_law.specs.Canonical.{turn_lines, cost_line, entry_lines, marked_before, column_lines, columns_lines};

use crate::parts::{column_name, row_name};
use frac_core::Memory;
use mps_line_writer::{Field, push_line, push_word};
use program_data::Program;

/// Puts the line last that begins or ends a stretch of marked columns, where the mark turns.
fn push_turn(before: bool, now: bool, out: &mut Vec<u8>) -> Result<(), Memory>
    ensures { OnOk result (out.new.items ≡ out.old.items ++ lines_text (turn_lines before now)) }
{
    if before == now {
        return Ok(());
    }
    let word: &[u8] = if now { b"'INTORG'" } else { b"'INTEND'" };
    push_line(
        out,
        &[
            Field::Word(b"MARKER"),
            Field::Word(b"'MARKER'"),
            Field::Word(word),
        ],
    )
}

/// Whether the column before a place is marked.
fn marked_before(p: &Program, j: u32) -> bool
    requires { j ≤ length p.now.columns }
    ensures { result ≡ marked_before p.now j }
{
    j > 0 && p.is_marked(j - 1)
}

/// Puts the line of a column's cost last.
fn push_cost(p: &Program, j: u32, out: &mut Vec<u8>) -> Result<(), Memory>
    requires { j < length p.now.columns }
    ensures { OnOk result (out.new.items ≡ out.old.items ++ ended (cost_line p.now j)) }
{
    push_line(
        out,
        &[
            Field::Word(column_name(p, j)),
            Field::Word(p.objective_name()),
            Field::Number(p.cost(j)),
        ],
    )
}

/// Puts the line of an entry last, unless it is 0.
fn push_entry(p: &Program, j: u32, i: u32, out: &mut Vec<u8>) -> Result<(), Memory>
    requires column { j < length p.now.columns }
    requires row { i < length p.now.rows }
    ensures { OnOk result (out.new.items ≡ out.old.items ++ lines_text (entry_lines p.now j i)) }
{
    let value = p.entry(i, j);
    if value.is_zero() {
        return Ok(());
    }
    push_line(
        out,
        &[
            Field::Word(column_name(p, j)),
            Field::Word(row_name(p, i)),
            Field::Number(value),
        ],
    )
}

/// Puts the lines of a column last.
fn push_column(p: &Program, j: u32, out: &mut Vec<u8>) -> Result<(), Memory>
    requires { j < length p.now.columns }
    ensures { OnOk result (out.new.items ≡ out.old.items ++ lines_text (column_lines p.now j)) }
{
    push_turn(marked_before(p, j), p.is_marked(j), out)?;
    push_cost(p, j, out)?;
    for i in 0..p.rows() {
        push_entry(p, j, i, out)?;
    }
    Ok(())
}

/// Puts the lines of all columns last.
fn push_each_column(p: &Program, out: &mut Vec<u8>) -> Result<(), Memory>
    ensures { OnOk result (out.new.items ≡ out.old.items ++ lines_text (each (length p.now.columns) (column_lines p.now))) }
{
    for j in 0..p.columns() {
        push_column(p, j, out)?;
    }
    Ok(())
}

/// Puts the section of the columns last.
#[tactic(auto, using(mps_writer_law::proofs::LineLemmas::lines_last))]
pub(crate) fn push_columns(p: &Program, out: &mut Vec<u8>) -> Result<(), Memory>
    ensures { OnOk result (out.new.items ≡ out.old.items ++ lines_text (columns_lines p.now)) }
{
    push_word(out, b"COLUMNS")?;
    push_each_column(p, out)?;
    push_turn(marked_before(p, p.columns()), false, out)?;
    Ok(())
}
