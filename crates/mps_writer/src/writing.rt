// The whole text.

ghost use Rattle.std.specs.Prelude.{◌≡◌, ◌++◌, OnOk, OnErr};
ghost use Rattle.mps_writer_law.specs.Lines.{lines_text};
ghost use Rattle.mps_writer_law.specs.Back.{IsReadBack};
ghost use Rattle.mps_writer_law.specs.Canonical.{text_of_program};

use crate::bounds::push_bounds;
use crate::columns::push_columns;
use crate::pairs::push_pairs;
use crate::rows::push_rows;
use crate::sides::{push_ranges, push_right_sides};
use crate::small::show_read_back;
use frac_core::Memory;
use mps_line_writer::push_word;
use program_data::Program;
use std::alloc::Global;

/// Puts the canonical text of a program last.
fn push_program(p: &Program, out: &mut Vec<u8>) -> Result<(), Memory>
    ensures { OnOk result (out.new.items ≡ out.old.items ++ text_of_program p.now) }
{
    push_word(out, b"NAME")?;
    push_rows(p, out)?;
    push_columns(p, out)?;
    push_right_sides(p, out)?;
    push_ranges(p, out)?;
    push_bounds(p, out)?;
    push_pairs(p, out)?;
    push_word(out, b"ENDATA")?;
    Ok(())
}

/// Appends the canonical text of a program.
///
/// # Errors
/// `Memory`. Then `out` stands as it was.
pub fn write(alloc: Global, p: &Program, out: &mut Vec<u8>) -> Result<(), Memory>
    ensures ok { OnOk result (out.new.items ≡ out.old.items ++ text_of_program p.now) }
    ensures err { OnErr result (out.new.items ≡ out.old.items) }
    // The text alone is read as the program.
    ensures read { IsReadBack p.now }
{
    show_read_back(p);
    let mut text = Vec::new(alloc);
    push_program(p, &mut text)?;
    out.extend_from_slice(&text)?;
    Ok(())
}
