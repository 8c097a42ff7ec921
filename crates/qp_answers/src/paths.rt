//! The lines of a path.

ghost use Rattle.std.specs.Prelude.{◌≡◌, ◌<◌, ◌++◌, length, IfOk, OnOk};
ghost use Rattle.branching.specs.Stops.{IsPathIn};
ghost use Rattle.qp_answers.specs.Withheld.{cut_word, path_lines, turn_line};

use branching::{Cut, Path, Turn};
use frac_core::Memory;
use program_data::Program;
use std::alloc::Global;

fn cut_word(cut: Cut) -> &'static str
    ensures { result.now ≡ cut_word cut }
{
    match cut {
        Cut::Below => "BELOW ",
        Cut::Above => "ABOVE ",
    }
}

/// Appends the line of a turn: its side, the column's name and the branch's number.
fn push_turn(alloc: Global, program: &Program, turn: Turn, text: &mut Vec<u8>) -> Result<(), Memory>
    requires { turn.column < length program.now.columns }
    ensures { OnOk result (text.new.items ≡ text.old.items ++ turn_line program.now turn) }
{
    let Turn { cut, column, k } = turn;
    text.extend_from_slice(cut_word(cut).as_bytes())?;
    text.extend_from_slice(program.column_name(column))?;
    let number = format!(in alloc; " {k}\n")?;
    text.extend_from_slice(number.as_bytes())?;
    Ok(())
}

/// The lines of a path: one for each turn, from the program's bounds on.
pub(crate) fn path_text(alloc: Global, program: &Program, path: &Path) -> Result<Vec<u8>, Memory>
    requires { IsPathIn program.now path.now }
    ensures { IfOk result (λ v. v.items ≡ path_lines program.now path.now) }
{
    let mut text = Vec::new(alloc);
    for k in 0..path.len() {
        push_turn(alloc, program, path.at(k), &mut text)?;
    }
    Ok(text)
}
