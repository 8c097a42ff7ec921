// Lines, field by field.

ghost use Rattle.std.specs.Prelude.{◌≡◌, ◌++◌, ◌∷◌, [], true, map, OnOk, IfOk};
ghost use Rattle.mps_tokens.specs.Written.{ended};
ghost use Rattle.mps_writer_law.specs.Lines.{data_line, lines_text, behind};
ghost use Rattle.mps_line_writer.specs.Fields.{field_text};

use crate::numbers::{ROOM, put_number};
use frac_core::{Frac, Memory};

/// A field of a line.
#[derive(Clone, Copy)]
pub enum Field<'a> {
    Word(&'a [u8]),
    Number(Frac),
}

/// Puts the text of a field last.
fn push_text(out: &mut Vec<u8>, field: &Field<'_>) -> Result<(), Memory>
    ensures { OnOk result (out.new.items ≡ out.old.items ++ field_text field.now) }
{
    match field {
        Field::Word(bytes) => out.extend_from_slice(bytes)?,
        Field::Number(number) => {
            let mut buffer = [0; ROOM];
            let at = put_number(&mut buffer, *number);
            out.extend_from_slice(&buffer[at..])?;
        }
    }
    Ok(())
}

/// Puts a line of fields last, each behind a blank.
pub fn push_line(out: &mut Vec<u8>, fields: &[Field<'_>]) -> Result<(), Memory>
    ensures { OnOk result (out.new.items ≡ out.old.items ++ ended (data_line (map field_text fields.now))) }
{
    for field in fields {
        out.push(b' ')?;
        push_text(out, field)?;
    }
    out.push(b'\n')?;
    Ok(())
}

/// Puts a word last, as a line.
pub fn push_word(out: &mut Vec<u8>, word: &[u8]) -> Result<(), Memory>
    ensures { OnOk result (out.new.items ≡ out.old.items ++ ended word.now) }
{
    out.extend_from_slice(word)?;
    out.push(b'\n')?;
    Ok(())
}

/// Puts a line of a section last, behind the section's word where the section isn't begun yet. Then it is begun.
pub fn push_in_section(
    out: &mut Vec<u8>,
    begun: bool,
    word: &[u8],
    fields: &[Field<'_>],
) -> Result<bool, Memory>
    ensures ok { OnOk result (out.new.items ≡ out.old.items ++ lines_text (behind begun word.now (data_line (map field_text fields.now) ∷ []))) }
    ensures begun { IfOk result (λ b. b ≡ true) }
{
    if !begun {
        push_word(out, word)?;
    }
    push_line(out, fields)?;
    Ok(true)
}
