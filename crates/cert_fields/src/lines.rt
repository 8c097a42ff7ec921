// Lines that are written.

ghost use Rattle.std.specs.Prelude.{◌≡◌, ◌≤◌, ◌∷◌, [], unsigned_abs};
ghost use Rattle.std.specs.Fmt.{signed_decimal};
ghost use Rattle.frac_core.specs.Parts.{max_part};
ghost use Rattle.frac_core.specs.Text.{text_of};
ghost use Rattle.cert_fields.specs.Appending.{Appends};
ghost use Rattle.cert_fields.specs.Lines.{line_text};

use frac_core::{Frac, Memory};
use std::fmt::Write;

/// Appends bytes.
fn push(out: &mut Vec<u8>, bytes: &[u8]) -> Result<(), Memory>
    ensures { Appends out.old.items out.new.items bytes.now result }
{
    out.extend_from_slice(bytes)?;
    Ok(())
}

/// Appends a blank and a field.
fn push_field(out: &mut Vec<u8>, field: &[u8]) -> Result<(), Memory>
    ensures { Appends out.old.items out.new.items (32 ∷ field.now) result }
{
    push(out, b" ")?;
    push(out, field)
}

/// Appends a blank and a number, by way of a text that is kept for its room.
fn push_number(out: &mut Vec<u8>, text: &mut String, number: Frac) -> Result<(), Memory>
    ensures { Appends out.old.items out.new.items (32 ∷ text_of number) result }
{
    text.clear();
    write!(text, "{number}")?;
    push_field(out, text.as_bytes())
}

/// Appends the end of a line.
fn put_end(out: &mut Vec<u8>) -> Result<(), Memory>
    ensures { Appends out.old.items out.new.items (10 ∷ []) result }
{
    push(out, b"\n")
}

/// Appends the line of a word.
pub fn put_word(out: &mut Vec<u8>, word: &[u8]) -> Result<(), Memory>
    ensures { Appends out.old.items out.new.items (line_text (word.now ∷ [])) result }
{
    push(out, word)?;
    put_end(out)
}

/// Appends the line of a word and a number.
pub fn put_number(
    out: &mut Vec<u8>,
    text: &mut String,
    word: &[u8],
    number: Frac,
) -> Result<(), Memory>
    ensures { Appends out.old.items out.new.items (line_text (word.now ∷ text_of number ∷ [])) result }
{
    push(out, word)?;
    push_number(out, text, number)?;
    put_end(out)
}

/// Appends the line of a word and a name.
pub fn put_name(out: &mut Vec<u8>, word: &[u8], name: &[u8]) -> Result<(), Memory>
    ensures { Appends out.old.items out.new.items (line_text (word.now ∷ name.now ∷ [])) result }
{
    push(out, word)?;
    push_field(out, name)?;
    put_end(out)
}

/// Appends the line of an entry: a word, a name and a number.
pub fn put_entry(
    out: &mut Vec<u8>,
    text: &mut String,
    word: &[u8],
    name: &[u8],
    number: Frac,
) -> Result<(), Memory>
    ensures { Appends out.old.items out.new.items (line_text (word.now ∷ name.now ∷ text_of number ∷ [])) result }
{
    push(out, word)?;
    push_field(out, name)?;
    push_number(out, text, number)?;
    put_end(out)
}

/// Appends the line of a word, a name and a whole number.
#[tactic(auto, using(crate::proofs::Wholes::whole_text))]
pub fn put_whole(
    out: &mut Vec<u8>,
    text: &mut String,
    word: &[u8],
    name: &[u8],
    number: i128,
) -> Result<(), Memory>
    requires { unsigned_abs number ≤ max_part }
    ensures { Appends out.old.items out.new.items (line_text (word.now ∷ name.now ∷ signed_decimal number ∷ [])) result }
{
    put_entry(out, text, word, name, Frac::whole(number))
}
