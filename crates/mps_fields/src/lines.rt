// What a line is by its bytes.

ghost use Rattle.std.specs.Prelude.{◌≡◌, ◌<◌, ◌≤◌, ◌+◌, ℕ, List, length};
ghost use Rattle.mps_fields.specs.Lines.{IsWhole};
ghost use Rattle.mps_grammar.specs.Lines.{is_comment, is_indented};
ghost use Rattle.mps_grammar.specs.Faults.{is_plain, is_plain_byte, is_beyond};

use mps_tokens::{Line, next_line};

/// The last place of a text that a line may have a byte at, counted from 1.
const REACH: usize = 1_048_576;

/// Whether a line is a comment.
pub fn is_comment(line: &[u8]) -> bool
    ensures { result ≡ is_comment line.now }
{
    match line.first() {
        Some(byte) => *byte == b'*',
        None => false,
    }
}

/// Whether a blank or a tab stands in front.
pub fn is_indented(line: &[u8]) -> bool
    ensures { result ≡ is_indented line.now }
{
    match line.first() {
        Some(byte) => *byte == b' ' || *byte == b'\t',
        None => false,
    }
}

fn is_plain_byte(byte: u8) -> bool
    ensures { result ≡ is_plain_byte byte }
{
    byte == b'\t' || (32 <= byte && byte <= 126)
}

/// Whether all bytes are tabs or 32 to 126.
pub fn is_plain(line: &[u8]) -> bool
    ensures { result ≡ is_plain line.now }
{
    line.iter().all(|byte| is_plain_byte(*byte))
}

/// A line with what ends it left out, and where it ends with its carriage return.
#[derive(Clone, Copy)]
pub struct Whole {
    pub line: Line,
    pub end: usize,
}

/// The line at a place of a text.
pub fn whole_line(text: &[u8], from: usize) -> Whole
    requires { from < length text.now }
    ensures { IsWhole text.now from result }
{
    let line = next_line(text, from);
    let end = if text[line.next - 1] == b'\n' {
        line.next - 1
    } else {
        line.next
    };
    Whole { line, end }
}

/// Whether a line has a byte past the last place that it may have.
pub fn is_beyond(from: usize, end: usize) -> bool
    requires { from ≤ end }
    ensures { (raw : List ℕ) → end ≡ from + length raw → result ≡ is_beyond from raw }
{
    from < end && end > REACH
}
