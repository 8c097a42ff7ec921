//! What a text that is appended to a program's means for the reading.

ghost use Rattle.mps_grammar.specs.Reading.{Spot, read_of, rest_of};
ghost use Rattle.mps_reader.specs.Appended.{BeginsShown, EndsInLineFeed};
ghost use Rattle.mps_tokens.specs.Lines.{raw_lines};
ghost use Rattle.program_law.specs.Program.{IsProgram, Program};
ghost use Rattle.std.specs.Prelude.{◌≡◌, ◌+◌, ◌++◌, ℕ, List, None, Ok, Some, drop, length};

/// What stands behind a program's last line feed is not read: neither the program nor the place behind it changes.
pub fn text_behind_a_program_is_not_read()
    ensures { (text more : List ℕ) (p : Program) (spot : Spot) → EndsInLineFeed text → read_of text ≡ Ok (p, spot) →
        read_of (text ++ more) ≡ Ok (p, spot) }
{}

/// Where only blank lines and comments stand behind a program, a text behind them is found where its first line is neither.
pub fn appended_text_is_found()
    ensures place { (text more : List ℕ) (p : Program) (spot : Spot) → EndsInLineFeed text → read_of text ≡ Ok (p, spot) →
        rest_of text spot ≡ None → BeginsShown more →
        rest_of (text ++ more) spot ≡ Some (length text, length (raw_lines text) + 1) }
    ensures text { (text more : List ℕ) → drop (length text) (text ++ more) ≡ more }
{}

/// What is read is a program: its names are good and differ, its lists have its lengths, its rows have sides, and Q is symmetric.
pub fn what_is_read_is_a_program()
    ensures { (text : List ℕ) (p : Program) (spot : Spot) → read_of text ≡ Ok (p, spot) → IsProgram p }
{}
