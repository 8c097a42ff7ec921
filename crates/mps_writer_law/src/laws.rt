// What is written is read back.

ghost use Rattle.std.specs.Prelude.{◌≡◌, Ok};
ghost use Rattle.rational.specs.Rational.{ℚ, Fits};
ghost use Rattle.frac_core.specs.Parts.{max_part};
ghost use Rattle.frac_core.specs.Text.{text_of};
ghost use Rattle.program_law.specs.Program.{Program, IsProgram};
ghost use Rattle.mps_tokens.specs.Numbers.{number_of};
ghost use Rattle.mps_writer_law.specs.Back.{IsReadBack};
ghost use Rattle.mps_writer_law.specs.Small.{HasSmallNumbers};

/// The text of each number that fits is read as that number.
pub fn numbers_are_read_back()
    ensures { (q : ℚ) → Fits max_part q → number_of (text_of q) ≡ Ok q }
{}

/// The canonical text of each program whose numbers fit is accepted, where it isn't too long, and stands for that program.
pub fn text_is_read_back()
    ensures { (p : Program) → IsProgram p → HasSmallNumbers p → IsReadBack p }
{}
