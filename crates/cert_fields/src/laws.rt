// Laws of numbers.

ghost use Rattle.std.specs.Prelude.{◌≡◌, ℕ, List, Ok};
ghost use Rattle.rational.specs.Rational.{ℚ, Fits};
ghost use Rattle.frac_core.specs.Parts.{max_part};
ghost use Rattle.frac_core.specs.Text.{text_of};
ghost use Rattle.cert_fields.specs.Numbers.{number_of};

/// What is written of a number that fits is read as that number, and what is read as a number is what is written of it.
pub fn numbers_are_read_back()
    ensures back { (v : ℚ) → Fits max_part v → number_of (text_of v) ≡ Ok v }
    ensures text { (bytes : List ℕ) (v : ℚ) → number_of bytes ≡ Ok v → text_of v ≡ bytes }
    ensures fits { (bytes : List ℕ) (v : ℚ) → number_of bytes ≡ Ok v → Fits max_part v }
{}
