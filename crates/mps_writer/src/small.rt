// The numbers of a program are small: each of them says so when it is read. These functions do nothing else.

ghost use Rattle.std.specs.Prelude.{ℕ, ◌<◌, length};
ghost use Rattle.rational.specs.Rational.{Fits};
ghost use Rattle.frac_core.specs.Parts.{max_part};
ghost use Rattle.program_law.specs.Program.{IsProgram};
ghost use Rattle.rational.specs.Sums.{entry};
ghost use Rattle.rational.specs.Vectors.{row_at};
ghost use Rattle.mps_writer_law.specs.Canonical.{sides_at, bounds_at};
ghost use Rattle.mps_writer_law.specs.Back.{IsReadBack};
ghost use Rattle.mps_writer_law.specs.Small.{HasSmallSides, HasSmallNumbers};

use frac_core::Frac;
use program_data::Program;
use program_law::Row;

/// Shows that a number is small.
fn show_number(number: Frac)
    ensures { Fits max_part number }
{
    let _num = number.num();
    let _den = number.den();
}

/// Shows that the numbers of two sides are.
fn show_sides(sides: Row)
    ensures { HasSmallSides sides }
{
    if let Some(low) = sides.low {
        show_number(low);
    }
    if let Some(high) = sides.high {
        show_number(high);
    }
}

/// Shows that a list of numbers is.
fn show_each(numbers: &[Frac])
    ensures { (j : ℕ) → j < length numbers.now → Fits max_part (entry numbers.now j) }
{
    for number in numbers {
        show_number(*number);
    }
}

/// Shows that all entries are.
fn show_entries(p: &Program)
    ensures { (i j : ℕ) → i < length p.now.rows → j < length p.now.columns → Fits max_part (entry (row_at p.now.entries i) j) }
{
    for i in 0..p.rows() {
        show_each(p.entries_of(i));
    }
}

/// Shows that all entries of Q are.
fn show_pairs(p: &Program)
    ensures { (j k : ℕ) → j < length p.now.columns → k < length p.now.columns → Fits max_part (entry (row_at p.now.pairs j) k) }
{
    for j in 0..p.columns() {
        show_each(p.pairs_of(j));
    }
}

/// Shows that the sides of the rows are.
fn show_rows(p: &Program)
    ensures { (i : ℕ) → i < length p.now.rows → HasSmallSides (sides_at p.now i) }
{
    for i in 0..p.rows() {
        show_sides(p.row(i));
    }
}

/// Shows that the bounds of the columns are.
fn show_columns(p: &Program)
    ensures { (j : ℕ) → j < length p.now.columns → HasSmallSides (bounds_at p.now j) }
{
    for j in 0..p.columns() {
        show_sides(p.bounds(j));
    }
}

/// Shows that all numbers of a program are small.
pub(crate) fn show_numbers(p: &Program)
    ensures numbers { HasSmallNumbers p.now }
    ensures program { IsProgram p.now }
{
    show_entries(p);
    show_each(p.costs());
    show_number(p.constant());
    show_pairs(p);
    show_rows(p);
    show_columns(p);
    let _rows = p.rows();
}

/// Shows that a program's text is read back.
pub(crate) fn show_read_back(p: &Program)
    ensures { IsReadBack p.now }
{
    show_numbers(p);
}
