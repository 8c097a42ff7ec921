// The test that squares sum to the form.

ghost use Rattle.std.specs.Prelude.{◌≡◌, ◌<◌, ◌-◌, length, All};
ghost use Rattle.rational.specs.Rational.{zero_ℚ};
ghost use Rattle.rational.specs.Sums.{entry};
ghost use Rattle.cert_check_law.specs.Squares.{with_square, squares_from, pair_test, pairs_in_row, pairs_from, squares_test};

use cert_check_law::Event;
use check_steps::{entry, product, sum, tested};
use frac_core::Frac;
use program_data::Program;
use program_law::Square;

/// The sum with a square's product of two entries. An entry 0 makes no operation.
#[tactic(auto, unfolding(cert_check_law::specs::Squares::with_square))]
fn product_added(total: Frac, weight: Frac, a: Frac, b: Frac) -> Result<Frac, Event>
    ensures { result ≡ with_square total weight a b }
{
    if a.is_zero() || b.is_zero() {
        return Ok(total);
    }
    let weighed = product(weight, a)?;
    let both = product(weighed, b)?;
    sum(total, both)
}

/// The sum with a square's product at two places.
fn square_added(total: Frac, square: &Square, j: usize, k: usize) -> Result<Frac, Event>
    requires first { j < length square.now.coef }
    requires second { k < length square.now.coef }
    ensures { result ≡ with_square total square.now.weight (entry square.now.coef j) (entry square.now.coef k) }
{
    let first = entry(&square.coef, j);
    let second = entry(&square.coef, k);
    product_added(total, square.weight, first, second)
}

/// What the squares sum to at two places.
fn squares_added(squares: &[Square], width: usize, j: usize, k: usize) -> Result<Frac, Event>
    requires wide { All (λ s. length s.coef ≡ width) squares.now }
    requires first { j < width }
    requires second { k < width }
    ensures { result ≡ squares_from zero_ℚ squares.now j k }
{
    let mut total = Frac::whole(0);
    for m in 0..squares.len() {
        total = square_added(total, &squares[m], j, k)?;
    }
    Ok(total)
}

/// The squares sum to the form's entry at two places.
#[tactic(auto, unfolding(cert_check_law::specs::Squares::pair_test))]
fn pair_tested(p: &Program, squares: &[Square], j: u32, k: u32) -> Result<(), Event>
    requires wide { All (λ s. length s.coef ≡ length p.now.columns) squares.now }
    requires first { j < length p.now.columns }
    requires second { k < length p.now.columns }
    ensures { result ≡ pair_test p.now.pairs squares.now j k }
{
    let width = p.columns();
    let total = squares_added(squares, width as usize, j as usize, k as usize)?;
    tested(total == p.pair(j, k), 5, j + 1)
}

/// They do at a column and each from there on.
#[tactic(auto, using(crate::proofs::Pairs::row_step))]
fn row_tested(p: &Program, squares: &[Square], j: u32) -> Result<(), Event>
    requires wide { All (λ s. length s.coef ≡ length p.now.columns) squares.now }
    requires first { j < length p.now.columns }
    ensures { result ≡ pairs_in_row p.now.pairs squares.now j j (length p.now.columns - j) }
{
    for k in j..p.columns() {
        pair_tested(p, squares, j, k)?;
    }
    Ok(())
}

/// The test that the squares sum to the form.
///
/// # Errors
/// The first event of the calculation: an operation that is past, or the test that fails, with the place of the column, from 1.
#[tactic(auto, unfolding(cert_check_law::specs::Squares::squares_test), using(crate::proofs::Pairs::all_step))]
pub fn squares_tested(p: &Program, squares: &[Square]) -> Result<(), Event>
    requires { All (λ s. length s.coef ≡ length p.now.columns) squares.now }
    ensures { result ≡ squares_test p.now squares.now }
{
    for j in 0..p.columns() {
        row_tested(p, squares, j)?;
    }
    Ok(())
}
