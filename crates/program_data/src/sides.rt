// The test of a row's sides.

ghost use Rattle.std.specs.Prelude.{◌≡◌, ◌↔◌, IsTrue};
ghost use Rattle.frac_core.specs.Parts.{max_part};
ghost use Rattle.rational.specs.Order.{◌≤ℚ◌};
ghost use Rattle.rational.specs.Rational.{◌-ℚ◌, fits};
ghost use Rattle.program_law.specs.Program.{IsRow};

use frac_core::{Frac, Tried};
use program_law::Row;

/// Whether a low side is at most a high one, and their difference fits.
fn is_span(low: Frac, high: Frac) -> bool
    ensures { IsTrue result ↔ ((low ≤ℚ high) × IsTrue (fits max_part (high -ℚ low))) }
{
    let difference = high - low;
    low.at_most(high) && matches!(difference, Tried::Is(_))
}

/// Whether sides may be a row's: there is one, and of two the low one is at most the high one and their difference fits.
pub fn is_row(row: &Row) -> bool
    ensures { IsTrue result ↔ IsRow row.now }
{
    match row.low {
        None => row.high.is_some(),
        Some(low) => match row.high {
            None => true,
            Some(high) => is_span(low, high),
        },
    }
}
