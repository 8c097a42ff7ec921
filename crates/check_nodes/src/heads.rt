// The tests of what stands before a certificate's tree, and of a certificate that has none.

ghost use Rattle.std.specs.Prelude.{◌≡◌, All};
ghost use Rattle.program_law.specs.Program.{bounds};
ghost use Rattle.certificate_law.specs.Fits.{IsColumnVector};
ghost use Rattle.cert_check_law.specs.Heads.{best_test, unbounded_test, vector_test};

use cert_check_law::Event;
use check_parts::{ray_tested, squares_tested};
use check_steps::{answered, tested};
use frac_core::{Frac, Vector};
use program_data::Program;
use program_law::Square;
use program_model::{form, point_tested, value};
use program_regions::Region;

/// The tests of a point that is best, in the region of the program's bounds: the point, its value, the squares.
///
/// # Errors
/// The first operation that is past or test that fails.
#[tactic(auto, unfolding(cert_check_law::specs::Heads::best_test))]
pub fn best_tested(
    p: &Program,
    region: &Region,
    x: &Vector<Frac>,
    v: Frac,
    squares: &[Square],
) -> Result<(), Event>
    requires region { region.now ≡ bounds p.now }
    requires point { IsColumnVector p.now x.now }
    requires squares { All (λ s. IsColumnVector p.now s.coef) squares.now }
    ensures { result ≡ best_test p.now x.now v squares.now }
{
    let _columns = p.columns();
    point_tested(p, region, x)?;
    let calculated = answered(value(p, x))?;
    tested(calculated == v, 4, 0)?;
    squares_tested(p, squares)
}

/// The tests of values without a bound, in the region of the program's bounds: the point, the ray, the squares.
///
/// # Errors
/// The first operation that is past or test that fails.
#[tactic(auto, unfolding(cert_check_law::specs::Heads::unbounded_test))]
pub fn unbounded_tested(
    p: &Program,
    region: &Region,
    x: &Vector<Frac>,
    d: &Vector<Frac>,
    squares: &[Square],
) -> Result<(), Event>
    requires region { region.now ≡ bounds p.now }
    requires point { IsColumnVector p.now x.now }
    requires ray { IsColumnVector p.now d.now }
    requires squares { All (λ s. IsColumnVector p.now s.coef) squares.now }
    ensures { result ≡ unbounded_test p.now x.now d.now squares.now }
{
    let _columns = p.columns();
    point_tested(p, region, x)?;
    ray_tested(p, d)?;
    squares_tested(p, squares)
}

/// The test of a vector whose form is below 0.
///
/// # Errors
/// The first operation that is past, or the test that fails.
#[tactic(auto, unfolding(cert_check_law::specs::Heads::vector_test))]
pub fn vector_tested(p: &Program, x: &Vector<Frac>) -> Result<(), Event>
    requires { IsColumnVector p.now x.now }
    ensures { result ≡ vector_test p.now x.now }
{
    let form = form(p, x)?;
    tested(form.is_negative(), 15, 0)
}
