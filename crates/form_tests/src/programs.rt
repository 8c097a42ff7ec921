// Programs that are read from texts, and their forms.

use equational::{Form, form};
use exact_matrix::Stop;
use mps_reader::read;
use program_data::Program;
use program_regions::Region;
use std::alloc::Global;
use std::test::Fail;

/// Minimise MAX x + MAX y where both are at least 1, and MAX is the greatest part of a fraction.
pub(crate) const LARGE_COSTS: &str =
    "ROWS\n N obj\nCOLUMNS\n x obj 170141183460469231731687303715884105727\n y obj 170141183460469231731687303715884105727\nBOUNDS\n LO B x 1\n LO B y 1\nENDATA\n";

/// Minimise x^2 + 4y^2 - 32y + 64 where x + y <= 7, -x + 2y <= 4, x >= 0 and 0 <= y <= 4.
pub(crate) const FIRST: &str =
    "NAME first\nROWS\n N obj\n L c1\n L c2\nCOLUMNS\n x c1 1 c2 -1\n y obj -32 c1 1\n y c2 2\nRHS\n RHS obj -64\n RHS c1 7 c2 4\nBOUNDS\n UP BND y 4\nQUADOBJ\n x x 2\n y y 8\nENDATA\n";

/// Minimise (x + y - 2)^2 where x and y are not below 0.
pub(crate) const VALLEY: &str =
    "ROWS\n N obj\nCOLUMNS\n x obj -4\n y obj -4\nRHS\n RHS obj -4\nQUADOBJ\n x x 2\n x y 2\n y y 2\nENDATA\n";

/// The program of a text of at most a thousand bytes.
pub(crate) fn program_of(alloc: Global, text: &str) -> Result<Program, Fail> {
    if text.len() > 1000 {
        return Err(Fail::new("a long text"));
    }
    match read(alloc, text.as_bytes()) {
        Ok((program, _)) => Ok(program),
        Err(_) => Err(Fail::new("not read")),
    }
}

/// The form of a program in the region of its bounds.
pub(crate) fn formed(alloc: Global, p: &Program) -> Result<Form, Stop> {
    let region = Region::of(alloc, p)?;
    if region.crossed().is_some() || region.len() != p.columns() as usize {
        return Err(Stop::Memory);
    }
    form(alloc, p, &region)
}
