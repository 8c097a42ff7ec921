// The calculation of the form.

ghost use Rattle.std.specs.Prelude.{◌≡◌, length, IfOk};
ghost use Rattle.program_law.specs.Region.{IsCrossedRegion};
ghost use Rattle.frac_core.specs.Parts.{max_part};
ghost use Rattle.equational_law.specs.Calculation.{form_in, form_ops};
ghost use Rattle.exact_matrix.specs.Stops.{IsAnswerOf, Answers};
ghost use Rattle.equational.specs.Formed.{formed};

use crate::assembly::assembled;
use crate::kept::Form;
use crate::objective::{objective_of, shift};
use equational_rows::{Layout, all_equations};
use exact_matrix::Stop;
use program_data::Program;
use program_regions::Region;
use std::alloc::Global;

fn calculated(alloc: Global, p: &Program, region: &Region) -> Result<Form, Stop>
    requires { length region.now ≡ length p.now.columns }
    ensures calculation { Answers (λ f. f.form) result (form_in max_part p.now region.now) }
    ensures exact { IfOk result (λ f. f ≡ formed p.now region.now) }
{
    let _columns = p.columns();
    let layout = Layout::of(alloc, p, region)?;
    let h = shift(alloc, layout.bounds())?;
    let objective = objective_of(alloc, &layout, p, &h)?;
    let (rows, firsts) = all_equations(alloc, &layout, p, &h)?;
    Ok(assembled(layout, rows, firsts, objective))
}

/// The equational form of a program in a region that isn't crossed.
///
/// A column with a low bound l is `l + z`, one with a high bound u alone `u - z`, one without bounds `z - z'`. Rows with one side get a
/// slack, rows with two different ones two, and so does a column with both bounds. An equation with a right side below 0 is negated.
///
/// # Errors
///
/// `Past` with the first operation of the form's calculation whose exact result doesn't fit, and `Memory`.
pub fn form(alloc: Global, p: &Program, region: &Region) -> Result<Form, Stop>
    requires region { length region.now ≡ length p.now.columns }
    requires not_crossed { IsCrossedRegion region.now → ⊥ }
    ensures calculation { Answers (λ f. f.form) result (form_in max_part p.now region.now) }
    ensures operations { IsAnswerOf (form_ops p.now region.now) result }
    ensures exact { IfOk result (λ f. f ≡ formed p.now region.now) }
{
    let _columns = p.columns();
    calculated(alloc, p, region)
}
