// A row divided by a number, in place.

ghost use Rattle.elimination_law.specs.Calculation.{divide_step, divided_in};
ghost use Rattle.frac_core.specs.Dot.{IsAnswer};
ghost use Rattle.frac_core.specs.Row.{IsRow};
ghost use Rattle.std.specs.Prelude.{◌≢◌, map, pos, unsigned_abs};

use frac_core::{ExactField, Refused, divided, is_zero};

/// One place: x divided by q.
fn quotient<F: ExactField>(x: F, q: F) -> Result<F, Refused>
    requires { (F.value q).num ≢ pos 0 }
    ensures { IsAnswer F.value result (divide_step (unsigned_abs F.TOP) (F.value q) (F.value x)) }
{
    if is_zero(x) {
        return Ok(x);
    }
    divided(x, q)
}

/// Divides each entry by `q`, and stops with the first refusal.
pub(crate) fn divide<F: ExactField>(row: &mut [F], q: F) -> Result<(), Refused>
    requires { (F.value q).num ≢ pos 0 }
    ensures { IsRow F.value result row.new (divided_in (unsigned_abs F.TOP) (F.value q) (map F.value row.old)) }
{
    for i in 0..row.len() {
        row[i] = quotient(row[i], q)?;
    }
    Ok(())
}
